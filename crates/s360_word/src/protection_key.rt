//! Protection keys: those of the PSW and of the channel address word, and the storage keys of
//! blocks. Source: GA22-6821, "System Structure", protection feature.
ghost use Rattle.std.specs.Prelude.{◌≡◌, ◌<◌};

use std::marker::Model;

/// A key of four bits, 0 to 15, which a contract sees as its number.
#[derive(Clone, Copy, Debug, PartialEq, Eq)]
pub struct ProtectionKey(u8);

impl Model for ProtectionKey {
    ghost use Rattle.std.specs.Prelude.{ℕ, ◌<◌};

    ghost Value = { ℕ };

    ghost view = { λ k. k.0 };

    ghost invariant = { λ k. k.0 < 16 };

    ghost inverse = { λ n. record { 0 = n } };
}

impl ProtectionKey {
    /// The key of a number below 16.
    pub fn new(number: u8) -> ProtectionKey
        requires { number < 16 }
        ensures { result ≡ number }
    {
        ProtectionKey(number)
    }

    /// Its number, 0 to 15.
    pub fn number(self) -> u8
        ensures value { result ≡ self }
        ensures below { result < 16 }
    {
        self.0
    }
}
