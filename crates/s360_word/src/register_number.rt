//! The numbers of the general registers. Source: GA22-6821, "System Structure", general registers.
ghost use Rattle.std.specs.Prelude.{◌≡◌, ◌<◌};

use std::marker::Model;

/// The number of a general register, 0 to 15, which a contract sees as that number.
#[derive(Clone, Copy, Debug, PartialEq, Eq, PartialOrd, Ord)]
pub struct RegisterNumber(u8);

impl Model for RegisterNumber {
    ghost use Rattle.std.specs.Prelude.{ℕ, ◌<◌};

    ghost Value = { ℕ };

    ghost view = { λ r. r.0 };

    ghost invariant = { λ r. r.0 < 16 };

    ghost inverse = { λ n. record { 0 = n } };
}

impl RegisterNumber {
    /// The register with a number below 16.
    pub fn new(number: u8) -> RegisterNumber
        requires { number < 16 }
        ensures { result ≡ number }
    {
        RegisterNumber(number)
    }

    /// Its number, 0 to 15.
    pub fn number(self) -> u8
        ensures value { result ≡ self }
        ensures below { result < 16 }
    {
        self.0
    }
}
