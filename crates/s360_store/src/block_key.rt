//! What storage keeps for each block: its storage key and its fetch bit. Source: GA22-6821, "System
//! Structure", protection feature.
ghost use Rattle.std.specs.Prelude.{◌≡◌, ◌<◌};
ghost use Rattle.s360_model.specs.Storage.{fetch_bit_of_block, key_of_block, with_fetch_bit};
ghost use Rattle.s360_store.specs.Protection.{block_allows};

use crate::protection::Access;
use s360_word::ProtectionKey;
use std::marker::Model;

/// A key is below this number, and a one in the fetch bit adds it.
const FETCH_BIT: u8 = 16;

/// A storage key and a fetch bit. A contract sees one number: the key, and 16 more where the bit is one.
#[derive(Clone, Copy, PartialEq, Eq)]
pub struct BlockKey(u8);

impl Model for BlockKey {
    ghost use Rattle.std.specs.Prelude.{ℕ, ◌<◌};

    ghost Value = { ℕ };

    ghost view = { λ k. k.0 };

    ghost invariant = { λ k. k.0 < 32 };

    ghost inverse = { λ n. record { 0 = n } };
}

impl BlockKey {
    /// A key and a fetch bit.
    pub fn new(key: ProtectionKey, fetch_bit: bool) -> BlockKey
        ensures { result ≡ with_fetch_bit key fetch_bit }
    {
        if fetch_bit {
            BlockKey(key.number() + FETCH_BIT)
        } else {
            BlockKey(key.number())
        }
    }

    /// Those of a number below 32.
    pub fn from_number(number: u8) -> BlockKey
        requires { number < 32 }
        ensures { result ≡ number }
    {
        BlockKey(number)
    }

    /// Their number, 0 to 31.
    pub fn number(self) -> u8
        ensures value { result ≡ self }
        ensures below { result < 32 }
    {
        self.0
    }

    /// The storage key.
    pub fn key(self) -> ProtectionKey
        ensures { result ≡ key_of_block self }
    {
        ProtectionKey::new(self.0 % FETCH_BIT)
    }

    /// The fetch bit.
    pub fn fetch_bit(self) -> bool
        ensures { result ≡ fetch_bit_of_block self }
    {
        self.0 >= FETCH_BIT
    }

    /// Whether an access to the block is allowed under a protection key other than 0.
    pub(crate) fn allows(self, kind: Access, key: ProtectionKey) -> bool
        ensures { result ≡ block_allows kind key self }
    {
        match kind {
            Access::Store => self.key() == key,
            Access::Fetch => !self.fetch_bit() || self.key() == key,
        }
    }
}
