//! The channel address word. Source: GA22-6821, "Input/Output Operations", channel address word.
ghost use Rattle.std.specs.Prelude.{◌≡◌};
ghost use Rattle.s360_channel.specs.Words.{caw_of, caw_word, is_whole_caw};

use s360_word::{ProtectionKey, Word};

/// The word at decimal 72, from which a channel program starts.
#[derive(Clone, Copy)]
pub struct Caw {
    /// The protection key of the program's stores (bits 0 to 3).
    pub key: ProtectionKey,
    /// Bits 4 to 7, which have to be zero.
    pub reserved: u8,
    /// The address of the first channel command word (bits 8 to 31).
    pub address: u32,
}

impl Caw {
    /// The fields of a word.
    pub fn from_word(word: Word) -> Caw
        ensures { result ≡ caw_of word }
    {
        Caw {
            key: ProtectionKey::new((word / (1 << 28)) as u8),
            reserved: (word / (1 << 24) % 16) as u8,
            address: word % (1 << 24),
        }
    }

    /// The word of its fields, of the reserved bits the low four and of the address the low 24.
    pub fn to_word(&self) -> Word
        ensures { result ≡ caw_word self.now }
    {
        Word::from(self.key.number()) * (1 << 28)
            + Word::from(self.reserved % 16) * (1 << 24)
            + self.address % (1 << 24)
    }

    /// Whether a program can start from it: bits 4 to 7 are zero, and the address is that of a
    /// doubleword.
    pub fn is_whole(&self) -> bool
        ensures { result ≡ is_whole_caw self.now }
    {
        self.reserved == 0 && self.address % 8 == 0
    }
}
