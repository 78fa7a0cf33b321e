//! Why a file is no deck.
ghost use Rattle.std.specs.Prelude.{◌≡◌};
ghost use Rattle.s360_device.specs.declared.fault.DeckFault.TheVariants.{Memory};

use std::alloc::AllocError;
use thiserror::Error;

/// Why a file was not read as a deck, in the order in which it is found.
#[derive(Clone, Copy, Debug, PartialEq, Eq, Error)]
pub enum DeckFault {
    /// The card that starts here, in bytes from the start of the file, has less than 80.
    #[error("short card at {0}")]
    ShortCard(usize),
    /// A growth was refused.
    #[error("out of memory")]
    Memory,
}

impl From<AllocError> for DeckFault {
    ghost from_gives = { λ _ e. e ≡ Memory };

    fn from(_e: AllocError) -> DeckFault {
        DeckFault::Memory
    }
}
