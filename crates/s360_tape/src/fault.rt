//! Why a file is no tape.
ghost use Rattle.std.specs.Prelude.{◌≡◌};
ghost use Rattle.s360_tape.specs.declared.fault.TapeFault.TheVariants.{Memory};

use std::alloc::AllocError;
use thiserror::Error;

/// Why a file was not read as a tape. Offsets are those of the header at which it was found, in bytes
/// from the start of the file; at one header faults are found in this order.
#[derive(Clone, Copy, Debug, PartialEq, Eq, Error)]
pub enum TapeFault {
    /// Less than six bytes are left for a header.
    #[error("short header at {0}")]
    ShortHeader(usize),
    /// There are no such flags, or a mark has bytes.
    #[error("bad flags at {0}")]
    BadFlags(usize),
    /// The first part of a block, a whole block or a mark stands inside a block, or a middle or last
    /// part outside of one, or the file ends inside a block.
    #[error("part out of place at {0}")]
    PartOutOfPlace(usize),
    /// Fewer bytes are left than the part has.
    #[error("short block at {0}")]
    ShortBlock(usize),
    /// The block has more than 65,535 bytes with this part.
    #[error("block too long at {0}")]
    BlockTooLong(usize),
    /// A growth was refused.
    #[error("out of memory")]
    Memory,
}

impl From<AllocError> for TapeFault {
    ghost from_gives = { λ _ e. e ≡ Memory };

    fn from(_e: AllocError) -> TapeFault {
        TapeFault::Memory
    }
}
