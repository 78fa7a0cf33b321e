//! Why a storage was not made.
ghost use Rattle.std.specs.Prelude.{◌≡◌};
ghost use Rattle.s360_store.specs.declared.fault.StoreFault.TheVariants.{Memory};

use std::alloc::AllocError;
use thiserror::Error;

/// Why a storage was not made, in the order in which it is found.
#[derive(Clone, Copy, Debug, PartialEq, Eq, Error)]
pub enum StoreFault {
    /// The size is no multiple of 2,048 bytes from 8,192 to 1,048,576.
    #[error("no storage size")]
    Size,
    /// A growth was refused.
    #[error("out of memory")]
    Memory,
}

impl From<AllocError> for StoreFault {
    ghost from_gives = { λ _ e. e ≡ Memory };

    fn from(_e: AllocError) -> StoreFault {
        StoreFault::Memory
    }
}
