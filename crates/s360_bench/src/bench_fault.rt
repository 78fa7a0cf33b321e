//! Why nothing was measured.
use s360_device::DeckFault;
use s360_machine::Refusal;
use s360_store::StoreFault;
use s360_tape::TapeFault;
use std::alloc::AllocError;
use std::io;
use thiserror::Error;

/// Why nothing was measured.
#[derive(Clone, Copy, Debug, PartialEq, Eq, Error)]
pub(crate) enum BenchFault {
    /// The storage has no size that a storage can have, or too small a one for the loop.
    #[error("no such storage size")]
    Size,
    /// The clock cannot be read.
    #[error("no clock")]
    Clock,
    /// An event was refused for another cause than want of memory.
    #[error("refused: {0}")]
    Refused(Refusal),
    /// A growth was refused.
    #[error("out of memory")]
    Memory,
}

impl From<StoreFault> for BenchFault {
    fn from(fault: StoreFault) -> BenchFault {
        match fault {
            StoreFault::Size => BenchFault::Size,
            StoreFault::Memory => BenchFault::Memory,
        }
    }
}

impl From<DeckFault> for BenchFault {
    fn from(_e: DeckFault) -> BenchFault {
        // A deck that is made has no short card.
        BenchFault::Memory
    }
}

impl From<TapeFault> for BenchFault {
    fn from(_e: TapeFault) -> BenchFault {
        // A tape's file that is made is one.
        BenchFault::Memory
    }
}

impl From<Refusal> for BenchFault {
    fn from(refusal: Refusal) -> BenchFault {
        match refusal {
            Refusal::Memory => BenchFault::Memory,
            other => BenchFault::Refused(other),
        }
    }
}

impl From<AllocError> for BenchFault {
    fn from(_e: AllocError) -> BenchFault {
        BenchFault::Memory
    }
}

impl From<io::Error> for BenchFault {
    fn from(_e: io::Error) -> BenchFault {
        BenchFault::Clock
    }
}
