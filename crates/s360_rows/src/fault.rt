//! Why a test has no answer. `tests/refuse_each_growth.py` takes want of memory alone for one that a refused growth may
//! have brought about.
use s360_debug::ScriptFault;
use s360_device::DeckFault;
use s360_journal::Withdrawal;
use s360_language::LineFault;
use s360_machine::Refusal;
use s360_store::StoreFault;
use s360_tape::TapeFault;
use std::alloc::AllocError;
use std::io;
use std::num::ParseIntError;

/// Why there is no answer.
#[derive(Clone, Copy, Debug, PartialEq, Eq)]
pub(crate) enum Fault {
    /// A growth was refused.
    Memory,
    /// Something is not what the tests have, as a question that is none or a refusal of what is to be accepted.
    Unforeseen,
}

impl Fault {
    /// A fault that is want of memory, or any other.
    pub(crate) fn of(is_memory: bool) -> Fault {
        if is_memory {
            Fault::Memory
        } else {
            Fault::Unforeseen
        }
    }
}

impl From<AllocError> for Fault {
    fn from(_fault: AllocError) -> Fault {
        Fault::Memory
    }
}

impl From<ParseIntError> for Fault {
    fn from(_fault: ParseIntError) -> Fault {
        Fault::Unforeseen
    }
}

impl From<io::Error> for Fault {
    fn from(_fault: io::Error) -> Fault {
        Fault::Unforeseen
    }
}

impl From<StoreFault> for Fault {
    fn from(fault: StoreFault) -> Fault {
        Fault::of(fault == StoreFault::Memory)
    }
}

impl From<DeckFault> for Fault {
    fn from(fault: DeckFault) -> Fault {
        Fault::of(fault == DeckFault::Memory)
    }
}

impl From<TapeFault> for Fault {
    fn from(fault: TapeFault) -> Fault {
        Fault::of(fault == TapeFault::Memory)
    }
}

impl From<Refusal> for Fault {
    fn from(fault: Refusal) -> Fault {
        Fault::of(fault == Refusal::Memory)
    }
}

impl From<LineFault> for Fault {
    fn from(fault: LineFault) -> Fault {
        Fault::of(fault == LineFault::Memory)
    }
}
