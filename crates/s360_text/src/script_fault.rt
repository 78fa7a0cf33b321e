//! Why a script is not carried out to its end.
ghost use Rattle.std.specs.Prelude.{◌≡◌};
ghost use Rattle.s360_text.specs.Scripts.{fault_of_read};
ghost use Rattle.s360_text.specs.declared.script_fault.ScriptFault.TheVariants.{Memory, Write as write_failed};

use crate::reading::ReadFault;
use crate::writing::Untaken;
use std::alloc::AllocError;
use thiserror::Error;

/// Why a script was not carried out to its end.
#[derive(Clone, Copy, Debug, PartialEq, Eq, Error)]
pub enum ScriptFault {
    /// A read failed.
    #[error("read failed")]
    Read,
    /// The script has more than 1,048,576 bytes.
    #[error("script too long")]
    TooLong,
    /// A write failed, or took no byte.
    #[error("write failed")]
    Write,
    /// A growth was refused.
    #[error("out of memory")]
    Memory,
}

impl From<AllocError> for ScriptFault {
    ghost from_gives = { λ _ e. e ≡ Memory };

    fn from(_e: AllocError) -> ScriptFault {
        ScriptFault::Memory
    }
}

impl From<ReadFault> for ScriptFault {
    ghost from_gives = { λ fault e. e ≡ fault_of_read fault };

    fn from(fault: ReadFault) -> ScriptFault {
        match fault {
            ReadFault::Failed => ScriptFault::Read,
            ReadFault::TooLong => ScriptFault::TooLong,
            ReadFault::Memory => ScriptFault::Memory,
        }
    }
}

impl From<Untaken> for ScriptFault {
    ghost from_gives = { λ _ e. e ≡ write_failed };

    fn from(_e: Untaken) -> ScriptFault {
        ScriptFault::Write
    }
}
