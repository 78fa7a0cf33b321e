//! Why bytes are no expression, and why an evaluation fails. Source: gdb manual, "The GDB Agent Expression Mechanism",
//! "Bytecode Descriptions".
ghost use Rattle.std.specs.Prelude.{◌≡◌};
ghost use Rattle.s360_condition.specs.declared.fault.ExpressionFault.TheVariants.{Memory};

use std::alloc::{AllocError, AllocFailed};
use thiserror::Error;

/// Why bytes are no expression. Offsets are bytes from the beginning of the expression.
#[derive(Clone, Copy, Debug, PartialEq, Eq, Error)]
pub enum ExpressionFault {
    /// There are more than 4,096 bytes.
    #[error("too long")]
    TooLong,
    /// The byte at this offset is the code of no instruction that is known.
    #[error("unknown code at {0}")]
    UnknownCode(u16),
    /// The bytes end within the operand of the instruction at this offset.
    #[error("operand cut off at {0}")]
    CutOff(u16),
    /// The jump at this offset goes to no instruction further on.
    #[error("jump astray at {0}")]
    AstrayJump(u16),
    /// A growth was refused.
    #[error("out of memory")]
    Memory,
}

impl From<AllocError> for ExpressionFault {
    ghost from_gives = { λ _ fault. fault ≡ Memory };

    fn from(_e: AllocError) -> ExpressionFault {
        ExpressionFault::Memory
    }
}

impl<T: Drop> From<AllocFailed<T>> for ExpressionFault {
    ghost from_gives = { λ _ fault. fault ≡ Memory };

    fn from(_e: AllocFailed<T>) -> ExpressionFault {
        ExpressionFault::Memory
    }
}

/// Why an evaluation fails.
#[derive(Clone, Copy, Debug, PartialEq, Eq, Error)]
pub enum EvaluationFault {
    /// The stack has too few values for an instruction.
    #[error("stack underflow")]
    StackUnderflow,
    /// The stack would have more than 64 values.
    #[error("stack overflow")]
    StackOverflow,
    /// The target has no register of this number.
    #[error("no such register")]
    NoSuchRegister,
    /// A byte is not in storage, or its address has more than 32 bits.
    #[error("outside storage")]
    OutsideStorage,
    /// The divisor is zero.
    #[error("division by zero")]
    DivisionByZero,
    /// The least signed number is divided by -1: the quotient has no place in 64 bits.
    #[error("quotient too large")]
    QuotientTooLarge,
    /// A shift by 64 bits or more.
    #[error("shift too far")]
    ShiftTooFar,
    /// A sign is extended from 0 bits.
    #[error("no sign bit")]
    NoSignBit,
    /// The evaluation ran off the end of the expression.
    #[error("no end")]
    NoEnd,
}
