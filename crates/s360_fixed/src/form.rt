//! The formats of instructions, and an instruction by its format. Source: GA22-6821, "System
//! Structure", program execution.
use crate::operation::Operation;
use s360_word::RegisterNumber;

/// A format of instructions.
#[derive(Clone, Copy, PartialEq, Eq)]
pub enum Format {
    /// Two bytes: code, R1 and R2.
    Rr,
    /// Four bytes: code, R1 and X2, B2 and D2.
    Rx,
    /// Four bytes: code, R1 and R3, B2 and D2.
    Rs,
    /// Four bytes: code, I2, B1 and D1.
    Si,
    /// Six bytes: code, L, B1 and D1, B2 and D2.
    Ss,
}

/// What an operation code stands for.
#[derive(Clone, Copy)]
pub(crate) struct Entry {
    pub format: Format,
    pub operation: Operation,
}

/// An instruction: its operation, and the fields of its format under their names in the standard. A
/// displacement is below 4,096.
#[derive(Clone, Copy)]
pub enum Form {
    /// Register and register. A branch on condition has its mask for R1, and a supervisor call its
    /// code in both.
    Rr {
        operation: Operation,
        r1: RegisterNumber,
        r2: RegisterNumber,
    },
    /// Register and indexed storage. A branch on condition has its mask for R1.
    Rx {
        operation: Operation,
        r1: RegisterNumber,
        x2: RegisterNumber,
        b2: RegisterNumber,
        d2: u16,
    },
    /// Registers and storage.
    Rs {
        operation: Operation,
        r1: RegisterNumber,
        r3: RegisterNumber,
        b2: RegisterNumber,
        d2: u16,
    },
    /// Storage and an immediate byte.
    Si {
        operation: Operation,
        i2: u8,
        b1: RegisterNumber,
        d1: u16,
    },
    /// Storage and storage. The length is one less than the number of bytes, or two lengths of four
    /// bits.
    Ss {
        operation: Operation,
        l: u8,
        b1: RegisterNumber,
        d1: u16,
        b2: RegisterNumber,
        d2: u16,
    },
}
