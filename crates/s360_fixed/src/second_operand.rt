//! Where the second operand of an instruction with the format RX is.
ghost use Rattle.std.specs.Prelude.{◌≡◌, ◌<◌};
ghost use Rattle.s360_fixed.specs.Operands.{bytes_of_width};

/// How many bytes of storage an operand has.
#[derive(Clone, Copy, PartialEq, Eq)]
pub enum Width {
    /// One byte.
    Byte,
    /// Two bytes, a number extended by its sign.
    Halfword,
    /// Four bytes.
    Word,
}

impl Width {
    /// The number of bytes.
    pub fn bytes(self) -> u32
        ensures bytes { result ≡ bytes_of_width self }
        ensures some { 0 < result }
    {
        match self {
            Width::Byte => 1,
            Width::Halfword => 2,
            Width::Word => 4,
        }
    }
}

/// Where the second operand of an instruction with the format RX is.
#[derive(Clone, Copy)]
pub enum SecondOperand {
    /// At the address, with so many bytes.
    InStorage(Width),
    /// It is the address.
    Address,
}
