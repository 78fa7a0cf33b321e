//! The instructions of an expression, by the manual's names. Source: gdb manual, "The GDB Agent Expression Mechanism",
//! "Bytecode Descriptions", whose stacks stand here as there: `a b ⇒ c` takes `b` from the top and `a` below it, and
//! leaves `c`.
ghost use Rattle.std.specs.Prelude.{◌≡◌, ◌<◌, ◌≤◌};
ghost use Rattle.s360_condition.specs.Instructions.{bytes_of_width, jump_of};

/// The instructions `a b ⇒ c`.
#[derive(Clone, Copy, Debug, PartialEq, Eq)]
pub enum Binary {
    /// `a + b`
    Add,
    /// `a - b`
    Sub,
    /// `a * b`
    Mul,
    /// `a / b` of signed numbers, rounded toward zero.
    DivSigned,
    /// `a / b`
    DivUnsigned,
    /// What remains of `a / b` of signed numbers; it has the sign of `a`.
    RemSigned,
    /// What remains of `a / b`.
    RemUnsigned,
    /// `a` shifted left by `b` bits.
    Lsh,
    /// `a` shifted right by `b` bits, with copies of its top bit coming in.
    RshSigned,
    /// `a` shifted right by `b` bits, with zeros coming in.
    RshUnsigned,
    /// The bits that are in both.
    BitAnd,
    /// The bits that are in either.
    BitOr,
    /// The bits that are in just one.
    BitXor,
    /// 1 if they are equal, else 0.
    Equal,
    /// 1 if `a < b` as signed numbers, else 0.
    LessSigned,
    /// 1 if `a < b`, else 0.
    LessUnsigned,
}

/// The instructions `a ⇒ b` that read nothing else.
#[derive(Clone, Copy, Debug, PartialEq, Eq)]
pub enum Unary {
    /// 1 if `a` is zero, else 0.
    LogNot,
    /// The bits that are not in `a`.
    BitNot,
    /// The low so many bits of `a` as a signed number.
    Ext(u8),
    /// The low so many bits of `a`.
    ZeroExt(u8),
}

/// How much of storage is fetched.
#[derive(Clone, Copy, Debug, PartialEq, Eq)]
pub enum Width {
    /// 8 bits.
    Ref8,
    /// 16 bits.
    Ref16,
    /// 32 bits.
    Ref32,
    /// 64 bits.
    Ref64,
}

impl Width {
    /// So many bytes.
    pub(crate) fn bytes(self) -> usize
        ensures value { result ≡ bytes_of_width self }
        ensures some { 0 < result }
        ensures few { result ≤ 8 }
    {
        match self {
            Width::Ref8 => 1,
            Width::Ref16 => 2,
            Width::Ref32 => 4,
            Width::Ref64 => 8,
        }
    }
}

/// An instruction with its operand.
#[derive(Clone, Copy, Debug, PartialEq, Eq)]
pub enum Instruction {
    /// `a b ⇒ c`
    Binary(Binary),
    /// `a ⇒ b`
    Unary(Unary),
    /// `ref8` to `ref64`: `address ⇒ a`, the number in storage from there on.
    Ref(Width),
    /// `const8` to `const64`: `⇒ n`
    Const(u64),
    /// `reg`: `⇒ a`, the word of the register of this number.
    Reg(u16),
    /// `pick`: `a .. b ⇒ a .. b a`, the value that so many stand above. `dup` is `pick 0`.
    Pick(u8),
    /// `pop`: `a ⇒`
    Pop,
    /// `swap`: `a b ⇒ b a`
    Swap,
    /// `rot`: `a b c ⇒ c a b`
    Rot,
    /// `if_goto`: `a ⇒`, and on at this offset if `a` is not zero.
    IfGoto(u16),
    /// `goto`: on at this offset.
    Goto(u16),
    /// `end`: the top of the stack is the value of the expression.
    End,
}

impl Instruction {
    /// The offset that it may go on at, if it is a jump.
    pub(crate) fn jump(self) -> Option<u16>
        ensures { result ≡ jump_of self }
    {
        match self {
            Instruction::IfGoto(to) | Instruction::Goto(to) => Some(to),
            _ => None,
        }
    }
}

/// An instruction, and the offset of its code in bytes from the beginning of the expression.
#[derive(Clone, Copy, Debug, PartialEq, Eq)]
pub struct Placed {
    /// The offset.
    pub at: u16,
    /// The instruction.
    pub instruction: Instruction,
}
