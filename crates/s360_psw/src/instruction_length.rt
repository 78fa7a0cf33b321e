//! The length of an instruction, as a stored PSW tells it. Source: GA22-6821, "Interruptions",
//! instruction length code.
ghost use Rattle.std.specs.Prelude.{◌≡◌, ◌<◌};
ghost use Rattle.s360_psw.specs.InstructionLength.{length_code_of};

/// The length of the instruction that an interruption follows, in halfwords.
#[derive(Clone, Copy, PartialEq, Eq)]
pub enum InstructionLength {
    /// No instruction, or none that could be fetched whole: code 0.
    NotAvailable,
    /// 2 bytes: code 1.
    OneHalfword,
    /// 4 bytes: code 2.
    TwoHalfwords,
    /// 6 bytes: code 3.
    ThreeHalfwords,
}

impl InstructionLength {
    /// The instruction length code: how many halfwords, 0 to 3.
    pub fn code(self) -> u8
        ensures value { result ≡ length_code_of self }
        ensures below { result < 4 }
    {
        match self {
            InstructionLength::NotAvailable => 0,
            InstructionLength::OneHalfword => 1,
            InstructionLength::TwoHalfwords => 2,
            InstructionLength::ThreeHalfwords => 3,
        }
    }
}
