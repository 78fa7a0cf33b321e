//! What an instruction makes of the condition code.
ghost use Rattle.std.specs.Prelude.{◌≡◌};
ghost use Rattle.s360_fixed.specs.Alterations.{ended_by, psw_with, set_by_signed, set_to, unchanged};

use crate::ended::Ended;
use crate::program_code::ProgramCode;
use s360_psw::Psw;
use s360_word::Cc;

/// What an instruction makes of the condition code.
#[derive(Clone, Copy)]
pub struct CodeSetting {
    /// What it is set to, if it is set.
    pub code: Option<Cc>,
    /// Whether a result overflows, which interrupts where the mask of overflows is one.
    pub overflow: bool,
}

/// The PSW with a condition code, if one is set.
pub fn psw_with(code: Option<Cc>, psw: Psw) -> Psw
    ensures { result ≡ psw_with code psw }
{
    match code {
        Some(code) => psw.with_condition_code(code),
        None => psw,
    }
}

impl CodeSetting {
    /// It stays.
    #[inline(always)]
    pub const fn unchanged() -> CodeSetting
        ensures { result ≡ unchanged }
    {
        CodeSetting {
            code: None,
            overflow: false,
        }
    }

    /// It is set.
    #[inline(always)]
    pub fn to(code: Cc) -> CodeSetting
        ensures { result ≡ set_to code }
    {
        CodeSetting {
            code: Some(code),
            overflow: false,
        }
    }

    /// It is set by a signed result, of which code 3 is an overflow.
    #[inline(always)]
    pub fn by_signed(code: Cc) -> CodeSetting
        ensures { result ≡ set_by_signed code }
    {
        CodeSetting {
            code: Some(code),
            overflow: code.code() == 3,
        }
    }

    /// How an instruction ends that is completed.
    pub fn ended(self, psw: Psw) -> Ended
        ensures { result ≡ ended_by self psw }
    {
        if self.overflow && psw.fixed_point_overflow_mask() {
            Ended::Program(ProgramCode::FixedPointOverflow)
        } else {
            Ended::Done
        }
    }
}
