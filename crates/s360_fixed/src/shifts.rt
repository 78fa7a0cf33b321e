//! Shifts of a register or of a pair. Source: GA22-6821, "Fixed-Point Arithmetic" and "Logical
//! Operations".
ghost use Rattle.std.specs.Prelude.{◌≡◌, ◌<◌, IfOk, None, Some};
ghost use Rattle.s360_fixed.specs.Shifting.{pair_shift_outcome, shift_outcome, shifted_word, shifted_words};
ghost use Rattle.s360_fixed.specs.Plans.{PutsNothing, PutsOutcome};

use crate::effect::Effect;
use crate::ended::Ended;
use crate::program_code::ProgramCode;
use crate::registers::odd_partner;
use crate::row::Shift;
use crate::setting::CodeSetting;
use crate::view::View;
use s360_store::Puts;
use s360_word::{
    RegisterNumber, Word, shift_left, shift_left_double, shift_logical_left,
    shift_logical_left_double, shift_logical_right, shift_logical_right_double, shift_right,
    shift_right_double,
};
use std::alloc::AllocError;

/// A word shifted by a count of 0 to 63.
#[inline(always)]
fn shifted(shift: Shift, word: Word, count: u8) -> Effect
    requires count { count < 64 }
    ensures word { result.first ≡ Some (shifted_word shift word count).0 }
    ensures single { result.second ≡ None }
    ensures setting { result.setting ≡ (shifted_word shift word count).1 }
{
    match shift {
        Shift::LeftLogical => Effect::single(
            shift_logical_left(word, count),
            CodeSetting::unchanged(),
        ),
        Shift::RightLogical => Effect::single(
            shift_logical_right(word, count),
            CodeSetting::unchanged(),
        ),
        Shift::Left => {
            let (word, code) = shift_left(word, count);
            Effect::single(word, CodeSetting::by_signed(code))
        }
        Shift::Right => {
            let (word, code) = shift_right(word, count);
            Effect::single(word, CodeSetting::to(code))
        }
    }
}

/// Puts a shift of R1 by the low six bits of the address.
#[inline(always)]
pub fn put_shift<P: Puts>(
    view: &View,
    shift: Shift,
    r1: RegisterNumber,
    address: u32,
    puts: &mut P,
) -> Result<Ended, AllocError>
    requires none { PutsNothing P.Puts puts.old view.now }
    ensures { IfOk result (PutsOutcome P.Puts puts.new view.now (shift_outcome shift view.now r1 address)) }
{
    let count = (address % 64) as u8;
    shifted(shift, view.register(r1), count).put_next(view, r1, puts)
}

/// A pair of words shifted by a count of 0 to 63.
fn pair_shifted(shift: Shift, high: Word, low: Word, count: u8) -> Effect
    requires count { count < 64 }
    ensures first { result.first ≡ Some (shifted_words shift high low count).0.0 }
    ensures second { result.second ≡ Some (shifted_words shift high low count).0.1 }
    ensures setting { result.setting ≡ (shifted_words shift high low count).1 }
{
    match shift {
        Shift::LeftLogical => {
            Effect::double(
                shift_logical_left_double(high, low, count),
                CodeSetting::unchanged(),
            )
        }
        Shift::RightLogical => {
            Effect::double(
                shift_logical_right_double(high, low, count),
                CodeSetting::unchanged(),
            )
        }
        Shift::Left => {
            let (words, code) = shift_left_double(high, low, count);
            Effect::double(words, CodeSetting::by_signed(code))
        }
        Shift::Right => {
            let (words, code) = shift_right_double(high, low, count);
            Effect::double(words, CodeSetting::to(code))
        }
    }
}

/// Puts a shift of the pair R1, R1 + 1 by the low six bits of the address.
pub fn put_pair_shift<P: Puts>(
    view: &View,
    shift: Shift,
    r1: RegisterNumber,
    address: u32,
    puts: &mut P,
) -> Result<Ended, AllocError>
    requires none { PutsNothing P.Puts puts.old view.now }
    ensures { IfOk result (PutsOutcome P.Puts puts.new view.now (pair_shift_outcome shift view.now r1 address)) }
{
    let Some(next) = odd_partner(r1) else {
        return Ok(Ended::Program(ProgramCode::Specification));
    };
    let count = (address % 64) as u8;
    pair_shifted(shift, view.register(r1), view.register(next), count).put_next(view, r1, puts)
}
