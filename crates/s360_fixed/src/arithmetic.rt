//! What instructions with a first operand in a register and a second operand make of the two.
//! Source: GA22-6821, "Fixed-Point Arithmetic" and "Logical Operations".
ghost use Rattle.std.specs.Prelude.{◌≡◌, IfOk, None, Some};
ghost use Rattle.s360_fixed.specs.Plans.{PutsNothing, PutsOutcome};
ghost use Rattle.s360_fixed.specs.Outcomes.{combination_outcome, pair_outcome};
ghost use Rattle.s360_fixed.specs.Alterations.{set_by_signed, set_to};
ghost use Rattle.s360_fixed.specs.Operands.{word_operand};
ghost use Rattle.s360_model.specs.ConditionCodes.{bits_code};
ghost use Rattle.s360_fixed.specs.Rows.{result_of};
ghost use Rattle.s360_fixed.specs.declared.row.PairCombination.TheVariants.{Product, Quotient};

use crate::effect::Effect;
use crate::ended::Ended;
use crate::program_code::ProgramCode;
use crate::registers::odd_partner;
use crate::row::{Combination, PairCombination};
use crate::setting::CodeSetting;
use crate::view::View;
use s360_store::Puts;
use s360_word::{
    Cc, RegisterNumber, Word, absolute, add_logical, add_signed, bits_condition, compare_logical,
    compare_signed, complement, divide, multiply, negative_absolute, sub_logical, sub_signed, test,
};
use std::alloc::AllocError;

/// A word, with a condition code of which 3 is an overflow.
fn signed(outcome: (Word, Cc)) -> Effect
    ensures { result ≡ record { first = Some outcome.0; second = None; setting = set_by_signed outcome.1 } }
{
    Effect::single(outcome.0, CodeSetting::by_signed(outcome.1))
}

/// A word and its condition code.
fn coded(outcome: (Word, Cc)) -> Effect
    ensures { result ≡ record { first = Some outcome.0; second = None; setting = set_to outcome.1 } }
{
    Effect::single(outcome.0, CodeSetting::to(outcome.1))
}

/// A word, and the condition code of its bits.
fn bits(word: Word) -> Effect
    ensures { result ≡ record { first = Some word; second = None; setting = set_to (bits_code word) } }
{
    Effect::single(word, CodeSetting::to(bits_condition(word)))
}

/// What is made of the word in R1 and the second operand.
#[inline(always)]
fn effect_on(combination: Combination, first: Word, second: Word) -> Effect
    ensures made { (result.first, result.setting) ≡ result_of combination first second }
    ensures single { result.second ≡ None }
{
    match combination {
        Combination::Second => Effect::single(second, CodeSetting::unchanged()),
        Combination::InsertedCharacter => {
            Effect::single(first / 256 * 256 + second % 256, CodeSetting::unchanged())
        }
        Combination::Tested => Effect::single(second, CodeSetting::to(test(second))),
        Combination::Complement => signed(complement(second)),
        Combination::Absolute => signed(absolute(second)),
        Combination::NegativeAbsolute => coded(negative_absolute(second)),
        Combination::Sum => signed(add_signed(first, second)),
        Combination::Difference => signed(sub_signed(first, second)),
        Combination::LogicalSum => coded(add_logical(first, second)),
        Combination::LogicalDifference => coded(sub_logical(first, second)),
        Combination::Comparison => Effect::code(compare_signed(first, second)),
        Combination::LogicalComparison => Effect::code(compare_logical(first, second)),
        Combination::BitwiseAnd => bits(first & second),
        Combination::BitwiseOr => bits(first | second),
        Combination::BitwiseExclusiveOr => bits(first ^ second),
        Combination::LowProduct => Effect::single(
            multiply(first, second).1,
            CodeSetting::unchanged(),
        ),
    }
}

/// Puts what is made of R1 and a second operand that can be used.
#[inline(always)]
pub fn put_combined<P: Puts>(
    view: &View,
    combination: Combination,
    r1: RegisterNumber,
    second: Word,
    puts: &mut P,
) -> Result<Ended, AllocError>
    requires none { PutsNothing P.Puts puts.old view.now }
    ensures { IfOk result (PutsOutcome P.Puts puts.new view.now (combination_outcome combination view.now r1 (word_operand second))) }
{
    effect_on(combination, view.register(r1), second).put_next(view, r1, puts)
}

/// Puts the product of the register after R1 and the second operand, for the pair.
fn put_product<P: Puts>(
    view: &View,
    r1: RegisterNumber,
    second: Word,
    puts: &mut P,
) -> Result<Ended, AllocError>
    requires none { PutsNothing P.Puts puts.old view.now }
    ensures { IfOk result (PutsOutcome P.Puts puts.new view.now (pair_outcome Product view.now r1 (word_operand second))) }
{
    let Some(next) = odd_partner(r1) else {
        return Ok(Ended::Program(ProgramCode::Specification));
    };
    let words = multiply(view.register(next), second);
    Effect::double(words, CodeSetting::unchanged()).put_next(view, r1, puts)
}

/// Puts the division of the pair by the second operand: the remainder for R1, the quotient for the
/// register after it.
fn put_quotient<P: Puts>(
    view: &View,
    r1: RegisterNumber,
    second: Word,
    puts: &mut P,
) -> Result<Ended, AllocError>
    requires none { PutsNothing P.Puts puts.old view.now }
    ensures { IfOk result (PutsOutcome P.Puts puts.new view.now (pair_outcome Quotient view.now r1 (word_operand second))) }
{
    let Some(next) = odd_partner(r1) else {
        return Ok(Ended::Program(ProgramCode::Specification));
    };
    match divide(view.register(r1), view.register(next), second) {
        Some((quotient, remainder)) => {
            Effect::double((remainder, quotient), CodeSetting::unchanged()).put_next(view, r1, puts)
        }
        None => Ok(Ended::Program(ProgramCode::FixedPointDivide)),
    }
}

/// Puts what is made of the pair and a second operand that can be used.
pub fn put_pair<P: Puts>(
    view: &View,
    pair: PairCombination,
    r1: RegisterNumber,
    second: Word,
    puts: &mut P,
) -> Result<Ended, AllocError>
    requires none { PutsNothing P.Puts puts.old view.now }
    ensures { IfOk result (PutsOutcome P.Puts puts.new view.now (pair_outcome pair view.now r1 (word_operand second))) }
{
    match pair {
        PairCombination::Product => put_product(view, r1, second, puts),
        PairCombination::Quotient => put_quotient(view, r1, second, puts),
    }
}
