//! Instructions that make something of the pair R1, R1 + 1 and a second operand, which is a word. Source: GA22-6821,
//! "Fixed-Point Arithmetic".
ghost use Rattle.std.specs.Prelude.{◌≡◌, ◌<◌, ◌+◌, ℕ, IfNone, OnOk, is_some, slice_index, if◌then◌else◌, Some};
ghost use Rattle.s360_fixed.specs.Outcomes.{is_odd, pair_result};
ghost use Rattle.s360_fixed.specs.declared.program_code.ProgramCode.TheVariants.{Specification};
ghost use Rattle.s360_fixed.specs.declared.row.PairCombination.TheVariants.{Quotient};
ghost use Rattle.s360_machine.specs.Machine.{seen};
ghost use Rattle.s360_footprint.specs.OperandReadings.{profile_of};
ghost use Rattle.s360_footprint.specs.RegisterRows.{pair_row};
ghost use Rattle.s360_source.specs.Parts.{places_of_parts};
ghost use Rattle.s360_source.specs.Seconds.{IsInside, IsOfWord, pair_done, second_reading};
ghost use Rattle.s360_source.specs.Walks.{pair_walk, walked};

use crate::altering::{Computed, push_computed};
use crate::part::Part;
use crate::question::Question;
use crate::second::Second;
use s360_fixed::{PairCombination, ProgramCode};
use s360_machine::Machine;
use s360_store::Place;
use s360_word::{RegisterNumber, Word, divide};
use std::alloc::AllocError;

/// Whether the number of a register is odd.
pub(crate) fn is_odd(register: RegisterNumber) -> bool
    ensures { result ≡ is_odd register }
{
    register.number() % 2 == 1
}

/// What keeps an instruction from being done whose second operand meets this: a pair begins with an even register.
fn pair_exception(r1: RegisterNumber, met: Option<ProgramCode>) -> Option<ProgramCode>
    ensures code { result ≡ (if is_odd r1 then Some Specification else met) }
    ensures pair { IfNone result (r1 + 1 < 16) }
{
    if is_odd(r1) {
        Some(ProgramCode::Specification)
    } else {
        met
    }
}

/// Whether the pair can be divided by a word.
fn has_quotient(machine: &Machine, r1: RegisterNumber, divisor: Word) -> bool
    requires { r1 + 1 < 16 }
    ensures { result ≡ is_some (pair_result Quotient (slice_index machine.now.whole.core.registers r1)
        (slice_index machine.now.whole.core.registers (r1 + 1)) divisor) }
{
    let next = RegisterNumber::new(r1.number() + 1);
    divide(machine.register(r1), machine.register(next), divisor).is_some()
}

/// Walks over a pair of registers that is made of these words.
fn push_pair_of(
    question: Question,
    found: &mut Vec<Place>,
    machine: &Machine,
    r1: RegisterNumber,
    words: &[Part],
) -> Result<(), AllocError>
    ensures { OnOk result (found.new.items ≡ pair_walk question machine.now.whole.core.psw r1 (places_of_parts words.now) found.old.items) }
{
    let computed = Computed {
        registers: &[
            Place::Register(r1.number()),
            Place::Register(r1.number() + 1),
        ],
        words,
        may_overflow: false,
        sets_code: false,
    };
    push_computed(question, found, machine, &computed)
}

/// Walks over a division by a word that can be used, which is not done if there is no quotient.
fn push_quotient(
    question: Question,
    found: &mut Vec<Place>,
    machine: &Machine,
    r1: RegisterNumber,
    second: &Second,
) -> Result<(), AllocError>
    requires pair { r1 + 1 < 16 }
    requires word { IsOfWord second.now }
    requires inside { IsInside machine.now.whole.core second.now }
    ensures { (next : ℕ) → OnOk result (found.new.items ≡ walked question
        (pair_done Quotient r1 (second_reading (profile_of machine.now.whole.core) second.now).value next) (seen machine.now.whole) found.old.items) }
{
    let number = r1.number();
    let low = Part::Place(Place::Register(number + 1));
    let words = [Part::Place(Place::Register(number)), low, second.part()];
    question.decide(found, &words)?;
    if has_quotient(machine, r1, second.word(machine)) {
        push_pair_of(question, found, machine, r1, &words)?;
        return Ok(());
    }
    Ok(())
}

/// Walks over a combination of the pair R1, R1 + 1 and a second operand.
pub(crate) fn push_pair(
    question: Question,
    found: &mut Vec<Place>,
    machine: &Machine,
    pair: PairCombination,
    r1: RegisterNumber,
    second: &Second,
) -> Result<(), AllocError>
    requires { IsOfWord second.now }
    ensures { (next : ℕ) → OnOk result (found.new.items ≡ walked question
        (pair_row pair r1 (second_reading (profile_of machine.now.whole.core) second.now) next) (seen machine.now.whole) found.old.items) }
{
    let met = second.push_conditions(question, found, machine)?;
    match (pair_exception(r1, met), pair) {
        (Some(_), _) => Ok(()),
        (None, PairCombination::Product) => {
            let low = Part::Place(Place::Register(r1.number() + 1));
            push_pair_of(question, found, machine, r1, &[low, second.part()])?;
            Ok(())
        }
        (None, PairCombination::Quotient) => {
            push_quotient(question, found, machine, r1, second)?;
            Ok(())
        }
    }
}
