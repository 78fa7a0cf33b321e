//! Shifts. Source: GA22-6821, "Fixed-Point Arithmetic" and "Logical Operations".
ghost use Rattle.std.specs.Prelude.{◌≡◌, ℕ, OnOk};
ghost use Rattle.s360_machine.specs.Machine.{seen};
ghost use Rattle.s360_footprint.specs.RegisterRows.{is_signed_shift, pair_shift_row, shift_may_overflow, shift_row};
ghost use Rattle.s360_source.specs.Parts.{places_of_parts};
ghost use Rattle.s360_source.specs.Walks.{computed_walk, walked};

use crate::altering::{Computed, push_computed};
use crate::pair::is_odd;
use crate::part::Part;
use crate::question::Question;
use s360_fixed::Shift;
use s360_machine::Machine;
use s360_store::Place;
use s360_word::RegisterNumber;
use std::alloc::AllocError;

/// Whether a shift sets the condition code.
fn is_signed_shift(shift: Shift) -> bool
    ensures { result ≡ is_signed_shift shift }
{
    matches!(shift, Shift::Left | Shift::Right)
}

/// Whether it may overflow.
fn shift_may_overflow(shift: Shift) -> bool
    ensures { result ≡ shift_may_overflow shift }
{
    matches!(shift, Shift::Left)
}

/// Walks over a shift of registers, which are made of these words.
fn push_shifted(
    question: Question,
    found: &mut Vec<Place>,
    machine: &Machine,
    shift: Shift,
    registers: &[Place],
    words: &[Part],
) -> Result<(), AllocError>
    ensures { OnOk result (found.new.items ≡ computed_walk question machine.now.whole.core.psw (shift_may_overflow shift) (is_signed_shift shift)
        registers.now (places_of_parts words.now) found.old.items) }
{
    let computed = Computed {
        registers,
        words,
        may_overflow: shift_may_overflow(shift),
        sets_code: is_signed_shift(shift),
    };
    push_computed(question, found, machine, &computed)
}

/// Walks over a shift of R1.
pub(crate) fn push_shift(
    question: Question,
    found: &mut Vec<Place>,
    machine: &Machine,
    shift: Shift,
    r1: RegisterNumber,
) -> Result<(), AllocError>
    ensures { (address : ℕ) → (next : ℕ) → OnOk result (found.new.items ≡ walked question (shift_row shift r1 address next)
        (seen machine.now.whole) found.old.items) }
{
    let register = Place::Register(r1.number());
    push_shifted(
        question,
        found,
        machine,
        shift,
        &[register],
        &[Part::Place(register)],
    )?;
    Ok(())
}

/// Walks over a shift of the pair R1, R1 + 1.
pub(crate) fn push_pair_shift(
    question: Question,
    found: &mut Vec<Place>,
    machine: &Machine,
    shift: Shift,
    r1: RegisterNumber,
) -> Result<(), AllocError>
    ensures { (address : ℕ) → (next : ℕ) → OnOk result (found.new.items ≡ walked question (pair_shift_row shift r1 address next)
        (seen machine.now.whole) found.old.items) }
{
    if is_odd(r1) {
        return Ok(());
    }
    let number = r1.number();
    let (first, next) = (Place::Register(number), Place::Register(number + 1));
    push_shifted(
        question,
        found,
        machine,
        shift,
        &[first, next],
        &[Part::Place(first), Part::Place(next)],
    )?;
    Ok(())
}
