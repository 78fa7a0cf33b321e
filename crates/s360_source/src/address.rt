//! The addresses of operands. Source: GA22-6821, "System Structure", address generation.
ghost use Rattle.std.specs.Prelude.{◌≡◌, IfOk, OnOk};
ghost use Rattle.s360_fixed.specs.Operands.{address_part, operand_address};
ghost use Rattle.s360_source.specs.Parts.{address_parts};
ghost use Rattle.s360_source.specs.Walks.{with_decided};

use crate::location::Location;
use crate::part::Part;
use crate::question::Question;
use s360_fixed::ADDRESSES;
use s360_machine::Machine;
use s360_store::Place;
use s360_word::{RegisterNumber, Word};
use std::alloc::AllocError;

/// What a base or an index register adds: nothing if it is register 0.
fn address_part(machine: &Machine, register: RegisterNumber) -> Word
    ensures { result ≡ address_part machine.now.whole.core.registers register }
{
    if register.number() == 0 {
        0
    } else {
        machine.register(register)
    }
}

/// Walks over the address that index, base and displacement make, and returns it.
pub(crate) fn push_address(
    question: Question,
    found: &mut Vec<Place>,
    machine: &Machine,
    index: RegisterNumber,
    base: RegisterNumber,
    displacement: u16,
) -> Result<Location, AllocError>
    ensures address { IfOk result (λ address. address ≡ operand_address machine.now.whole.core.registers index base displacement) }
    ensures read { OnOk result (found.new.items ≡ with_decided question (address_parts index base) found.old.items) }
{
    question.decide(found, &[Part::Address(index, base)])?;
    let sum = u64::from(address_part(machine, index))
        + u64::from(address_part(machine, base))
        + u64::from(displacement);
    Ok(Location::new((sum % u64::from(ADDRESSES)) as u32))
}

/// The same without an index.
pub(crate) fn push_based(
    question: Question,
    found: &mut Vec<Place>,
    machine: &Machine,
    base: RegisterNumber,
    displacement: u16,
) -> Result<Location, AllocError>
    ensures address { IfOk result (λ address. address ≡ operand_address machine.now.whole.core.registers 0 base displacement) }
    ensures read { OnOk result (found.new.items ≡ with_decided question (address_parts 0 base) found.old.items) }
{
    let none = RegisterNumber::new(0);
    push_address(question, found, machine, none, base, displacement)
}
