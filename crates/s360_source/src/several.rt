//! STORE MULTIPLE and LOAD MULTIPLE. Source: GA22-6821, "Fixed-Point Arithmetic".
ghost use Rattle.std.specs.Prelude.{◌≡◌, ◌≤◌, ◌+◌, ◌*◌, ◌%◌, ◌^◌, ◌<◌, ℕ, OnOk};
ghost use Rattle.s360_fixed.specs.Storing.{register_count};
ghost use Rattle.s360_machine.specs.Machine.{Machine as SeenMachine, seen};
ghost use Rattle.s360_footprint.specs.OperandReadings.{profile_of};
ghost use Rattle.s360_source.specs.Several.{moved_registers, moved_walk, several_row};
ghost use Rattle.s360_source.specs.Walks.{walked, with_stores_of};

use crate::access::push_conditions;
use crate::location::Location;
use crate::part::Part;
use crate::question::Question;
use s360_machine::Machine;
use s360_store::{Access, GREATEST_SIZE, Place};
use s360_word::RegisterNumber;
use std::alloc::AllocError;

/// How many registers there are from R1 up to R3, 15 followed by 0.
pub(crate) fn register_count(r1: RegisterNumber, r3: RegisterNumber) -> u16
    ensures count { result ≡ register_count r1 r3 }
    ensures few { result ≤ 16 }
{
    u16::from((r3.number() + 16 - r1.number()) % 16) + 1
}

/// Follows the register of a number after R1, which is stored at a word or loaded from it.
fn push_moved_word(
    question: Question,
    found: &mut Vec<Place>,
    r1: RegisterNumber,
    i: u16,
    address: Location,
    kind: Access,
) -> Result<(), AllocError>
    requires few { i ≤ 16 }
    requires inside { address + 4 * i < 2 ^ 24 }
    ensures { OnOk result (found.new.items ≡ moved_walk question kind ((r1 + i) % 16) (address + 4 * i) found.old.items) }
{
    let register = Place::Register(((u16::from(r1.number()) + i) % 16) as u8);
    let word = Location::new(address.number() + 4 * u32::from(i));
    match kind {
        Access::Store => question.store_bytes(found, word, 4, &[Part::Place(register)]),
        Access::Fetch => question.store(found, register, &[Part::Bytes(word, 4)]),
    }
}

/// Follows so many registers from R1 on that are stored at successive words, or loaded from them.
fn push_moved(
    question: Question,
    found: &mut Vec<Place>,
    r1: RegisterNumber,
    count: u16,
    address: Location,
    kind: Access,
) -> Result<(), AllocError>
    requires few { count ≤ 16 }
    requires inside { address + 4 * count ≤ 2 ^ 24 }
    ensures { (m : SeenMachine) → OnOk result (found.new.items ≡ with_stores_of question m (moved_registers kind r1 address count) found.old.items) }
{
    for i in 0..count {
        push_moved_word(question, found, r1, i, address, kind)?;
    }
    Ok(())
}

/// Walks over a store or a load of so many registers from R1 on.
pub(crate) fn push_several(
    question: Question,
    found: &mut Vec<Place>,
    machine: &Machine,
    r1: RegisterNumber,
    count: u16,
    address: Location,
    kind: Access,
) -> Result<(), AllocError>
    requires { count ≤ 16 }
    ensures { (next : ℕ) → OnOk result (found.new.items ≡ walked question (several_row (profile_of machine.now.whole.core) r1 count address kind next)
        (seen machine.now.whole) found.old.items) }
{
    match push_conditions(question, found, machine, address, 4, 4 * count, kind)? {
        Some(_) => Ok(()),
        None => {
            prove!(machine.storage().size() <= GREATEST_SIZE);
            push_moved(question, found, r1, count, address, kind)?;
            question.store_psw(found, &[])?;
            Ok(())
        }
    }
}
