//! TRANSLATE, and TRANSLATE AND TEST. Source: GA22-6821, "Logical Operations".
ghost use Rattle.std.specs.Prelude.{◌≡◌, ◌≤◌, ◌++◌, ℕ, IfOk, OnOk};
ghost use Rattle.s360_fixed.specs.ProgramCodes.{program_code};
ghost use Rattle.s360_machine.specs.Machine.{seen};
ghost use Rattle.s360_model.specs.Psw.{protection_key_of};
ghost use Rattle.s360_footprint.specs.LeftToRightRows.{search_conditions_read, search_met, search_read, translate_and_test_row, translate_conditions_read};
ghost use Rattle.s360_footprint.specs.LeftToRightRows.{translate_met, translate_row};
ghost use Rattle.s360_footprint.specs.OperandReadings.{profile_of};
ghost use Rattle.s360_footprint.specs.Readings.{places_read, run};
ghost use Rattle.s360_source.specs.Made.{selecting_met};
ghost use Rattle.s360_source.specs.Walks.{walked, with_decided};

use crate::access::keys_looked_at;
use crate::fields::check;
use crate::left_to_right::{ByteRow, MadeBytes, function_address};
use crate::location::Location;
use crate::part::Part;
use crate::question::Question;
use s360_fixed::ProgramCode;
use s360_machine::Machine;
use s360_store::{Access, Checked, Place};
use std::alloc::AllocError;

/// Walks over the fetch of the function byte that the byte at an address selects, and returns what it meets.
pub(crate) fn push_function_met(
    question: Question,
    found: &mut Vec<Place>,
    machine: &Machine,
    table: Location,
    at: u32,
) -> Result<Checked, AllocError>
    ensures met { IfOk result (λ met. met ≡ run (selecting_met (profile_of machine.now.whole.core) table (protection_key_of machine.now.whole.core.psw) at)
        (seen machine.now.whole)) }
    ensures read { OnOk result (found.new.items ≡ with_decided question
        (places_read (selecting_met (profile_of machine.now.whole.core) table (protection_key_of machine.now.whole.core.psw) at) (seen machine.now.whole))
        found.old.items) }
{
    let selected = function_address(machine, table, at);
    let keys = keys_looked_at(machine, selected, 1, Access::Fetch);
    question.decide(found, &[Part::Place(Place::Byte(at)), keys])?;
    Ok(check(machine, selected, 1, Access::Fetch))
}

/// Walks over the fetches of the function bytes that so many bytes select, and returns what they meet.
fn push_functions_met(
    question: Question,
    found: &mut Vec<Place>,
    machine: &Machine,
    first: Location,
    table: Location,
    count: u16,
) -> Result<Checked, AllocError>
    ensures met { IfOk result (λ met. met ≡ run (translate_met (profile_of machine.now.whole.core) table
        (protection_key_of machine.now.whole.core.psw) first 0 count)
        (seen machine.now.whole)) }
    ensures read { OnOk result (found.new.items ≡ with_decided question
        (places_read (translate_met (profile_of machine.now.whole.core) table (protection_key_of machine.now.whole.core.psw) first 0 count)
        (seen machine.now.whole))
        found.old.items) }
{
    let mut met = Checked::Clear;
    for i in 0..u32::from(count) {
        let one = push_function_met(question, found, machine, table, first.number() + i)?;
        met = met.and(one);
    }
    Ok(met)
}

/// Walks over a translation of so many bytes.
pub(crate) fn push_translate(
    question: Question,
    found: &mut Vec<Place>,
    machine: &Machine,
    first: Location,
    table: Location,
    count: u16,
) -> Result<(), AllocError>
    ensures { (next : ℕ) → OnOk result (found.new.items ≡ walked question (translate_row (profile_of machine.now.whole.core) first table count next)
        (seen machine.now.whole) found.old.items) }
{
    let keys = keys_looked_at(machine, first, count, Access::Store);
    question.decide(found, &[Part::Place(Place::Psw), keys])?;
    let met = check(machine, first, count, Access::Store);
    let functions = push_functions_met(question, found, machine, first, table, count)?;
    match ProgramCode::of_access(met.and(functions)) {
        Some(_) => Ok(()),
        None => {
            let made = MadeBytes {
                row: ByteRow::Translated,
                first,
                second: table,
            };
            made.push_made(question, found, machine, count)?;
            Ok(())
        }
    }
}
