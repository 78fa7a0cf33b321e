//! The fetch of an instruction. Source: GA22-6821, "System Structure", program execution.
ghost use Rattle.std.specs.Prelude.{◌≡◌, ◌<◌, ◌≤◌, ◌+◌, None, Some, IfErr, IfOk, OnOk, length, slice_index};
ghost use Rattle.s360_fixed.specs.{Fetching.instruction_bytes, Fetching.length_at, ProgramCodes.program_code, Table.instruction_length};
ghost use Rattle.s360_logic.specs.Instruction.{conditions_at};
ghost use Rattle.s360_machine.specs.Machine.{seen};
ghost use Rattle.s360_footprint.specs.InstructionRows.{fetch_conditions_read};
ghost use Rattle.s360_footprint.specs.OperandReadings.{profile_of};
ghost use Rattle.s360_footprint.specs.Readings.{places_read};
ghost use Rattle.s360_source.specs.Walks.{with_decided};

use crate::access::keys_looked_at;
use crate::location::Location;
use crate::part::Part;
use crate::question::Question;
use s360_fixed::{ProgramCode, fetch_instruction, length_of};
use s360_machine::Machine;
use s360_store::{Access, Checked, Place};
use std::alloc::AllocError;

/// The bytes of the instruction at an address, or what keeps it from being fetched.
pub(crate) fn fetch(machine: &Machine, address: Location) -> Result<&[u8], ProgramCode>
    ensures refused { IfErr result (λ code. program_code (conditions_at machine.now.whole.core address) ≡ Some code) }
    ensures none { OnOk result (program_code (conditions_at machine.now.whole.core address) ≡ None) }
    ensures begun { IfOk result (λ bytes. 0 < length bytes.now) }
    ensures whole { IfOk result (λ bytes. length bytes.now ≡ instruction_length (slice_index bytes.now 0)) }
    ensures length { IfOk result (λ bytes. length bytes.now ≡ length_at machine.now.whole.core.storage address) }
    ensures inside { IfOk result (λ bytes. address + length bytes.now ≤ length machine.now.whole.core.storage.bytes) }
    ensures bytes { IfOk result (λ bytes. bytes.now ≡ instruction_bytes machine.now.whole.core.storage address) }
{
    let key = machine.psw().protection_key();
    fetch_instruction(machine.storage(), address.number(), key)
}

/// Walks over the conditions of the fetch of an instruction: its first halfword is looked at before the whole.
pub(crate) fn push_fetch_conditions(
    question: Question,
    found: &mut Vec<Place>,
    machine: &Machine,
    address: Location,
) -> Result<(), AllocError>
    ensures { OnOk result (found.new.items ≡ with_decided question
        (places_read (fetch_conditions_read (profile_of machine.now.whole.core) address) (seen machine.now.whole)) found.old.items) }
{
    let halfword = keys_looked_at(machine, address, 2, Access::Fetch);
    question.decide(found, &[Part::Place(Place::Psw), halfword])?;
    let (storage, key) = (machine.storage(), machine.psw().protection_key());
    match storage.check(address.number(), 2, Access::Fetch, key) {
        Checked::Clear => {
            let count = u16::from(length_of(storage.byte(address.number())));
            let whole = keys_looked_at(machine, address, count, Access::Fetch);
            question.decide(found, &[Part::Bytes(address, 1), whole])?;
            Ok(())
        }
        Checked::Addressing | Checked::Protection => Ok(()),
    }
}
