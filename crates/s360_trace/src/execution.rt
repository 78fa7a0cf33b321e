//! What an event executes, as the fields of a line: an instruction or a channel command word. Source: GA22-6821, "System
//! Structure", program execution; "Input/Output Operations", channel command word.
ghost use Rattle.std.specs.Option.{option_copied};
ghost use Rattle.std.specs.Prelude.{◌≡◌, ◌++◌, OnOk};
ghost use Rattle.s360_channel.specs.ConfiguredUnits.{state_at};
ghost use Rattle.s360_machine.specs.Machine.{seen};
ghost use Rattle.s360_trace.specs.Executions.{address_of_word, cpu_fields, executed_fields, instruction_fields, mnemonic_field};
ghost use Rattle.s360_trace.specs.Executions.{program_fields, state_fields, unit_fields, word_fields, digits_of_word};

use s360_channel::{Fetched, Program, UnitState, next_ccw};
use s360_inquiry::{command_word_at, fetched_bytes, mnemonic_of};
use s360_language::push_digits;
use s360_machine::{CpuCase, EventKind, Machine};
use s360_store::Storage;
use s360_text::Text;
use s360_word::Unit;
use std::alloc::AllocError;

/// What stands where nothing is executed.
const NOTHING: &str = ",,,";

/// Adds what an event of this kind executes in a machine that it meets: the address, the digits and the mnemonic, each after
/// a comma.
#[tactic(auto, unfolding(crate::specs::Executions::executed_fields))]
pub(crate) fn push_executed(
    text: &mut Text,
    machine: &Machine,
    kind: EventKind,
) -> Result<(), AllocError>
    ensures { OnOk result (text.new ≡ text.old ++ executed_fields (seen machine.now.whole) kind) }
{
    match kind {
        EventKind::Cpu => push_cpu(text, machine),
        EventKind::Channel(unit) => push_unit(text, machine, unit),
        _ => text.push_text(NOTHING),
    }
}

/// Adds what the CPU executes, if it executes an instruction.
#[tactic(auto, unfolding(crate::specs::Executions::cpu_fields))]
fn push_cpu(text: &mut Text, machine: &Machine) -> Result<(), AllocError>
    ensures { OnOk result (text.new ≡ text.old ++ cpu_fields (seen machine.now.whole)) }
{
    match machine.cpu_case() {
        CpuCase::Executing => {
            push_instruction(text, machine.storage(), machine.psw().instruction_address())
        }
        _ => text.push_text(NOTHING),
    }
}

/// Adds the instruction at an address.
fn push_instruction(text: &mut Text, storage: &Storage, at: u32) -> Result<(), AllocError>
    ensures { OnOk result (text.new ≡ text.old ++ instruction_fields storage.now at) }
{
    text.push_numbered(",", u64::from(at), 6)?;
    if at >= storage.size() {
        return text.push_text(",,");
    }
    text.push_text(",")?;
    push_digits(text, fetched_bytes(storage, at))?;
    push_mnemonic(text, mnemonic_of(storage.byte(at)))?;
    Ok(())
}

/// Adds a mnemonic, if there is one.
fn push_mnemonic(text: &mut Text, mnemonic: Option<&str>) -> Result<(), AllocError>
    ensures { OnOk result (text.new ≡ text.old ++ mnemonic_field (option_copied mnemonic.entry)) }
{
    text.push_text(",")?;
    match mnemonic {
        Some(mnemonic) => text.push_text(mnemonic),
        None => Ok(()),
    }
}

/// Adds the command word that a unit's program executes, if the unit is there and executes one.
fn push_unit(text: &mut Text, machine: &Machine, unit: Unit) -> Result<(), AllocError>
    ensures { OnOk result (text.new ≡ text.old ++ unit_fields machine.now.whole.core.storage (state_at machine.now.whole.units unit)) }
{
    match machine.unit(unit) {
        Some(state) => push_state(text, machine.storage(), state),
        None => text.push_text(NOTHING),
    }
}

/// Adds the command word that the program of a unit executes that stands so.
fn push_state(text: &mut Text, storage: &Storage, state: &UnitState) -> Result<(), AllocError>
    ensures { OnOk result (text.new ≡ text.old ++ state_fields storage.now state.now) }
{
    match state {
        UnitState::Active(program) => push_program(text, storage, program),
        UnitState::Idle | UnitState::Waiting(_) => text.push_text(NOTHING),
    }
}

/// Adds the command word that a program executes; that with which loading begins stands nowhere.
fn push_program(text: &mut Text, storage: &Storage, program: &Program) -> Result<(), AllocError>
    ensures { OnOk result (text.new ≡ text.old ++ program_fields storage.now program.now) }
{
    if program.progress.is_loading() {
        return text.push_text(NOTHING);
    }
    push_command_word(text, storage, address_of_word(next_ccw(storage, program)))
}

/// Where the word stands that a channel found, or the last one that it looked at.
fn address_of_word(fetched: Fetched) -> u32
    ensures { result ≡ address_of_word fetched }
{
    match fetched {
        Fetched::Broken(at) | Fetched::Whole(at, _) => at,
    }
}

/// Adds the command word at an address.
fn push_command_word(text: &mut Text, storage: &Storage, at: u32) -> Result<(), AllocError>
    ensures { OnOk result (text.new ≡ text.old ++ word_fields storage.now at) }
{
    text.push_numbered(",", u64::from(at), 6)?;
    text.push_text(",")?;
    push_word(text, command_word_at(storage, at))?;
    text.push_text(",")?;
    Ok(())
}

/// Adds the digits of a command word, if there is one.
fn push_word(text: &mut Text, word: Option<u64>) -> Result<(), AllocError>
    ensures { OnOk result (text.new ≡ text.old ++ digits_of_word word) }
{
    match word {
        Some(word) => text.push_hex(word, 16),
        None => Ok(()),
    }
}
