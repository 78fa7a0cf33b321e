//! How the machine stands: its units, and what it does next.
ghost use Rattle.std.specs.Prelude.{◌≡◌, ◌++◌, IfOk, OnErr, OnOk};
ghost use Rattle.s360_journal.specs.Recorded.{with_standing};
ghost use Rattle.s360_machine.specs.Machine.{seen};
ghost use Rattle.s360_inquiry.specs.Situations.{next_text, pending_lines, pending_text, unit_and_device, units_text};
ghost use Rattle.s360_inquiry.specs.Situations.{where_text};

use crate::going::{go_to, text_of_standing};
use crate::happening::push_cpu;
use crate::interruption::push_last_interruption;
use crate::unit::is_pending;
use s360_journal::Session;
use s360_language::{Shown, push_shown, push_value};
use s360_machine::{ConfiguredUnit, Machine};
use s360_store::Place;
use s360_text::Text;
use std::alloc::{AllocError, Global};

/// A line for each unit of a machine: what the channel does for it, its sense, and its media in numbers.
pub(crate) fn units_of(alloc: Global, machine: &Machine) -> Result<Text, AllocError>
    ensures { IfOk result (λ text. text ≡ units_text (seen machine.now.whole)) }
{
    let mut text = Text::new(alloc);
    for unit in ConfiguredUnit::ALL.iter() {
        push_unit(&mut text, machine, *unit)?;
    }
    Ok(text)
}

/// Adds the line of a unit.
fn push_unit(text: &mut Text, machine: &Machine, unit: ConfiguredUnit) -> Result<(), AllocError>
    ensures { OnOk result (text.new ≡ text.old ++ unit_and_device (seen machine.now.whole) unit) }
{
    text.push_hex(u64::from(unit.unit().address()), 3)?;
    push_value(text, machine, Place::UnitState(unit.unit()))?;
    push_value(text, machine, Place::UnitMedia(unit.unit()))?;
    text.push_text("\n")?;
    Ok(())
}

/// How far the recording stands, the last interruption, the PSW and the run state, what the CPU does next, and what is pending.
/// The recording stands where it stood; want of memory leaves it at some change.
pub(crate) fn where_of(alloc: Global, recording: &mut Session) -> Result<Text, AllocError>
    ensures text { IfOk result (λ text. text ≡ where_text recording.old) }
    ensures state { OnOk result (recording.new ≡ recording.old) }
    ensures memory { OnErr result (recording.new ≡ with_standing recording.old recording.new.standing) }
{
    let standing = recording.standing();
    let mut text = text_of_standing(alloc, recording)?;
    push_last_interruption(alloc, &mut text, recording)?;
    go_to(recording, standing)?;
    push_next(&mut text, recording.machine())?;
    Ok(text)
}

/// Adds the PSW and the run state, what the CPU does next, and what is pending.
fn push_next(text: &mut Text, machine: &Machine) -> Result<(), AllocError>
    ensures { OnOk result (text.new ≡ text.old ++ next_text (seen machine.now.whole)) }
{
    push_shown(text, machine, Shown::Psw)?;
    push_cpu(text, machine)?;
    text.push_text("\n")?;
    push_shown(text, machine, Shown::External)?;
    push_pending(text, machine)?;
    Ok(())
}

/// Adds a line for each unit with a condition for an interruption.
fn push_pending(text: &mut Text, machine: &Machine) -> Result<(), AllocError>
    ensures { OnOk result (text.new ≡ text.old ++ pending_lines (seen machine.now.whole)) }
{
    for unit in ConfiguredUnit::ALL.iter() {
        push_if_pending(text, machine, *unit)?;
    }
    Ok(())
}

/// Adds the line of a unit, if it has such a condition.
fn push_if_pending(
    text: &mut Text,
    machine: &Machine,
    unit: ConfiguredUnit,
) -> Result<(), AllocError>
    ensures { OnOk result (text.new ≡ text.old ++ pending_text (seen machine.now.whole) unit) }
{
    if !is_pending(machine, unit) {
        return Ok(());
    }
    push_shown(text, machine, Shown::UnitState(unit.unit()))
}
