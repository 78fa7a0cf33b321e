//! What is shown of the machine. Each part has its row in `push_shown`.
ghost use Rattle.std.specs.Prelude.{◌≡◌, ◌≤◌, ◌++◌, OnOk};
ghost use Rattle.s360_channel.specs.ConfiguredUnits.{unit_at};
ghost use Rattle.s360_machine.specs.Machine.{seen};
ghost use Rattle.s360_language.specs.Shown.{key_text, psw_text, register_line, registers_text, shown_text, text_of_unit, value_line};

use crate::command::Shown;
use crate::names::push_refusal;
use crate::show_bytes::{RowForm, push_storage};
use crate::show_image::push_image;
use crate::show_items::{ItemForm, push_item};
use crate::value::push_value;
use s360_machine::{ConfiguredUnit, Machine, Refusal};
use s360_store::{BLOCK_SIZE, Place};
use s360_text::Text;
use s360_word::Unit;
use std::alloc::AllocError;

/// Adds what is shown of a part of the machine; or the refusal where it does not have that part.
pub fn push_shown(text: &mut Text, machine: &Machine, shown: Shown) -> Result<(), AllocError>
    ensures { OnOk result (text.new ≡ text.old ++ shown_text (seen machine.now.whole) shown) }
{
    match shown {
        Shown::Registers => push_registers(text, machine),
        Shown::Psw => push_psw(text, machine),
        Shown::Storage { at, count } => {
            push_storage(text, machine.storage(), RowForm::Digits, at, count)
        }
        Shown::StorageKey { at } => push_key(text, machine, at),
        Shown::External => push_line(text, "ext", machine, Place::External),
        Shown::UnitState(unit) => push_unit(text, machine, unit, Place::UnitState(unit)),
        Shown::Device(unit) => push_unit(text, machine, unit, Place::UnitMedia(unit)),
        Shown::Item { unit, number } => push_item(
            text,
            machine,
            unit,
            number as usize,
            ItemForm::OnItsLine,
        ),
        Shown::Image(unit) => push_image(text, machine, unit),
    }
}

/// Adds the sixteen general registers, four a line.
fn push_registers(text: &mut Text, machine: &Machine) -> Result<(), AllocError>
    ensures { OnOk result (text.new ≡ text.old ++ registers_text (seen machine.now.whole)) }
{
    push_four_registers(text, machine, 0)?;
    push_four_registers(text, machine, 4)?;
    push_four_registers(text, machine, 8)?;
    push_four_registers(text, machine, 12)
}

/// Adds the line of four registers from this one on.
fn push_four_registers(text: &mut Text, machine: &Machine, first: u8) -> Result<(), AllocError>
    requires { first ≤ 12 }
    ensures { OnOk result (text.new ≡ text.old ++ register_line (seen machine.now.whole) first) }
{
    text.push_numbered("r", u64::from(first), 1)?;
    push_value(text, machine, Place::Register(first))?;
    push_value(text, machine, Place::Register(first + 1))?;
    push_value(text, machine, Place::Register(first + 2))?;
    push_value(text, machine, Place::Register(first + 3))?;
    text.push_text("\n")
}

/// Adds the PSW and the run state.
fn push_psw(text: &mut Text, machine: &Machine) -> Result<(), AllocError>
    ensures { OnOk result (text.new ≡ text.old ++ psw_text (seen machine.now.whole)) }
{
    text.push_text("psw")?;
    push_value(text, machine, Place::Psw)?;
    push_value(text, machine, Place::Run)?;
    text.push_text("\n")
}

/// Adds the storage key of the block that an address lies in; or the refusal where it is not inside.
fn push_key(text: &mut Text, machine: &Machine, at: u32) -> Result<(), AllocError>
    ensures { OnOk result (text.new ≡ text.old ++ key_text (seen machine.now.whole) at) }
{
    if at >= machine.storage().size() {
        return push_refusal(text, Refusal::OutsideStorage);
    }
    push_line(text, "key", machine, Place::Key(at / BLOCK_SIZE))
}

/// Adds the value of a place of a unit; or the refusal where the machine does not have the unit.
fn push_unit(text: &mut Text, machine: &Machine, unit: Unit, place: Place) -> Result<(), AllocError>
    ensures { OnOk result (text.new ≡ text.old ++ text_of_unit (seen machine.now.whole) unit place (unit_at unit.0)) }
{
    let Some(_configured) = ConfiguredUnit::at(unit) else {
        return push_refusal(text, Refusal::NoSuchUnit);
    };
    text.push_hex(u64::from(unit.address()), 3)?;
    push_line(text, "", machine, place)
}

/// Adds the value of a place behind a name, and the line's end.
fn push_line(text: &mut Text, name: &str, machine: &Machine, place: Place) -> Result<(), AllocError>
    ensures { OnOk result (text.new ≡ text.old ++ value_line name.now (seen machine.now.whole) place) }
{
    text.push_text(name)?;
    push_value(text, machine, place)?;
    text.push_text("\n")
}
