//! The value that a place has, in digits and words.
ghost use Rattle.std.specs.Prelude.{◌≡◌, ◌++◌, OnOk};
ghost use Rattle.s360_machine.specs.Machine.{seen};
ghost use Rattle.s360_language.specs.Values.{block_key_words, byte_words, control_words_of, device_words_of, fetch_words};
ghost use Rattle.s360_language.specs.Values.{key_words, psw_words, register_words, value_words};

use crate::names::{name_of_external, push_run_state};
use crate::show_units::{push_control, push_device};
use s360_machine::{ConfiguredUnit, Machine};
use s360_psw::InstructionLength;
use s360_store::{BLOCK_SIZE, BlockKey, Place, Storage};
use s360_text::Text;
use s360_word::{RegisterNumber, Unit};
use std::alloc::AllocError;

/// So many general registers has the machine.
const REGISTERS: u8 = 16;

/// Adds the value of a place after a blank; nothing of a place that the machine lacks.
#[tactic(auto, unfolding(crate::specs::Values::value_words))]
pub fn push_value(text: &mut Text, machine: &Machine, place: Place) -> Result<(), AllocError>
    ensures { OnOk result (text.new ≡ text.old ++ value_words (seen machine.now.whole) place) }
{
    match place {
        Place::Psw => push_psw(text, machine),
        Place::Register(number) => push_register(text, machine, number),
        Place::Byte(at) => push_byte(text, machine.storage(), at),
        Place::Key(block) => push_key(text, machine.storage(), block),
        Place::Run => push_run_state(text, machine.run()),
        Place::External => text.push_text(name_of_external(machine.external())),
        Place::UnitState(unit) => push_unit_state(text, machine, unit),
        Place::UnitMedia(unit) => push_unit_media(text, machine, unit),
    }
}

/// Adds the PSW, with no interruption code and no instruction length.
fn push_psw(text: &mut Text, machine: &Machine) -> Result<(), AllocError>
    ensures { OnOk result (text.new ≡ text.old ++ psw_words machine.now.whole.core.psw) }
{
    let stored = machine.psw().stored(0, InstructionLength::NotAvailable);
    text.push_numbered(" ", stored, 16)
}

/// Adds the word of a register.
fn push_register(text: &mut Text, machine: &Machine, number: u8) -> Result<(), AllocError>
    ensures { OnOk result (text.new ≡ text.old ++ register_words machine.now.whole.core.registers number) }
{
    if number >= REGISTERS {
        return Ok(());
    }
    let word = machine.register(RegisterNumber::new(number));
    text.push_numbered(" ", u64::from(word), 8)
}

/// Adds a byte of storage.
fn push_byte(text: &mut Text, storage: &Storage, at: u32) -> Result<(), AllocError>
    ensures { OnOk result (text.new ≡ text.old ++ byte_words storage.now at) }
{
    if at >= storage.size() {
        return Ok(());
    }
    text.push_numbered(" ", u64::from(storage.byte(at)), 2)
}

/// Adds the storage key of a block, and its fetch bit if fetches are protected.
fn push_key(text: &mut Text, storage: &Storage, block: u32) -> Result<(), AllocError>
    ensures { OnOk result (text.new ≡ text.old ++ key_words storage.now block) }
{
    if block >= storage.size() / BLOCK_SIZE {
        return Ok(());
    }
    push_block_key(text, storage.fetch_protection(), storage.block_key(block))
}

/// Adds a storage key, and behind it the fetch bit if fetches are protected.
fn push_block_key(text: &mut Text, fetch_protection: bool, key: BlockKey) -> Result<(), AllocError>
    ensures { OnOk result (text.new ≡ text.old ++ block_key_words fetch_protection key) }
{
    text.push_numbered(" ", u64::from(key.key().number()), 1)?;
    text.push_text(fetch_words(fetch_protection, key))
}

/// What is said of the fetch bit behind a storage key, if fetches are protected.
fn fetch_words(fetch_protection: bool, key: BlockKey) -> &'static str
    ensures { result.now ≡ fetch_words fetch_protection key }
{
    match (fetch_protection, key.fetch_bit()) {
        (false, _) => "",
        (true, false) => " fetch 0",
        (true, true) => " fetch 1",
    }
}

/// Adds what the channel does for a unit.
fn push_unit_state(text: &mut Text, machine: &Machine, unit: Unit) -> Result<(), AllocError>
    ensures { OnOk result (text.new ≡ text.old ++ control_words_of (seen machine.now.whole) unit) }
{
    match machine.unit(unit) {
        Some(state) => push_control(text, state, machine.attention(unit)),
        None => Ok(()),
    }
}

/// Adds the sense and the media of a unit.
fn push_unit_media(text: &mut Text, machine: &Machine, unit: Unit) -> Result<(), AllocError>
    ensures { OnOk result (text.new ≡ text.old ++ device_words_of (seen machine.now.whole) unit) }
{
    match ConfiguredUnit::at(unit) {
        Some(configured) => push_device(text, machine, configured),
        None => Ok(()),
    }
}
