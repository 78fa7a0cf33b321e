//! What is shown of what the channel does for a unit, and of its device.
ghost use Rattle.std.specs.Prelude.{◌≡◌, ◌++◌, OnOk};
ghost use Rattle.s360_machine.specs.Machine.{seen};
ghost use Rattle.s360_language.specs.ShownUnits.{console_words, control_words, csw_words, device_words, printer_words};
ghost use Rattle.s360_language.specs.ShownUnits.{program_word, punch_words, reader_words, sense_text, state_name, tape_words};
ghost use Rattle.s360_device.specs.DeviceChanges.{bare};
ghost use Rattle.s360_tape.specs.WholeTape.{seen as seen_tape};

use crate::show_bytes::push_digits;
use s360_channel::{Program, UnitState};
use s360_device::{Device, Punch, Reader};
use s360_machine::{ConfiguredUnit, Machine};
use s360_print::{Console, Printer};
use s360_tape::Tape;
use s360_text::Text;
use s360_word::Word;
use std::alloc::AllocError;

/// Adds what the channel does for a unit, after a blank, and whether the unit asks for attention.
pub(crate) fn push_control(
    text: &mut Text,
    state: &UnitState,
    attention: bool,
) -> Result<(), AllocError>
    ensures { OnOk result (text.new ≡ text.old ++ control_words state.now attention) }
{
    push_state(text, state)?;
    if attention {
        text.push_text(" attention")?;
    }
    Ok(())
}

/// Adds the state of a unit after a blank.
fn push_state(text: &mut Text, state: &UnitState) -> Result<(), AllocError>
    ensures { OnOk result (text.new ≡ text.old ++ state_name state.now) }
{
    match state {
        UnitState::Idle => text.push_text(" idle"),
        UnitState::Active(program) => {
            text.push_numbered(" active ", u64::from(program_word(program)), 8)
        }
        UnitState::Waiting(csw) => push_csw(text, csw.to_u64()),
    }
}

/// A program's key and the address of its next channel command word, as a channel address word has
/// them.
fn program_word(program: &Program) -> Word
    ensures { result ≡ program_word program.now }
{
    u32::from(program.key().number()) * (1 << 28) + program.next_address() % (1 << 24)
}

/// Adds that a unit waits with a channel status word, whose two words these are.
#[tactic(auto, unfolding(crate::specs::ShownUnits::csw_words))]
fn push_csw(text: &mut Text, doubleword: u64) -> Result<(), AllocError>
    ensures { OnOk result (text.new ≡ text.old ++ csw_words doubleword) }
{
    text.push_numbered(" waiting ", doubleword / (1 << 32), 8)?;
    text.push_numbered(" ", doubleword % (1 << 32), 8)
}

/// Adds the sense byte of a unit's device, or all six of a tape, and its media in numbers, after a blank.
pub(crate) fn push_device(
    text: &mut Text,
    machine: &Machine,
    unit: ConfiguredUnit,
) -> Result<(), AllocError>
    ensures { OnOk result (text.new ≡ text.old ++ device_words (seen machine.now.whole) unit) }
{
    match unit {
        ConfiguredUnit::Reader => push_reader(text, machine.reader()),
        ConfiguredUnit::Punch => push_punch(text, machine.punch()),
        ConfiguredUnit::Printer => push_printer(text, machine.printer()),
        ConfiguredUnit::Console => push_console(text, machine.console()),
        ConfiguredUnit::Tape0 | ConfiguredUnit::Tape1 => match machine.tape(unit.unit()) {
            Some(tape) => push_tape(text, tape),
            None => unreachable!(),
        },
    }
}

/// Adds the first of the sense bytes, the one that a device other than a tape has.
fn push_sense(text: &mut Text, sense: &[u8; 6]) -> Result<(), AllocError>
    ensures { OnOk result (text.new ≡ text.old ++ sense_text sense.now) }
{
    text.push_numbered(" sense ", u64::from(sense[0]), 2)
}

/// Adds the card reader.
fn push_reader(text: &mut Text, reader: &Reader) -> Result<(), AllocError>
    ensures { OnOk result (text.new ≡ text.old ++ reader_words (bare reader.now)) }
{
    push_sense(text, &reader.sense())?;
    text.push_counted(" next ", reader.media().fed() as u64)?;
    text.push_counted(" of ", reader.media().cards() as u64)?;
    text.push_text(if reader.media().end_of_file() {
        " eof on"
    } else {
        " eof off"
    })
}

/// Adds the card punch.
fn push_punch(text: &mut Text, punch: &Punch) -> Result<(), AllocError>
    ensures { OnOk result (text.new ≡ text.old ++ punch_words (bare punch.now)) }
{
    push_sense(text, &punch.sense())?;
    text.push_counted(" cards ", punch.media().cards() as u64)
}

/// Adds the printer.
fn push_printer(text: &mut Text, printer: &Printer) -> Result<(), AllocError>
    ensures { OnOk result (text.new ≡ text.old ++ printer_words (bare printer.now)) }
{
    let position = printer.media().position();
    push_sense(text, &printer.sense())?;
    text.push_counted(" page ", u64::from(position.page()))?;
    text.push_counted(" line ", u64::from(position.line()))?;
    text.push_counted(" records ", printer.media().records() as u64)
}

/// Adds the console.
fn push_console(text: &mut Text, console: &Console) -> Result<(), AllocError>
    ensures { OnOk result (text.new ≡ text.old ++ console_words (bare console.now)) }
{
    push_sense(text, &console.sense())?;
    text.push_counted(" typed ", console.media().typed_count() as u64)?;
    text.push_counted(" entered ", console.media().entered_count() as u64)?;
    text.push_counted(" taken ", console.media().taken() as u64)
}

/// Adds a magnetic tape.
fn push_tape(text: &mut Text, tape: &Tape) -> Result<(), AllocError>
    ensures { OnOk result (text.new ≡ text.old ++ tape_words (seen_tape (bare tape.now))) }
{
    text.push_text(" sense ")?;
    push_digits(text, &tape.sense())?;
    text.push_counted(" position ", tape.media().position() as u64)?;
    text.push_counted(" of ", tape.media().items() as u64)?;
    text.push_text(if tape.media().unloaded() {
        " unloaded"
    } else {
        " loaded"
    })
}
