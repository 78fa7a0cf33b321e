//! The file that a line asks for.
ghost use Rattle.std.specs.Prelude.{◌≡◌, IfOk, OnErr, OnOk};
ghost use Rattle.s360_machine.specs.Machine.{seen};
ghost use Rattle.s360_channel.specs.ConfiguredUnits.{unit_at};
ghost use Rattle.s360_journal.specs.Recorded.{with_standing};
ghost use Rattle.s360_journal.specs.Standing.{machine_of};
ghost use Rattle.s360_journal.specs.Recorded.{session_of};
ghost use Rattle.s360_saving.specs.Files.{amount_of, bytes_of, file_for, tape_at};

use crate::cards::cards_of;
use crate::console_lines::{console_file_of, line_count};
use crate::pages::{page_count, pages_of};
use crate::saving::{Medium, Saving};
use s360_device::COLUMNS;
use s360_journal::Session;
use s360_machine::Machine;
use s360_tape::image_of;
use s360_text::Text;
use s360_trace::trace_of;
use s360_word::Unit;
use std::alloc::{AllocError, Global};

/// How much a file has.
#[derive(Clone, Copy)]
pub enum Amount {
    /// So many pages.
    Pages(u32),
    /// So many cards.
    Cards(usize),
    /// So many lines.
    Lines(usize),
    /// So many bytes.
    Bytes(usize),
}

/// A file that is to be written.
#[derive(Drop)]
pub struct FileToWrite {
    /// Its name.
    pub name: Text,
    /// Whether a file that is there is written over.
    pub over: bool,
    /// What it has.
    pub bytes: Text,
    /// How much that is.
    pub amount: Amount,
}

/// The file that is asked for of a recording, which stands where it stood; want of memory leaves it at some change.
pub fn file_for(
    alloc: Global,
    recording: &mut Session,
    saving: Saving<'_>,
) -> Result<FileToWrite, AllocError>
    ensures file { IfOk result (λ file. file ≡ file_for recording.old saving.entry) }
    ensures state { OnOk result (recording.new ≡ recording.old) }
    ensures memory { OnErr result (recording.new ≡ with_standing recording.old recording.new.standing) }
{
    let bytes = bytes_of(alloc, recording, saving.what)?;
    let amount = amount_of(recording.machine(), saving.what, bytes.as_bytes());
    let mut name = Text::new(alloc);
    name.push_bytes(saving.name)?;
    Ok(FileToWrite {
        name,
        over: saving.over,
        bytes,
        amount,
    })
}

/// The bytes of a file.
fn bytes_of(alloc: Global, recording: &mut Session, what: Medium) -> Result<Text, AllocError>
    ensures text { IfOk result (λ text. text ≡ bytes_of recording.old what) }
    ensures state { OnOk result (recording.new ≡ recording.old) }
    ensures memory { OnErr result (recording.new ≡ with_standing recording.old recording.new.standing) }
{
    let machine = recording.machine();
    match what {
        Medium::Printer => pages_of(alloc, machine.printer().media()),
        Medium::Punch(stacker) => cards_of(alloc, machine.punch().media(), stacker),
        Medium::Console => console_file_of(alloc, machine.console().media()),
        Medium::Tape0 => tape_at(alloc, machine, Unit::new(0x180)),
        Medium::Tape1 => tape_at(alloc, machine, Unit::new(0x181)),
        Medium::Trace { from, to } => trace_of(alloc, recording, from, to),
    }
}

/// The file of a unit's tape. It has no byte if the machine has no tape there.
fn tape_at(alloc: Global, machine: &Machine, unit: Unit) -> Result<Text, AllocError>
    ensures { IfOk result (λ text. text ≡ tape_at (seen machine.now.whole) (unit_at unit.0)) }
{
    match machine.tape(unit) {
        Some(tape) => Ok(Text::of_bytes(alloc, image_of(alloc, tape)?)),
        None => Ok(Text::new(alloc)),
    }
}

/// How much a file of these bytes has.
fn amount_of(machine: &Machine, what: Medium, file: &[u8]) -> Amount
    ensures { result ≡ amount_of (seen machine.now.whole) what file.now }
{
    match what {
        Medium::Printer => Amount::Pages(page_count(machine.printer().media())),
        Medium::Punch(_) => Amount::Cards(file.len() / COLUMNS),
        Medium::Console | Medium::Trace { .. } => Amount::Lines(line_count(file)),
        Medium::Tape0 | Medium::Tape1 => Amount::Bytes(file.len()),
    }
}
