//! The 1403 printer. Source: the component description of the 1403.
ghost use Rattle.std.specs.Prelude.{◌≡◌, ◌≤◌, IfOk, length};
ghost use Rattle.std.specs.Option.{option_copied};
ghost use Rattle.s360_device.specs.Items.{item_in};
ghost use Rattle.s360_device.specs.Kinds.{MakesMedia};
ghost use Rattle.s360_print.specs.Carriage.{IsCarriageMotion, position_after};
ghost use Rattle.s360_print.specs.Paper.{line_width};
ghost use Rattle.s360_print.specs.Printer.{new_printer, record_at};
ghost use Rattle.s360_print.specs.PrinterChanges.{printer_kind};

use crate::carriage::{CarriageMotion, Position};
use crate::paper::{LINE_WIDTH, PrintedLine, Record};
use crate::printer_change::PrinterChange;
use crate::printer_command::PrinterCommand;
use s360_device::{COMMAND_REJECT, DeviceWith, Given, Media, Motion, Row};
use std::alloc::{AllocError, Global};
use std::marker::Model;
use std::mem;

/// The printer. Its paper never runs out.
pub type Printer = DeviceWith<PrinterMedia>;

/// The lines that the printer has printed, and where its carriage stands.
pub struct PrinterMedia {
    position: Position,
    records: Vec<Record>,
}

impl Drop for PrinterMedia {
    fn drop(self) {
        let PrinterMedia {
            position: _,
            records: _,
        } = self;
    }
}

impl Model for PrinterMedia {
    ghost use Rattle.s360_device.specs.Kinds.{MediaWithRoom, room_in};
    ghost use Rattle.s360_print.specs.Printer.{PrinterMedia as Seen};

    ghost Value = { MediaWithRoom Seen };

    ghost view = { λ p. record { media = record { records = p.records.items; position = p.position }; room = room_in p.records } };
}

impl PrinterMedia {
    /// Those of a printer that stands at line 1 of page 1, with no line printed. It takes no memory.
    pub fn new(alloc: Global) -> PrinterMedia
        ensures { result.media ≡ new_printer.media }
    {
        PrinterMedia {
            position: Position::new(),
            records: Vec::new(alloc),
        }
    }

    /// Where the carriage stands.
    pub fn position(&self) -> Position
        ensures { result ≡ self.now.media.position }
    {
        self.position
    }

    /// The number of lines printed.
    pub fn records(&self) -> usize
        ensures { result ≡ length self.now.media.records }
    {
        self.records.len()
    }

    /// A line that was printed, by its number from 1, if there is one.
    pub fn record(&self, number: usize) -> Option<&Record>
        ensures { option_copied result ≡ item_in self.now.media.records number }
    {
        self.records.get(number.checked_sub(1)?)
    }

    /// The line that a command prints.
    fn record_of(&self, bytes: &[u8]) -> Result<Record, AllocError>
        requires fits { length bytes.now ≤ line_width }
        ensures { IfOk result (λ printed. printed ≡ record_at self.now.media.position bytes.now) }
    {
        let bytes = PrintedLine::new(*self.records.allocator(), bytes)?;
        Ok(Record {
            page: self.position.page(),
            line: self.position.line(),
            bytes,
        })
    }

    /// The carriage moves, where that takes it elsewhere.
    fn moving(&self, motion: CarriageMotion) -> Option<PrinterChange>
        requires motion { IsCarriageMotion motion }
        ensures { MakesMedia printer_kind self.now.media (record self.now.media { position = position_after self.now.media.position motion }) result }
    {
        let position = self.position.after(motion);
        if position == self.position {
            return None;
        }
        Some(PrinterChange {
            motion: Motion::Stay,
            position,
        })
    }
}

impl Media for PrinterMedia {
    ghost use Rattle.std.proofs.Common.{refl};
    ghost use Rattle.s360_print.specs.Printer.{PrinterMedia as Contents};
    ghost use Rattle.s360_print.specs.PrinterChanges.{printer_kind};
    ghost use Rattle.s360_print.specs.PrinterLaws.{printer_change_restores_both};

    type Change = PrinterChange;

    ghost Whole = { Contents };

    ghost Seen = { Contents };

    ghost kind = { printer_kind };

    ghost whole = { λ m. m.media };

    ghost room_of = { λ m. m.room };

    ghost made = { λ s room. record { media = s; room = room } };

    fn sense_bytes() -> usize {
        1
    }

    fn input(&self, _code: u8) -> Given<'_> {
        Given::nothing()
    }

    fn row(&self, code: u8) -> Row<PrinterChange> {
        match PrinterCommand::new(code) {
            Some(PrinterCommand::Print(motion)) => Row::Output {
                limit: LINE_WIDTH as u32,
                exception: self.position.passes_end(motion),
            },
            Some(PrinterCommand::Move(motion)) => Row::Control {
                change: self.moving(motion),
                exception: self.position.passes_end(motion),
            },
            None => Row::Refused(COMMAND_REJECT),
        }
    }

    fn written(&self, code: u8, bytes: &[u8]) -> Result<Option<PrinterChange>, AllocError> {
        let Some(PrinterCommand::Print(motion)) = PrinterCommand::new(code) else {
            return Ok(None);
        };
        Ok(Some(PrinterChange {
            motion: Motion::Put(self.record_of(bytes)?),
            position: self.position.after(motion),
        }))
    }

    fn make_room(&mut self, change: &PrinterChange) -> Result<(), AllocError> {
        change.motion.make_room(&mut self.records)
    }

    fn exchange(&mut self, change: &mut PrinterChange) {
        mem::swap(&mut self.position, &mut change.position);
        change.motion.exchange(&mut self.records);
    }

    fn copy(&self) -> Result<PrinterMedia, AllocError> {
        let records = self.records.clone()?;
        Ok(PrinterMedia {
            position: self.position,
            records,
        })
    }

    fn copy_change(change: &PrinterChange) -> Result<PrinterChange, AllocError> {
        change.clone()
    }

    ghost restores_both = { printer_change_restores_both };

    ghost whole_of_made = { λ s room. refl };

    ghost room_of_made = { λ s room. refl };

    ghost made_of_parts = { λ m. refl };
}
