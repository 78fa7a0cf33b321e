//! The devices of the machine, and what an event alters of them. Source: GA22-6821, "Input/Output
//! Operations".
ghost use Rattle.std.specs.Prelude.{◌≡◌, ◌<◌, ◌≤◌, Some, None, IfOk, OnErr, OnOk, length};
ghost use Rattle.s360_print.specs.TypedLines.{line_limit};
ghost use Rattle.s360_machine.specs.IoChanges.{CanSwapMedia, media_after_swap, media_change_after_swap, media_needs, unit_of_change};
ghost use Rattle.s360_machine.specs.Machine.{room_for};
ghost use Rattle.s360_machine.specs.Media.{media_of, room_of};
ghost use Rattle.s360_machine.specs.Planned.{IsChangeByKey};
ghost use Rattle.s360_machine.specs.Refusals.{refusal_of_key};
ghost use Rattle.s360_machine.specs.declared.operator.Key.TheVariants.{EndOfFile, Enter};

use crate::operator::Key;
use s360_channel::ConfiguredUnit;
use s360_device::{Device, DeviceChange, Motion, Punch, PunchedCard, Reader, ReaderChange};
use s360_print::{Console, ConsoleChange, Printer, PrinterChange};
use s360_tape::{Tape, TapeChange};
use std::alloc::AllocError;

/// The devices.
pub(crate) struct Devices {
    pub(crate) reader: Reader,
    pub(crate) punch: Punch,
    pub(crate) printer: Printer,
    pub(crate) console: Console,
    pub(crate) tape0: Tape,
    pub(crate) tape1: Tape,
}

impl Drop for Devices {
    fn drop(self) {
        let Devices {
            reader: _,
            punch: _,
            printer: _,
            console: _,
            tape0: _,
            tape1: _,
        } = self;
    }
}

/// What is exchanged with the device that does not stay as it is. No event alters two of them.
pub(crate) enum MediaChange {
    /// The card reader's change.
    Reader(DeviceChange<ReaderChange>),
    /// The card punch's.
    Punch(DeviceChange<Motion<PunchedCard>>),
    /// The printer's.
    Printer(DeviceChange<PrinterChange>),
    /// The console's.
    Console(DeviceChange<ConsoleChange>),
    /// That of the first magnetic tape.
    Tape0(DeviceChange<TapeChange>),
    /// That of the second.
    Tape1(DeviceChange<TapeChange>),
}

impl Drop for MediaChange {
    fn drop(self) {
        match self {
            MediaChange::Reader(_)
            | MediaChange::Punch(_)
            | MediaChange::Printer(_)
            | MediaChange::Console(_)
            | MediaChange::Tape0(_)
            | MediaChange::Tape1(_) => {}
        }
    }
}

impl Clone for MediaChange {
    ghost use Rattle.std.specs.Prelude.{◌≡◌};

    ghost is_clone = { λ change copied. copied ≡ change };

    fn clone(&self) -> Result<MediaChange, AllocError> {
        Ok(match self {
            MediaChange::Reader(change) => MediaChange::Reader(Reader::copy_change(change)?),
            MediaChange::Punch(change) => MediaChange::Punch(Punch::copy_change(change)?),
            MediaChange::Printer(change) => MediaChange::Printer(Printer::copy_change(change)?),
            MediaChange::Console(change) => MediaChange::Console(Console::copy_change(change)?),
            MediaChange::Tape0(change) => MediaChange::Tape0(Tape::copy_change(change)?),
            MediaChange::Tape1(change) => MediaChange::Tape1(Tape::copy_change(change)?),
        })
    }
}

impl MediaChange {
    /// The unit whose device it is.
    pub(crate) fn unit(&self) -> ConfiguredUnit
        ensures { result ≡ unit_of_change self.now }
    {
        match self {
            MediaChange::Reader(_) => ConfiguredUnit::Reader,
            MediaChange::Punch(_) => ConfiguredUnit::Punch,
            MediaChange::Printer(_) => ConfiguredUnit::Printer,
            MediaChange::Console(_) => ConfiguredUnit::Console,
            MediaChange::Tape0(_) => ConfiguredUnit::Tape0,
            MediaChange::Tape1(_) => ConfiguredUnit::Tape1,
        }
    }
}

impl Devices {
    /// Devices that are equal to these, with what is kept out of sight.
    pub(crate) fn copy(&self) -> Result<Devices, AllocError>
        ensures { IfOk result (λ devices. media_of devices ≡ media_of self.now) }
    {
        let reader = self.reader.copy()?;
        let punch = self.punch.copy()?;
        let printer = self.printer.copy()?;
        let console = self.console.copy()?;
        let tape0 = self.tape0.copy()?;
        let tape1 = self.tape1.copy()?;
        Ok(Devices {
            reader,
            punch,
            printer,
            console,
            tape0,
            tape1,
        })
    }

    /// What a key of the operator makes of them, unless it is refused for its own sake
    /// (refusals 2 to 5).
    pub(crate) fn change_of_key(&self, key: &Key) -> Result<Option<MediaChange>, AllocError>
        requires accepted { refusal_of_key key.now ≡ None }
        ensures { IfOk result (IsChangeByKey (media_of self.now) key.now) }
    {
        match key {
            Key::EndOfFile => Ok(self.change_of_end_key()),
            Key::Enter(line) => {
                let change = self.change_of_line(line.as_slice())?;
                Ok(Some(change))
            }
            Key::Start | Key::Stop | Key::Reset | Key::Interrupt | Key::Request | Key::Load(_) =>
                Ok(None),
        }
    }

    /// What a line that is entered does.
    fn change_of_line(&self, line: &[u8]) -> Result<MediaChange, AllocError>
        requires fits { length line.now ≤ line_limit }
        ensures { IfOk result (λ change. IsChangeByKey (media_of self.now) (Enter line.now) (Some change)) }
    {
        let change = self.console.media().plan_line(line)?;
        Ok(MediaChange::Console(self.console.change_by(change)))
    }

    /// What the end-of-file key does, which stays pressed.
    fn change_of_end_key(&self) -> Option<MediaChange>
        ensures { IsChangeByKey (media_of self.now) EndOfFile result }
    {
        if self.reader.media().end_of_file() {
            return None;
        }
        Some(MediaChange::Reader(self.reader.plan_end_key()))
    }

    /// Makes room for a change, after which its exchange takes no memory. It takes memory only if the change needs room.
    pub(crate) fn make_room(&mut self, change: &MediaChange) -> Result<(), AllocError>
        ensures media { media_of self.new ≡ media_of self.old }
        ensures ok { OnOk result (media_needs change.now ≤ room_for (room_of self.new) (unit_of_change change.now)) }
        ensures memory { OnErr result (0 < media_needs change.now) }
    {
        match change {
            MediaChange::Reader(change) => self.reader.room(change),
            MediaChange::Punch(change) => self.punch.room(change),
            MediaChange::Printer(change) => self.printer.room(change),
            MediaChange::Console(change) => self.console.room(change),
            MediaChange::Tape0(change) => self.tape0.room(change),
            MediaChange::Tape1(change) => self.tape1.room(change),
        }
    }

    /// Exchanges a device with its change, for which there is room.
    pub(crate) fn exchange(&mut self, change: &mut MediaChange)
        requires can { CanSwapMedia (media_of self.old) change.old }
        requires room { media_needs change.old ≤ room_for (room_of self.old) (unit_of_change change.old) }
        ensures media { media_of self.new ≡ media_after_swap (media_of self.old) change.old }
        ensures change { change.new ≡ media_change_after_swap (media_of self.old) change.old }
    {
        match change {
            MediaChange::Reader(change) => self.reader.swap(change),
            MediaChange::Punch(change) => self.punch.swap(change),
            MediaChange::Printer(change) => self.printer.swap(change),
            MediaChange::Console(change) => self.console.swap(change),
            MediaChange::Tape0(change) => self.tape0.swap(change),
            MediaChange::Tape1(change) => self.tape1.swap(change),
        }
    }
}
