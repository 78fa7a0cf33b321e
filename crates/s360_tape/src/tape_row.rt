//! What a tape's own commands are to it.
ghost use Rattle.s360_device.specs.DeviceRows.{IsRow, bytes_given};
ghost use Rattle.s360_device.specs.Rows.{control, row_input};
ghost use Rattle.s360_tape.specs.Blocks.{block_limit};
ghost use Rattle.s360_tape.specs.Tape.{tape_row, row_of_command, read_row, read_backward_row, space_record_row, backspace_record_row, space_file_row};
ghost use Rattle.s360_tape.specs.Tape.{backspace_file_row};
ghost use Rattle.s360_tape.specs.WholeTape.{seen_media, tape_kind};
ghost use Rattle.std.specs.Prelude.{◌≡◌, ◌≤◌, length};

use crate::block::BLOCK_LIMIT;
use crate::item::TapeItem;
use crate::marks::{after_mark, before_mark};
use crate::sense::{AT_LOAD_POINT, WRITE_PROTECTED};
use crate::tape::TapeMedia;
use crate::tape_change::TapeChange;
use crate::tape_command::TapeCommand;
use s360_device::{COMMAND_REJECT, Given, INTERVENTION_REQUIRED, Row};

impl TapeMedia {
    /// The bytes that a command gives.
    pub(crate) fn given(&self, code: u8) -> Given<'_>
        ensures bytes { bytes_given result ≡ row_input (tape_row (seen_media self.now.media) code) }
        ensures few { length (bytes_given result) ≤ block_limit }
    {
        match TapeCommand::new(code) {
            Some(TapeCommand::Read) if !self.unloaded() => {
                match self.next_item() {
                    Some(item) => Given::forward(item.bytes()),
                    None => Given::nothing(),
                }
            }
            Some(TapeCommand::ReadBackward) if !self.unloaded() => {
                match self.item(self.position()) {
                    Some(item) => Given::backward(item.bytes()),
                    None => Given::nothing(),
                }
            }
            _ => Given::nothing(),
        }
    }

    /// A command that moves the tape to a position alone.
    fn control(&self, place: usize, unloaded: bool, exception: bool) -> Row<TapeChange>
        requires place { place ≤ self.now.media.visible }
        ensures { IsRow tape_kind self.now.media (control (record (seen_media self.now.media) { position = place; unloaded = unloaded }) exception) result }
    {
        Row::Control {
            change: self.moving(place, unloaded),
            exception,
        }
    }

    /// A read.
    fn read(&self) -> Row<TapeChange>
        ensures { IsRow tape_kind self.now.media (read_row (seen_media self.now.media)) result }
    {
        match self.next_item() {
            Some(item) => Row::Input {
                change: self.moving(self.position() + 1, self.unloaded()),
                exception: item.is_mark(),
            },
            None => Row::Refused(INTERVENTION_REQUIRED),
        }
    }

    /// A read backward.
    fn read_backward(&self) -> Row<TapeChange>
        ensures { IsRow tape_kind self.now.media (read_backward_row (seen_media self.now.media)) result }
    {
        match self.item(self.position()) {
            Some(item) => Row::Input {
                change: self.moving(self.position() - 1, self.unloaded()),
                exception: item.is_mark(),
            },
            None => Row::Refused(AT_LOAD_POINT),
        }
    }

    /// Spacing over a block or mark.
    fn space_record(&self) -> Row<TapeChange>
        ensures { IsRow tape_kind self.now.media (space_record_row (seen_media self.now.media)) result }
    {
        match self.next_item() {
            Some(item) => self.control(self.position() + 1, self.unloaded(), item.is_mark()),
            None => Row::Refused(INTERVENTION_REQUIRED),
        }
    }

    /// Backspacing over a block or mark.
    fn backspace_record(&self) -> Row<TapeChange>
        ensures { IsRow tape_kind self.now.media (backspace_record_row (seen_media self.now.media)) result }
    {
        match self.item(self.position()) {
            Some(item) => self.control(self.position() - 1, self.unloaded(), item.is_mark()),
            None => Row::Refused(AT_LOAD_POINT),
        }
    }

    /// Spacing over a file.
    fn space_file(&self) -> Row<TapeChange>
        ensures { IsRow tape_kind self.now.media (space_file_row (seen_media self.now.media)) result }
    {
        match after_mark(self.as_slice(), self.position()) {
            Some(place) => self.control(place, self.unloaded(), false),
            None => Row::Refused(INTERVENTION_REQUIRED),
        }
    }

    /// Backspacing over a file.
    fn backspace_file(&self) -> Row<TapeChange>
        ensures { IsRow tape_kind self.now.media (backspace_file_row (seen_media self.now.media)) result }
    {
        if self.position() == 0 {
            return Row::Refused(AT_LOAD_POINT);
        }
        let place = before_mark(self.as_slice(), self.position());
        self.control(place, self.unloaded(), false)
    }

    /// A command of a tape that is loaded, and not protected against it.
    fn row_of_command(&self, command: TapeCommand) -> Row<TapeChange>
        ensures { IsRow tape_kind self.now.media (row_of_command (seen_media self.now.media) command) result }
    {
        match command {
            TapeCommand::Write => Row::Output {
                limit: BLOCK_LIMIT as u32,
                exception: false,
            },
            TapeCommand::WriteMark => Row::Control {
                change: Some(self.writing(TapeItem::Mark)),
                exception: false,
            },
            TapeCommand::Read => self.read(),
            TapeCommand::ReadBackward => self.read_backward(),
            TapeCommand::SpaceRecord => self.space_record(),
            TapeCommand::BackspaceRecord => self.backspace_record(),
            TapeCommand::SpaceFile => self.space_file(),
            TapeCommand::BackspaceFile => self.backspace_file(),
            TapeCommand::EraseGap => self.control(self.position(), self.unloaded(), false),
            TapeCommand::Rewind => self.control(0, self.unloaded(), false),
            TapeCommand::RewindUnload => self.control(0, true, false),
        }
    }

    /// What one of a tape's own commands is to it.
    pub(crate) fn row_of(&self, code: u8) -> Row<TapeChange>
        ensures { IsRow tape_kind self.now.media (tape_row (seen_media self.now.media) code) result }
    {
        let Some(command) = TapeCommand::new(code) else {
            return Row::Refused(COMMAND_REJECT);
        };
        if self.unloaded() {
            return Row::Refused(INTERVENTION_REQUIRED);
        }
        if self.protected() && command.writes() {
            return Row::Refused(WRITE_PROTECTED);
        }
        self.row_of_command(command)
    }
}
