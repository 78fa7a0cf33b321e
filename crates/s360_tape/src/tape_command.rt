//! The tapes' own commands. Source: GA22-6866, "2400-Series Magnetic Tape Units".
ghost use Rattle.std.specs.Prelude.{◌≡◌};
ghost use Rattle.s360_model.specs.Tables.{entry_in};
ghost use Rattle.s360_tape.specs.TapeCommands.{tape_commands, writes};

/// A command of the tapes' own.
#[derive(Clone, Copy, PartialEq, Eq)]
pub(crate) enum TapeCommand {
    /// Writes a block at the position.
    Write,
    /// Reads the item at the position.
    Read,
    /// Goes to the first item.
    Rewind,
    /// Reads the item before the position, last byte first.
    ReadBackward,
    /// Goes to the first item, and unloads the tape.
    RewindUnload,
    /// Erases a gap, which is not kept.
    EraseGap,
    /// Writes a mark at the position.
    WriteMark,
    /// Goes back over an item.
    BackspaceRecord,
    /// Goes back to just before a mark.
    BackspaceFile,
    /// Goes on over an item.
    SpaceRecord,
    /// Goes on to just after a mark.
    SpaceFile,
}

impl TapeCommand {
    /// The command of a code, if there is one.
    pub(crate) fn new(code: u8) -> Option<TapeCommand>
        ensures { result ≡ entry_in tape_commands code }
    {
        match code {
            0x01 => Some(TapeCommand::Write),
            0x02 => Some(TapeCommand::Read),
            0x07 => Some(TapeCommand::Rewind),
            0x0C => Some(TapeCommand::ReadBackward),
            0x0F => Some(TapeCommand::RewindUnload),
            0x17 => Some(TapeCommand::EraseGap),
            0x1F => Some(TapeCommand::WriteMark),
            0x27 => Some(TapeCommand::BackspaceRecord),
            0x2F => Some(TapeCommand::BackspaceFile),
            0x37 => Some(TapeCommand::SpaceRecord),
            0x3F => Some(TapeCommand::SpaceFile),
            _ => None,
        }
    }

    /// Whether it is refused on a protected tape.
    pub(crate) fn writes(self) -> bool
        ensures { result ≡ writes self }
    {
        matches!(
            self,
            TapeCommand::Write | TapeCommand::WriteMark | TapeCommand::EraseGap
        )
    }
}
