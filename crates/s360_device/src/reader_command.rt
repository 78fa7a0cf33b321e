//! The card reader's own commands. Source: A21-9033, "2540 Card Read Punch".
ghost use Rattle.std.specs.Prelude.{◌≡◌};
ghost use Rattle.s360_model.specs.Tables.{entry_in};
ghost use Rattle.s360_device.specs.ReaderCommands.{reader_commands, stacker_of_command};

use crate::card::ReadStacker;

/// What a command of the reader's own does with the next card.
#[derive(Clone, Copy)]
pub(crate) enum ReaderCommand {
    /// Gives its bytes, and feeds it where there is a stacker for it.
    Read(Option<ReadStacker>),
    /// Feeds it.
    Feed(ReadStacker),
}

impl ReaderCommand {
    /// The command of a code, if there is one.
    pub(crate) fn new(code: u8) -> Option<ReaderCommand>
        ensures { result ≡ entry_in reader_commands code }
    {
        match code {
            0x02 => Some(ReaderCommand::Read(Some(ReadStacker::R1))),
            0x42 => Some(ReaderCommand::Read(Some(ReadStacker::R2))),
            0x82 => Some(ReaderCommand::Read(Some(ReadStacker::Rp3))),
            0xC2 => Some(ReaderCommand::Read(None)),
            0x23 => Some(ReaderCommand::Feed(ReadStacker::R1)),
            0x63 => Some(ReaderCommand::Feed(ReadStacker::R2)),
            0xA3 => Some(ReaderCommand::Feed(ReadStacker::Rp3)),
            _ => None,
        }
    }

    /// The stacker to which it feeds the next card, if it feeds it.
    pub(crate) fn stacker(self) -> Option<ReadStacker>
        ensures { result ≡ stacker_of_command self }
    {
        match self {
            ReaderCommand::Read(stacker) => stacker,
            ReaderCommand::Feed(stacker) => Some(stacker),
        }
    }
}
