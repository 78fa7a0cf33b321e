//! The console's own commands. Source: the component description of the 1052.
ghost use Rattle.std.specs.Prelude.{◌≡◌};
ghost use Rattle.s360_model.specs.Tables.{entry_in};
ghost use Rattle.s360_print.specs.ConsoleCommands.{console_commands};

/// What a command of the console's own does.
#[derive(Clone, Copy, PartialEq, Eq)]
pub(crate) enum ConsoleCommand {
    /// Types a line.
    Write,
    /// Types a line, and returns the carriage.
    WriteAndReturn,
    /// Takes the next line that was entered.
    Read,
    /// Sounds the alarm.
    SoundAlarm,
}

impl ConsoleCommand {
    /// The command of a code, if there is one.
    pub(crate) fn new(code: u8) -> Option<ConsoleCommand>
        ensures { result ≡ entry_in console_commands code }
    {
        match code {
            0x01 => Some(ConsoleCommand::Write),
            0x09 => Some(ConsoleCommand::WriteAndReturn),
            0x0A => Some(ConsoleCommand::Read),
            0x0B => Some(ConsoleCommand::SoundAlarm),
            _ => None,
        }
    }
}
