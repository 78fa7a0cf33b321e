//! The printer's own commands. Source: the component description of the 1403.
ghost use Rattle.std.specs.Prelude.{◌≡◌, IfSome};
ghost use Rattle.s360_model.specs.Tables.{entry_in};
ghost use Rattle.s360_print.specs.PrinterCommands.{printer_commands, MovesTheCarriage};

use crate::carriage::CarriageMotion;
use crate::carriage::CarriageMotion::{Skip, Space};

/// What a command of the printer's own does.
#[derive(Clone, Copy)]
pub(crate) enum PrinterCommand {
    /// Prints, and then moves the carriage.
    Print(CarriageMotion),
    /// Moves the carriage.
    Move(CarriageMotion),
}

impl PrinterCommand {
    /// The command of a code, if there is one.
    pub(crate) fn new(code: u8) -> Option<PrinterCommand>
        ensures row { result ≡ entry_in printer_commands code }
        ensures motion { IfSome result MovesTheCarriage }
    {
        match code {
            0x01 => Some(PrinterCommand::Print(Space(0))),
            0x09 => Some(PrinterCommand::Print(Space(1))),
            0x11 => Some(PrinterCommand::Print(Space(2))),
            0x19 => Some(PrinterCommand::Print(Space(3))),
            0x0B => Some(PrinterCommand::Move(Space(1))),
            0x13 => Some(PrinterCommand::Move(Space(2))),
            0x1B => Some(PrinterCommand::Move(Space(3))),
            0x89 => Some(PrinterCommand::Print(Skip(1))),
            0x91 => Some(PrinterCommand::Print(Skip(2))),
            0x99 => Some(PrinterCommand::Print(Skip(3))),
            0xA1 => Some(PrinterCommand::Print(Skip(4))),
            0xA9 => Some(PrinterCommand::Print(Skip(5))),
            0xB1 => Some(PrinterCommand::Print(Skip(6))),
            0xB9 => Some(PrinterCommand::Print(Skip(7))),
            0xC1 => Some(PrinterCommand::Print(Skip(8))),
            0xC9 => Some(PrinterCommand::Print(Skip(9))),
            0xD1 => Some(PrinterCommand::Print(Skip(10))),
            0xD9 => Some(PrinterCommand::Print(Skip(11))),
            0xE1 => Some(PrinterCommand::Print(Skip(12))),
            0x8B => Some(PrinterCommand::Move(Skip(1))),
            0x93 => Some(PrinterCommand::Move(Skip(2))),
            0x9B => Some(PrinterCommand::Move(Skip(3))),
            0xA3 => Some(PrinterCommand::Move(Skip(4))),
            0xAB => Some(PrinterCommand::Move(Skip(5))),
            0xB3 => Some(PrinterCommand::Move(Skip(6))),
            0xBB => Some(PrinterCommand::Move(Skip(7))),
            0xC3 => Some(PrinterCommand::Move(Skip(8))),
            0xCB => Some(PrinterCommand::Move(Skip(9))),
            0xD3 => Some(PrinterCommand::Move(Skip(10))),
            0xDB => Some(PrinterCommand::Move(Skip(11))),
            0xE3 => Some(PrinterCommand::Move(Skip(12))),
            _ => None,
        }
    }
}
