//! The 1403 printer and the 1052 console as devices, and the signs of EBCDIC bytes in ASCII.
//!
//! Sources: GA22-6821, "Input/Output Operations", and the component descriptions of the two units.
#![tactic(auto)]

mod carriage;
mod console;
mod console_change;
mod console_command;
mod laws;
mod paper;
mod printer;
mod printer_change;
mod printer_command;
mod signs;
mod typed_line;

pub use carriage::{CarriageMotion, Position};
pub use console::{Console, ConsoleMedia};
pub use console_change::ConsoleChange;
pub use laws::{same_printers_and_consoles_are_equal, signs_invert, skip_goes_to_first_line};
pub use paper::{LINE_WIDTH, PrintedLine, Record};
pub use printer::{Printer, PrinterMedia};
pub use printer_change::PrinterChange;
pub use signs::{ascii_to_ebcdic, ebcdic_to_ascii};
pub use typed_line::{LINE_LIMIT, Line, TypedItem};
