//! What a program over the machine starts and ends with: its command line, the machine with the deck and the tapes in
//! the files that it names, and what is told where one of them, or a script, is at fault.
#![tactic(auto)]

mod arguments;
mod beginning;
mod command_line;
mod failure;
mod images;
mod program;
mod starting;
mod telling;

pub use arguments::{Options, TapeOptions};
pub use beginning::set_up;
pub use command_line::options;
pub use failure::{Failure, Fault, Stream};
pub use images::open;
pub use program::Program;
pub use starting::start;
pub use telling::{ending, tell};

/// So many changes can stand in a program.
pub const LIMIT: u32 = 10_000_000;
