//! The debugger: a script is read line by line, each line is a command of the language, and each
//! command has an answer.
#![tactic(auto)]

mod answering;
mod lines;
mod open_line;
mod run;
mod running;
mod script;

pub use answering::{answer, push_changed, text_of_fault, text_of_line};
pub use lines::skips;
pub use run::{answer_line, run_script};
pub use s360_language::{Command, LineFault, Shown, read_command};
pub use s360_text::{ScriptFault, Text};
pub use script::carry_out;
