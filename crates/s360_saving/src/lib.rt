//! What is saved of a machine in a file: the line that asks for it, the file's bytes, and what the line is answered.
//!
//! No file is written here.
#![tactic(auto)]

mod cards;
mod console_lines;
mod feeds;
mod file;
mod last_words;
mod outcome;
mod pages;
mod saving;
mod saving_reader;

pub use file::{Amount, FileToWrite, file_for};
pub use outcome::{SaveFault, outcome_text};
pub use saving::{Medium, Saving};
pub use saving_reader::read_saving;
