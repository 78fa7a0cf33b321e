//! The language of scripts: how a line is read as a command, and how what a command asks for is shown.
#![tactic(auto)]

mod arguments;
mod command;
mod command_reader;
mod ebcdic;
mod lines;
mod names;
mod show;
mod show_bytes;
mod show_image;
mod show_items;
mod show_units;
mod value;
mod words;

pub use arguments::{address_in, count_in, next_count_or, next_place, unit_in};
pub use command::{Command, LineFault, Shown};
pub use command_reader::{MOST_COUNT, read_command};
pub use lines::{LONGEST_LINE, finish, go_on, if_known, words_in};
pub use names::{push_event, push_place, push_refusal};
pub use show::push_shown;
pub use show_bytes::{RowForm, push_digits, push_signs, push_storage, trimmed};
pub use show_items::{ItemForm, push_item, push_typed};
pub use value::push_value;
pub use words::{Words, behind_word, from_word, is_word, takes_word};
