//! What a person asks of a recording: what altered a place, where the machine stands, and to go there.
#![tactic(auto)]

mod answering;
mod call;
mod calling;
mod cause;
mod change;
mod code_setting;
mod counting;
mod decider;
mod executed;
mod extent;
mod fitting;
mod gathering;
mod going;
mod happening;
mod history;
mod inquiry;
mod inquiry_reader;
mod interruption;
mod item;
mod jump;
mod jumping;
mod making;
mod mnemonic;
mod node;
mod origin;
mod place_set;
mod readers;
mod search;
mod situation;
mod storing;
mod telling;
mod unit;
mod visit;
mod why;

pub use answering::answer_inquiry;
pub use extent::{Extent, push_extent, runs_of};
pub use going::go_to;
pub use happening::{command_word_at, fetched_bytes};
pub use inquiry::{Detail, Inquiry, Mark};
pub use inquiry_reader::read_inquiry;
pub use mnemonic::mnemonic_of;
pub use place_set::in_order;
pub use storing::stored_by;
