//! The 2400 magnetic tapes, and the AWSTAPE files that they are read from.
//!
//! Source: GA22-6821, "Input/Output Operations", and GA22-6866, "2400-Series Magnetic Tape Units".
#![tactic(auto)]

mod awstape;
mod block;
mod fault;
mod item;
mod laws;
mod marks;
mod part;
mod part_kind;
mod sense;
mod slot_change;
mod tape;
mod tape_change;
mod tape_command;
mod tape_row;

pub use awstape::{image_of, tape_from};
pub use block::Block;
pub use fault::TapeFault;
pub use item::TapeItem;
pub use laws::{fault_is_the_first, image_is_read_back, same_tapes_are_equal};
pub use sense::{AT_LOAD_POINT, WRITE_PROTECTED};
pub use slot_change::SlotChange;
pub use tape::{Tape, TapeMedia, blank_tape};
pub use tape_change::TapeChange;
