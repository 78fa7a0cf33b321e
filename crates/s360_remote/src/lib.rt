//! The target that gdb drives: a session, of which gdb asks and which it alters.
#![tactic(auto)]

mod accesses;
mod condition;
mod connection;
mod errand;
mod error_number;
mod inserting;
mod laws;
mod looking;
mod monitor;
mod pausing;
mod points;
mod readout;
mod registers;
mod saving;
mod serving;
mod target;
mod telling;
mod untold;
mod watch;
mod writing;

pub use connection::Connection;
pub use errand::Errand;
pub use error_number::ErrorNumber;
pub use laws::both_words_are_the_psw;
pub use points::{BytesMet, Points};
pub use registers::{patch_of_psw, patch_of_word, words_of_machine};
pub use saving::push_written;
pub use serving::Then;
pub use target::Target;
pub use watch::Watch;

/// So many bytes of data has a packet at most.
pub const PACKET_SIZE: u32 = 16_384;
