//! The session: a machine with the changes that stand, each of which can be taken back, and the record of its events.
//!
//! A change's journal entry has the places that it altered with the values that are not there now. An
//! exchange of these with the machine takes the change back, the newest first; nothing is ever run
//! again for that. The contracts say what it comes to: the machine is the start with the standing events
//! run again. The events stay in the record, of which the first ones stand; the others come next, until another event is run
//! in their place.
#![tactic(auto)]

mod breaks;
mod calls;
mod indexing;
mod journal;
mod laws;
mod noted;
mod parted;
mod places;
mod report;
mod running;
mod session;
mod timeline;
mod withdrawing;

pub use breaks::Breaks;
pub use calls::{Answer, Call, Outcome, run_calls};
pub use laws::{
    breakpoints_are_a_set, last_change_is_the_greatest, last_stop_is_the_greatest,
    refusal_depends_on_the_size, turn_runs_again,
};
pub use places::Places;
pub use report::Report;
pub use running::{Pause, Reach, Stops, Turn, next_event};
pub use session::{NothingStands, Session};
pub use withdrawing::Withdrawal;
