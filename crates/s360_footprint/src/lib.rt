//! What an event stores and reads: the rows of all events as readings, and the laws of rows.
//!
//! Readings, rows, sources and deciders are words of ours; the rows follow GA22-6821, "System Structure", "Fixed-Point
//! Arithmetic", "Logical Operations", "Decimal Arithmetic", "Branching", "Status Switching", "Interruptions", "Input/Output
//! Operations" and "System Control Panel".
#![tactic(auto)]

mod laws;

pub use laws::{
    channels_are_rows, deciders_decide, deciders_decide_the_event, deciders_decide_the_instruction,
    events_are_rows, events_follow_their_sources, instructions_are_rows,
    instructions_follow_their_sources, interruptions_are_rows, others_are_kept,
    others_are_kept_by_the_event, sequences_are_rows, values_follow_their_sources,
};
