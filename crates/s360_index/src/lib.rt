//! Which changes altered a place: for each place that an event can alter the numbers of the changes that did,
//! ascending.
//!
//! Successive bytes of storage that were altered by the same changes share one list of their numbers, until a change
//! alters some of them alone.
#![tactic(auto)]

mod index;
mod numbers;
mod segments;

pub use index::Index;
