//! The trace of a recording: what each of its changes did, as comma-separated values.
#![tactic(auto)]

mod execution;
mod field_texts;
mod sources_told;
mod stores_told;
mod tracing;

pub use tracing::trace_of;
