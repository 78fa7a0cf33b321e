//! The machine and its events: what an event alters is put together first, room is made for it, and then
//! it is exchanged with the machine, which the same exchange takes back.
//!
//! Source: GA22-6821, "System Structure", "Interruptions", "Status Switching", "Input/Output
//! Operations" and "System Control Panel".
#![tactic(auto)]

mod appending;
mod beside;
mod change_spans;
mod changes;
mod channel_event;
mod control;
mod control_change;
mod cpu;
mod event;
mod event_kind;
mod external;
mod input_output;
mod interruption;
mod laws;
mod loading;
mod machine;
mod media;
mod operator;
mod packed;
mod planning;
mod refusal;
mod row;
mod run_state;
mod timer;

pub use change_spans::{ChangeSpans, SpansApart, SpansWithin};
pub use changes::Changes;
pub use cpu::CpuCase;
pub use event::{Event, Patch};
pub use event_kind::{EventKind, KeyKind, PatchKind};
pub use external::ExternalConditions;
pub use laws::same_run_states_and_conditions_are_equal;
pub use machine::Machine;
pub use operator::Key;
pub use packed::Packed;
pub use refusal::Refusal;
pub use run_state::RunState;
pub use s360_channel::ConfiguredUnit;
pub use s360_store::Bytes;
