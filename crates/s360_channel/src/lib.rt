//! Channels: the words of a channel program, the state of a unit on a channel, the four input/output
//! instructions, and the execution of one channel command word over any device.
//!
//! Source: GA22-6821, "Input/Output Operations".
#![tactic(auto)]

mod caw;
mod ccw;
mod command_word;
mod conclusion;
mod configured_unit;
mod csw;
mod engine;
mod fetching;
mod gathered;
mod gathering;
mod io_instructions;
mod laws;
mod program;
mod storing;
mod transfer;
mod unit_change;
mod unit_control;
mod unit_state;
mod units;

pub use caw::Caw;
pub use ccw::{Ccw, CcwFlags};
pub use configured_unit::{ChannelKind, ConfiguredUnit};
pub use csw::{ChannelStatus, Csw, UnitStatus, status_halfword};
pub use engine::{ChannelStep, Executed, channel_plan, execute};
pub use fetching::{Fetched, ccw_at, next_ccw};
pub use gathered::Gathered;
pub use io_instructions::{CswStore, IoResult, UnitAfter, halt, start, test, test_channel};
pub use laws::same_units_are_equal;
pub use program::{Program, Progress};
pub use storing::Run;
pub use transfer::{Transfer, output_transfer};
pub use unit_change::{SeveralUnits, UnitChange};
pub use unit_control::{Condition, UnitControl};
pub use unit_state::UnitState;
pub use units::Units;
