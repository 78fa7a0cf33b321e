//! Whether a unit waits to interrupt. Source: GA22-6821, "Input/Output Operations", states of the input/output system.
ghost use Rattle.std.specs.Prelude.{◌≡◌, is_some};
ghost use Rattle.s360_channel.specs.ConfiguredUnits.{control_of};
ghost use Rattle.s360_channel.specs.Units.{condition_with, is_pending};

use s360_channel::UnitState;
use s360_machine::{ConfiguredUnit, Machine};

/// Whether a unit has a condition for an interruption: a status word that waits, or attention while it is idle.
pub(crate) fn is_pending(machine: &Machine, unit: ConfiguredUnit) -> bool
    ensures { result ≡ is_pending (control_of machine.now.whole.units unit) }
{
    match machine.unit(unit.unit()) {
        Some(state) => has_condition(state, machine.attention(unit.unit())),
        None => false,
    }
}

/// Whether a unit has one that stands so.
fn has_condition(state: &UnitState, attention: bool) -> bool
    ensures { result ≡ is_some (condition_with state.now attention) }
{
    match state {
        UnitState::Waiting(_) => true,
        UnitState::Idle => attention,
        UnitState::Active(_) => false,
    }
}
