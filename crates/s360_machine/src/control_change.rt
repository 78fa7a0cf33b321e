//! What an event alters of the control part.
ghost use Rattle.std.specs.Prelude.{◌≡◌};
ghost use Rattle.s360_machine.specs.ControlCells.{has_external, has_run_state};

use crate::external::ExternalConditions;
use crate::run_state::RunState;

/// The places of the control part that an event alters, each with a value of it. A contract sees
/// the list of their cells. It is small, since each change in the journal has one.
#[derive(Clone, Copy, PartialEq, Eq)]
pub(crate) enum ControlChange {
    /// None of them.
    Neither,
    /// The run state.
    Run(RunState),
    /// The pending external conditions.
    External(ExternalConditions),
    /// Both of them.
    Both(RunState, ExternalConditions),
}

impl ControlChange {
    /// Whether the run state is among them.
    pub(crate) fn has_run_state(self) -> bool
        ensures { result ≡ has_run_state self }
    {
        matches!(self, ControlChange::Run(_) | ControlChange::Both(..))
    }

    /// Whether the external conditions are among them.
    pub(crate) fn has_external(self) -> bool
        ensures { result ≡ has_external self }
    {
        matches!(self, ControlChange::External(_) | ControlChange::Both(..))
    }
}
