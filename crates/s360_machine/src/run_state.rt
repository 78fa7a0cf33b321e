//! The run state of the machine. Source: GA22-6821, "System Control Panel" and "Status Switching".
ghost use Rattle.std.specs.Prelude.{◌≡◌};
ghost use Rattle.s360_machine.specs.RunStates.{is_operating};

use s360_word::Unit;

/// Whether the machine runs.
#[derive(Clone, Copy, Default, PartialEq, Eq)]
pub enum RunState {
    /// Instructions are executed and interruptions taken.
    #[default]
    Operating,
    /// Neither, until the start key.
    Stopped,
    /// Initial program loading goes on from this unit.
    Loading(Unit),
}

impl RunState {
    /// Whether instructions are executed and interruptions taken.
    pub fn is_operating(self) -> bool
        ensures { result ≡ is_operating self }
    {
        match self {
            RunState::Operating => true,
            RunState::Stopped | RunState::Loading(_) => false,
        }
    }
}
