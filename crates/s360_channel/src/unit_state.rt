//! What a channel does for a unit. Source: GA22-6821, "Input/Output Operations", states of the
//! input/output system.
ghost use Rattle.std.specs.Prelude.{◌≡◌, IfOk};
ghost use Rattle.s360_channel.specs.Units.{is_active, is_waiting};

use crate::csw::Csw;
use crate::program::Program;
use std::alloc::AllocError;

/// What a channel does for a unit.
#[derive(Clone, PartialEq, Eq, Drop)]
pub enum UnitState {
    /// Nothing.
    Idle,
    /// It executes a channel program.
    Active(Program),
    /// A channel program has ended, and its status word waits for the CPU.
    Waiting(Csw),
}

impl UnitState {
    /// Whether a channel program is executed.
    pub fn is_active(&self) -> bool
        ensures { result ≡ is_active self.now }
    {
        matches!(self, UnitState::Active(_))
    }

    /// Whether a status word waits.
    pub fn is_waiting(&self) -> bool
        ensures { result ≡ is_waiting self.now }
    {
        matches!(self, UnitState::Waiting(_))
    }

    /// The same. The bytes that its program has gathered are shared.
    pub fn copy(&self) -> Result<UnitState, AllocError>
        ensures { IfOk result (λ copied. copied ≡ self.now) }
    {
        self.clone()
    }
}
