//! A unit as its channel sees it, and the condition that it has for an interruption. Source:
//! GA22-6821, "Input/Output Operations", input/output interruptions.
ghost use Rattle.std.specs.Prelude.{◌≡◌};
ghost use Rattle.s360_channel.specs.UnitChanges.{same_unit};
ghost use Rattle.s360_channel.specs.Units.{attention_csw, condition_of, idle_unit, is_pending};

use crate::csw::{ChannelStatus, Csw, UnitStatus};
use crate::unit_state::UnitState;
use s360_word::ProtectionKey;

/// The state of a unit, and whether it asks for attention.
#[derive(Clone, PartialEq, Eq, Drop)]
pub struct UnitControl {
    /// What the channel does for it.
    pub state: UnitState,
    /// Whether the operator or the device has asked for the program's attention.
    pub attention: bool,
}

/// What a unit has for an interruption, or for TEST I/O.
#[derive(Drop)]
pub struct Condition {
    /// The status word that is stored for it.
    pub csw: Csw,
    /// The unit once it is taken.
    pub unit: UnitControl,
}

/// The status word of a unit that asks for attention.
fn csw_of_attention() -> Csw
    ensures { result ≡ attention_csw }
{
    Csw {
        key: ProtectionKey::new(0),
        address: 0,
        unit: UnitStatus::attention(),
        channel: ChannelStatus::none(),
        count: 0,
    }
}

impl UnitControl {
    /// A unit for which nothing is done, and which asks for nothing. It takes no memory.
    pub fn idle() -> UnitControl
        ensures { result ≡ idle_unit }
    {
        UnitControl {
            state: UnitState::Idle,
            attention: false,
        }
    }

    /// Whether another unit is in the same state.
    pub fn is(&self, other: &UnitControl) -> bool
        ensures { result ≡ same_unit self.now other.now }
    {
        self == other
    }

    /// Whether it has a condition for an interruption: a status word that waits, or attention while it
    /// is idle.
    pub fn is_pending(&self) -> bool
        ensures { result ≡ is_pending self.now }
    {
        match self.state {
            UnitState::Idle => self.attention,
            UnitState::Active(_) => false,
            UnitState::Waiting(_) => true,
        }
    }

    /// That condition, if there is one: the status word that waits comes before attention. It takes no
    /// memory.
    pub fn condition(&self) -> Option<Condition>
        ensures { result ≡ condition_of self.now }
    {
        match self.state {
            UnitState::Waiting(csw) => Some(Condition {
                csw,
                unit: UnitControl {
                    state: UnitState::Idle,
                    attention: self.attention,
                },
            }),
            UnitState::Idle if self.attention => Some(Condition {
                csw: csw_of_attention(),
                unit: UnitControl::idle(),
            }),
            UnitState::Idle | UnitState::Active(_) => None,
        }
    }
}
