//! How a command ends. Source: GA22-6821, "Input/Output Operations", conclusion of input/output operations.
ghost use Rattle.std.specs.Prelude.{◌≡◌};
ghost use Rattle.s360_channel.specs.Execution.{ended_unit, is_clean, next_ccw_address, refused_unit};
ghost use Rattle.s360_channel.specs.Words.{meets_protection_check};

use crate::csw::{ChannelStatus, UnitStatus};

/// How a command ends.
#[derive(Clone, Copy)]
pub(crate) struct Conclusion {
    /// Channel end and device end, with unit exception or without it, or unit check alone.
    pub(crate) unit: UnitStatus,
    /// A check, or whether an incorrect length is told.
    pub(crate) channel: ChannelStatus,
    /// The residual count.
    pub(crate) residual: u16,
}

/// Channel end and device end, and unit exception where the device gives it.
pub(crate) fn ended_unit(exception: bool) -> UnitStatus
    ensures { result ≡ ended_unit exception }
{
    UnitStatus {
        unit_exception: exception,
        ..UnitStatus::ended()
    }
}

/// Unit check alone.
pub(crate) fn refused_unit() -> UnitStatus
    ensures { result ≡ refused_unit }
{
    UnitStatus {
        unit_check: true,
        ..UnitStatus::none()
    }
}

/// Protection check alone.
pub(crate) fn protection_check() -> ChannelStatus
    ensures { result ≡ meets_protection_check }
{
    ChannelStatus {
        protection_check: true,
        ..ChannelStatus::none()
    }
}

/// The address of the next word.
pub(crate) fn next_ccw_address(at: u32) -> u32
    ensures { result ≡ next_ccw_address at }
{
    at.wrapping_add(8) % (1 << 24)
}

impl Conclusion {
    /// Whether nothing is told but channel end and device end.
    pub(crate) fn is_clean(&self) -> bool
        ensures { result ≡ is_clean self.now }
    {
        !self.unit.unit_check && !self.unit.unit_exception && !self.channel.incorrect_length
    }
}
