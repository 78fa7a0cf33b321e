//! A law of the definitions, the contract of a call that does nothing.
ghost use Rattle.s360_device.specs.Differences.{DecidesEquality};
ghost use Rattle.s360_channel.specs.UnitChanges.{same_state, same_unit};

/// Two states of a unit, or two units, are the same by their test exactly if they are equal.
pub fn same_units_are_equal()
    ensures state { DecidesEquality same_state }
    ensures unit { DecidesEquality same_unit }
{}
