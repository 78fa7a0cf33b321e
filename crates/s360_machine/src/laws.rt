//! A law of the definitions, the contract of a call that does nothing.
ghost use Rattle.s360_device.specs.Differences.{DecidesEquality};
ghost use Rattle.s360_machine.specs.Differences.{same_external, same_run_state};

/// Two run states, or what two machines have pending of external conditions, are the same by their test exactly if they
/// are equal.
pub fn same_run_states_and_conditions_are_equal()
    ensures run_state { DecidesEquality same_run_state }
    ensures external { DecidesEquality same_external }
{}
