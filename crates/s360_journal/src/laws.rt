//! Laws of the definitions, each the contract of a call that does nothing.
ghost use Rattle.s360_journal.specs.Laws.{BreakpointsAreASet, LastChangeIsTheGreatest, LastStopIsTheGreatest, RefusalDependsOnTheSize, TurnRunsAgain};

/// The last change of a place is the greatest number of a change that alters it.
pub fn last_change_is_the_greatest()
    ensures { LastChangeIsTheGreatest }
{}

/// The breakpoints are a set of at most 64 addresses.
pub fn breakpoints_are_a_set()
    ensures { BreakpointsAreASet }
{}

/// The last stop is the greatest number of events, but not all, after which the CPU operates at a
/// breakpoint, and 0 where there is none.
pub fn last_stop_is_the_greatest()
    ensures { LastStopIsTheGreatest }
{}

/// An event that is not refused in one machine is refused in no machine whose storage has that size.
pub fn refusal_depends_on_the_size()
    ensures { RefusalDependsOnTheSize }
{}

/// What was taken back is run again by the next turn, which leads to the very record that was.
pub fn turn_runs_again()
    ensures { TurnRunsAgain }
{}
