//! The law of walks, the contract of a call that does nothing.
ghost use Rattle.s360_source.specs.Answers.{WalksAnswer};

/// What a walk over a row finds is what is asked of the row. A device whose sources are asked for is that of a unit.
pub fn walks_answer<Ending>()
    ensures { WalksAnswer Ending }
{}
