//! A law of the definitions, the contract of a call that does nothing.
ghost use Rattle.s360_condition.specs.Laws.{ExpressionsRunByThePc};

/// The instructions that are read from bytes have the value that the manual's machine finds in the bytes: it carries out
/// the instruction at its pc, which sets the pc. It takes no more steps than there are bytes.
pub fn expressions_run_by_the_pc()
    ensures { ExpressionsRunByThePc }
{}
