//! Laws of the definitions, each the contract of a call that does nothing.
ghost use Rattle.s360_remote.specs.Registers.{BothWordsAreThePsw};

/// The PSW of both its words is the PSW.
pub fn both_words_are_the_psw()
    ensures { BothWordsAreThePsw }
{}
