//! Laws of the definitions, each the contract of a call that does nothing.
ghost use Rattle.s360_word.specs.Laws.{PackedRestores, PairOverflowIsALostBit, WordOverflowIsALostBit};

/// A signed left shift overflows just where a bit is lost that is unlike the sign.
pub fn shift_overflow_is_a_lost_bit()
    ensures word { WordOverflowIsALostBit }
    ensures pair { PairOverflowIsALostBit }
{}

/// A word as a packed decimal number, in either mode, is read as that word.
pub fn packed_restores()
    ensures { PackedRestores }
{}
