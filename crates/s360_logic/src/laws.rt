//! A law of the definitions, the contract of a call that does nothing.
ghost use Rattle.s360_logic.specs.RightToLeft.{DigitsOfApartOperands};

/// Of operands that share no byte, MOVE WITH OFFSET, PACK and UNPACK make each byte of the result of the
/// second operand as it stood before, and alter nothing else of storage.
pub fn digits_of_apart_operands()
    ensures { DigitsOfApartOperands }
{}
