//! Laws of the definitions, each the contract of a call that does nothing.
ghost use Rattle.s360_device.specs.Differences.{DecidesEquality, same_punch, same_reader};
ghost use Rattle.s360_device.specs.Laws.{NoDeckFileIsShort, ShortFileHasShortCard};

/// The file of a deck has no short card; a file with one is that of a deck up to where the card
/// starts, and what is left is less than a card.
pub fn short_card_is_what_is_left()
    ensures whole { NoDeckFileIsShort }
    ensures short { ShortFileHasShortCard }
{}

/// Two readers, or two punches, are alike by their test exactly if they are equal.
pub fn same_readers_and_punches_are_equal()
    ensures reader { DecidesEquality same_reader }
    ensures punch { DecidesEquality same_punch }
{}
