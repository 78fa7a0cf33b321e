//! Laws of the definitions, the contracts of calls that do nothing.
ghost use Rattle.s360_device.specs.Differences.{DecidesEquality};
ghost use Rattle.s360_print.specs.Differences.{same_console, same_printer};
ghost use Rattle.s360_print.specs.Laws.{SignsInvert, SkipGoesToFirstLine};

/// Where a byte has a sign, the sign is that byte's alone, and the other way round.
pub fn signs_invert()
    ensures { SignsInvert }
{}

/// A skip goes to a line of the channel, at most a page further on, and no line in between has it.
pub fn skip_goes_to_first_line()
    ensures { SkipGoesToFirstLine }
{}

/// Two printers, or two consoles, are alike by their test exactly if they are equal.
pub fn same_printers_and_consoles_are_equal()
    ensures printer { DecidesEquality same_printer }
    ensures console { DecidesEquality same_console }
{}
