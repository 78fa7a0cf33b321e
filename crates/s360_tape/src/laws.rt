//! Laws of the definitions, the contracts of calls that do nothing.
ghost use Rattle.s360_device.specs.Differences.{DecidesEquality};
ghost use Rattle.s360_tape.specs.Differences.{same_tape};
ghost use Rattle.s360_tape.specs.ImageLaws.{FileOfItemsHasThem, FileHasItemsOnce, NoTapeFileHasFault, FileHasFaultOnce};

/// The items of the file of items are the items, and no others.
pub fn image_is_read_back()
    ensures items { FileOfItemsHasThem }
    ensures once { FileHasItemsOnce }
{}

/// A tape's file has no fault, and any other has one first fault.
pub fn fault_is_the_first()
    ensures none { NoTapeFileHasFault }
    ensures once { FileHasFaultOnce }
{}

/// Two tapes are alike by their test exactly if what is seen of them is equal.
pub fn same_tapes_are_equal()
    ensures { DecidesEquality same_tape }
{}
