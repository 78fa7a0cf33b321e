//! The places that an event can alter, in their order, and a place with a value of it.
ghost use Rattle.std.specs.Prelude.{◌≡◌};
ghost use Rattle.s360_store.specs.Places.{same_place};

use s360_word::Unit;

/// A place of the machine. The order is that of the variants, and within one that of its numbers.
#[derive(Clone, Copy, Debug, Default, PartialEq, Eq, PartialOrd, Ord, Hash)]
pub enum Place {
    /// The current program status word.
    #[default]
    Psw,
    /// A general register, by its number from 0 to 15.
    Register(u8),
    /// The byte of storage at an address.
    Byte(u32),
    /// The storage key and the fetch bit of a block of 2,048 bytes, by the block's number from 0.
    Key(u32),
    /// The run state.
    Run,
    /// The pending external conditions.
    External,
    /// The state and the attention of a unit.
    UnitState(Unit),
    /// The sense and the media of a unit.
    UnitMedia(Unit),
}

/// A place with a value of it: a PSW's 64 bits, a register's word, a byte, or the number of a key and
/// its fetch bit.
#[derive(Clone, Copy, Default)]
pub struct Cell {
    pub place: Place,
    pub value: u64,
}

impl Place {
    /// Whether it is the other place.
    pub fn is(self, other: Place) -> bool
        ensures { result ≡ same_place self other }
    {
        self == other
    }
}
