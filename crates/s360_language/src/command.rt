//! The commands of the script language, one a line.
ghost use Rattle.std.specs.Prelude.{◌≡◌};
ghost use Rattle.s360_language.specs.Commands.{event_of};
ghost use Rattle.s360_language.specs.declared.command.LineFault.TheVariants.{Memory};

use s360_machine::{Event, Key, Patch};
use s360_store::Place;
use s360_word::Unit;
use std::alloc::AllocError;
use thiserror::Error;

/// A command with its arguments: a variant for each first word, but one for the three that press a key.
#[derive(Drop)]
pub enum Command {
    /// `step`: one CPU event.
    Step,
    /// `channel U`: one channel event of a unit.
    Channel(Unit),
    /// `tick`: the timer counts down.
    Tick,
    /// `key`, `enter` and `load U`: the operator presses a key.
    Key(Key),
    /// `patch`: a part of the machine is given a value from outside.
    Patch(Patch),
    /// `back`: the last change is taken back.
    Back,
    /// `standing`: the number of changes that stand.
    Standing,
    /// `last`: the number of the last change that altered a place.
    Last(Place),
    /// `show`: a part of the machine.
    Show(Shown),
    /// `break A`: a breakpoint is set at an address.
    Break { at: u32 },
    /// `clear A`: the breakpoint at an address is cleared.
    Clear { at: u32 },
    /// `until`: changes are taken back to the last stop at a breakpoint.
    Until,
    /// `withdraw N`: the change of this number is withdrawn from among those that stand.
    Withdraw { number: u32 },
    /// `run N`: at most so many events are offered, each the one whose turn it is.
    Run { most: u32 },
}

impl Command {
    /// The event that the command offers, if it offers one.
    pub fn into_event(self) -> Option<Event>
        ensures { result ≡ event_of self }
    {
        match self {
            Command::Step => Some(Event::Cpu),
            Command::Channel(unit) => Some(Event::Channel(unit)),
            Command::Tick => Some(Event::Tick),
            Command::Key(key) => Some(Event::Key(key)),
            Command::Patch(patch) => Some(Event::Patch(patch)),
            Command::Back
            | Command::Standing
            | Command::Last(_)
            | Command::Show(_)
            | Command::Break { .. }
            | Command::Clear { .. }
            | Command::Until
            | Command::Withdraw { .. }
            | Command::Run { .. } => None,
        }
    }
}

/// What is shown of the machine.
#[derive(Clone, Copy)]
pub enum Shown {
    /// `show regs`: the general registers.
    Registers,
    /// `show psw`: the PSW and the run state.
    Psw,
    /// `show s A N`: so many bytes of storage from an address on.
    Storage { at: u32, count: u32 },
    /// `show k A`: the storage key of the block that an address lies in, and its fetch bit if fetches are
    /// protected.
    StorageKey { at: u32 },
    /// `show ext`: the pending external conditions.
    External,
    /// `show u U`: what the channel does for a unit.
    UnitState(Unit),
    /// `show d U`: the sense byte of a unit's device, or all six of a tape, and its media in numbers.
    Device(Unit),
    /// `show m U N`: an item of a unit's media, by its number from 1.
    Item { unit: Unit, number: u32 },
    /// `show image U`: the file of a unit's tape.
    Image(Unit),
}

/// Why a line is no command, in the order in which it is found.
#[derive(Clone, Copy, Debug, PartialEq, Eq, Error)]
pub enum LineFault {
    /// The line has more than 1,024 bytes.
    #[error("line too long")]
    LineTooLong,
    /// The first word is no command.
    #[error("unknown")]
    Unknown,
    /// The word of this number, the first that is wrong, missing or too many. The first word of a
    /// line has the number 0.
    #[error("argument {0}")]
    Argument(u8),
    /// A growth was refused.
    #[error("out of memory")]
    Memory,
}

impl From<AllocError> for LineFault {
    ghost from_gives = { λ _ e. e ≡ Memory };

    fn from(_e: AllocError) -> LineFault {
        LineFault::Memory
    }
}
