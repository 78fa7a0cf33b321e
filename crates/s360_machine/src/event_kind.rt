//! What an event is, without what it carries.
ghost use Rattle.std.specs.Prelude.{◌≡◌};
ghost use Rattle.s360_machine.specs.EventKinds.{kind_of_event, kind_of_key, kind_of_patch};

use crate::event::{Event, Patch};
use crate::operator::Key;
use s360_word::Unit;

/// What kind of key the operator presses.
#[derive(Clone, Copy, Debug)]
pub enum KeyKind {
    /// The start key.
    Start,
    /// The stop key.
    Stop,
    /// The reset key.
    Reset,
    /// The interrupt key.
    Interrupt,
    /// The card reader's end-of-file key.
    EndOfFile,
    /// The console's request key.
    Request,
    /// A line that is entered at the console.
    Enter,
    /// The load key with this unit selected.
    Load(Unit),
}

/// What a patch puts.
#[derive(Clone, Copy, Debug, PartialEq, Eq)]
pub enum PatchKind {
    /// Bytes of storage.
    Bytes,
    /// A general register's word.
    Register,
    /// A storage key.
    StorageKey,
    /// A fetch bit.
    FetchBit,
    /// The current PSW.
    Psw,
}

/// What kind of event happens: what its name says of it.
#[derive(Clone, Copy, Debug)]
pub enum EventKind {
    /// Of the central processing unit.
    Cpu,
    /// Of the channel of this unit.
    Channel(Unit),
    /// Of the timer.
    Tick,
    /// Of the operator.
    Key(KeyKind),
    /// A patch.
    Patch(PatchKind),
}

impl Key {
    /// Its kind.
    pub fn kind(&self) -> KeyKind
        ensures { result ≡ kind_of_key self.now }
    {
        match self {
            Key::Start => KeyKind::Start,
            Key::Stop => KeyKind::Stop,
            Key::Reset => KeyKind::Reset,
            Key::Interrupt => KeyKind::Interrupt,
            Key::EndOfFile => KeyKind::EndOfFile,
            Key::Request => KeyKind::Request,
            Key::Enter(_) => KeyKind::Enter,
            Key::Load(unit) => KeyKind::Load(*unit),
        }
    }
}

impl Patch {
    /// Its kind.
    pub fn kind(&self) -> PatchKind
        ensures { result ≡ kind_of_patch self.now }
    {
        match self {
            Patch::Bytes { .. } => PatchKind::Bytes,
            Patch::Register(..) => PatchKind::Register,
            Patch::StorageKey { .. } => PatchKind::StorageKey,
            Patch::FetchBit { .. } => PatchKind::FetchBit,
            Patch::Psw(_) => PatchKind::Psw,
        }
    }
}

impl Event {
    /// Its kind.
    pub fn kind(&self) -> EventKind
        ensures { result ≡ kind_of_event self.now }
    {
        match self {
            Event::Cpu => EventKind::Cpu,
            Event::Channel(unit) => EventKind::Channel(*unit),
            Event::Tick => EventKind::Tick,
            Event::Key(key) => EventKind::Key(key.kind()),
            Event::Patch(patch) => EventKind::Patch(patch.kind()),
        }
    }
}
