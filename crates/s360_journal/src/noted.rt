//! An event as it is recorded: a byte, and what it carries apart.
ghost use Rattle.std.specs.Option.{option_copied, option_map};
ghost use Rattle.std.specs.Prelude.{◌≡◌, ◌↔◌, IfOk, IsTrue};
ghost use Rattle.s360_machine.specs.EventKinds.{kind_of_event};
ghost use Rattle.s360_journal.specs.Noted.{event_noted, event_of_tag};

use s360_machine::{Event, EventKind, Key, KeyKind};
use s360_word::Unit;
use std::alloc::AllocError;

/// What an event is, in a byte.
#[derive(Clone, Copy, PartialEq, Eq)]
pub(crate) enum Tag {
    /// Of the central processing unit.
    Cpu,
    /// Of a channel, whose unit stands apart.
    Channel,
    /// Of the timer.
    Tick,
    /// The load key, whose unit stands apart.
    Load,
    /// Any other, which stands apart.
    Other,
}

/// An event, where it stands.
#[derive(Clone, Copy)]
pub(crate) enum Noted<'a> {
    /// Of the central processing unit.
    Cpu,
    /// Of the channel of this unit.
    Channel(Unit),
    /// Of the timer.
    Tick,
    /// The load key with this unit selected.
    Load(Unit),
    /// Any other.
    Other(&'a Event),
}

/// The event of a tag, with the unit and the whole event that are the nearest apart.
#[inline(always)]
pub(crate) fn note_of<'a>(
    tag: Option<&Tag>,
    unit: Option<&Unit>,
    event: Option<&'a Event>,
) -> Option<Noted<'a>>
    ensures { option_map event_noted result ≡ event_of_tag (option_copied tag.entry) (option_copied unit.entry) (option_copied event.entry) }
{
    match *tag? {
        Tag::Cpu => Some(Noted::Cpu),
        Tag::Tick => Some(Noted::Tick),
        Tag::Channel => Some(Noted::Channel(*unit?)),
        Tag::Load => Some(Noted::Load(*unit?)),
        Tag::Other => Some(Noted::Other(event?)),
    }
}

impl Noted<'_> {
    /// An event that is equal to it.
    pub(crate) fn event(self) -> Result<Event, AllocError>
        ensures { IfOk result (λ event. event ≡ event_noted self.entry) }
    {
        match self {
            Noted::Cpu => Ok(Event::Cpu),
            Noted::Channel(unit) => Ok(Event::Channel(unit)),
            Noted::Tick => Ok(Event::Tick),
            Noted::Load(unit) => Ok(Event::Key(Key::Load(unit))),
            Noted::Other(event) => event.clone(),
        }
    }

    /// Whether an event is equal to it.
    pub(crate) fn is(self, event: &Event) -> bool
        ensures { IsTrue result ↔ (event_noted self.entry ≡ event.now) }
    {
        match (self, event) {
            (Noted::Cpu, Event::Cpu) | (Noted::Tick, Event::Tick) => true,
            (Noted::Channel(unit), Event::Channel(other)) => unit == *other,
            (Noted::Load(unit), Event::Key(Key::Load(other))) => unit == *other,
            (Noted::Other(own), other) => own == other,
            _ => false,
        }
    }

    /// What it is.
    pub(crate) fn kind(self) -> EventKind
        ensures { result ≡ kind_of_event (event_noted self.entry) }
    {
        match self {
            Noted::Cpu => EventKind::Cpu,
            Noted::Channel(unit) => EventKind::Channel(unit),
            Noted::Tick => EventKind::Tick,
            Noted::Load(unit) => EventKind::Key(KeyKind::Load(unit)),
            Noted::Other(event) => event.kind(),
        }
    }
}
