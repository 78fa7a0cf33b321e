//! Where a value comes from: the event that stored it last, also an equal value, or the start.
ghost use Rattle.std.specs.Prelude.{◌≡◌, ◌++◌, IfOk, OnErr, OnOk};
ghost use Rattle.s360_journal.specs.Recorded.{with_standing};
ghost use Rattle.s360_inquiry.specs.Origins.{is_followed, is_patch, origin_in, origin_of_event, origin_words, same_origin};

use crate::extent::Extent;
use crate::going::go_to;
use crate::search::{Sought, last_number};
use s360_journal::Session;
use s360_machine::EventKind;
use s360_store::Place;
use s360_text::Text;
use std::alloc::{AllocError, Global};

/// Where a value comes from.
#[derive(Clone, Copy)]
pub(crate) enum Origin {
    /// It is a place that is told and not followed.
    NotFollowed,
    /// No standing event stored it: it was there at the start.
    Start,
    /// The patch of this number.
    Patch(u32),
    /// Another event, of this number.
    Event(u32),
}

impl Origin {
    /// Whether both are one.
    pub(crate) fn is(self, other: Origin) -> bool
        ensures { result ≡ same_origin self other }
    {
        match (self, other) {
            (Origin::NotFollowed, Origin::NotFollowed) | (Origin::Start, Origin::Start) => true,
            (Origin::Patch(one), Origin::Patch(other)) => one == other,
            (Origin::Event(one), Origin::Event(other)) => one == other,
            _ => false,
        }
    }

    /// An event of a number and of this kind.
    pub(crate) fn of_event(number: u32, kind: Option<EventKind>) -> Origin
        ensures { result ≡ origin_of_event number kind }
    {
        match kind {
            Some(EventKind::Patch(_)) => Origin::Patch(number),
            _ => Origin::Event(number),
        }
    }
}

/// Whether it is told where the value of a place comes from: each instruction alters the PSW, and each command a device.
pub(crate) fn is_followed(place: Place) -> bool
    ensures { result ≡ is_followed place }
{
    !matches!(place, Place::Psw | Place::UnitMedia(_))
}

/// Looks where the value of a place comes from. The recording is left at some change.
pub(crate) fn find_origin(
    alloc: Global,
    recording: &mut Session,
    place: Place,
) -> Result<Origin, AllocError>
    ensures origin { IfOk result (λ origin. origin ≡ origin_in recording.old place) }
    ensures state { recording.new ≡ with_standing recording.old recording.new.standing }
{
    if !is_followed(place) {
        return Ok(Origin::NotFollowed);
    }
    match last_number(alloc, recording, Sought::Stores(Extent::of(place)), 0)? {
        Some(number) => {
            go_to(recording, number)?;
            Ok(Origin::of_event(number, recording.last_event()))
        }
        None => Ok(Origin::Start),
    }
}

/// Adds where a value comes from, after a blank.
pub(crate) fn push_origin(text: &mut Text, origin: Origin) -> Result<(), AllocError>
    ensures { OnOk result (text.new ≡ text.old ++ origin_words origin) }
{
    match origin {
        Origin::NotFollowed => Ok(()),
        Origin::Start => text.push_text(" from the start"),
        Origin::Patch(number) => text.push_counted(" by patch ", u64::from(number)),
        Origin::Event(number) => {
            text.push_counted(" (", u64::from(number))?;
            text.push_text(")")
        }
    }
}
