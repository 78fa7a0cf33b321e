//! What decided an event: places that say which event it was, and where, but no value that it moved.
ghost use Rattle.std.specs.Prelude.{◌≡◌, ◌++◌, IfOk, OnOk, map};
ghost use Rattle.s360_inquiry.specs.Causes.{decider_item, decider_origin, decider_words, deciders_next, origin_by_change};
ghost use Rattle.s360_inquiry.specs.Origins.{sourced};

use crate::cause::{Cause, Sourced, causes_from};
use crate::extent::{push_extent, push_words};
use crate::origin::Origin;
use crate::place_set::places_deciding;
use s360_journal::Session;
use s360_store::Place;
use s360_text::Text;
use std::alloc::{AllocError, Global};

/// What decides the event that comes next, in words.
pub(crate) fn deciders_next(alloc: Global, recording: &Session) -> Result<Vec<Text>, AllocError>
    ensures { IfOk result (λ items. items.items ≡ deciders_next recording.now) }
{
    let event = recording.next_event()?;
    let places = places_deciding(alloc, recording.machine(), &event)?;
    let deciders = with_changes(alloc, recording, places.as_slice())?;
    let mut items = Vec::new(alloc);
    for cause in causes_from(alloc, deciders.as_slice())?.iter() {
        items.push(decider_item(alloc, recording, *cause)?)?;
    }
    Ok(items)
}

/// Places with the changes that made their values last.
fn with_changes(
    alloc: Global,
    recording: &Session,
    places: &[Place],
) -> Result<Vec<Sourced>, AllocError>
    ensures { IfOk result (λ deciders. deciders.items ≡ map (sourced (decider_origin recording.now)) places.now) }
{
    let mut deciders = Vec::new(alloc);
    for place in places {
        deciders.push(Sourced {
            place: *place,
            origin: decider_origin(recording, *place),
        })?;
    }
    Ok(deciders)
}

/// The last change of a place that decides, if it has one that is told.
fn decider_origin(recording: &Session, place: Place) -> Origin
    ensures { result ≡ decider_origin recording.now place }
{
    match place {
        Place::Psw => Origin::NotFollowed,
        place => match recording.last_change(place) {
            Some(number) => Origin::Event(number),
            None => Origin::Start,
        },
    }
}

/// The name of a decider, after a blank, and what is told of it: the number of its last change, or the value of the PSW.
fn decider_item(alloc: Global, recording: &Session, cause: Cause) -> Result<Text, AllocError>
    ensures { IfOk result (λ item. item ≡ decider_item recording.now cause) }
{
    let mut item = Text::new(alloc);
    item.push_text(" ")?;
    push_extent(&mut item, cause.extent)?;
    match cause.origin {
        Origin::NotFollowed => push_words(&mut item, recording.machine(), cause.extent)?,
        Origin::Event(number) => {
            item.push_counted(" (", u64::from(number))?;
            item.push_text(")")?;
        }
        _ => {}
    }
    Ok(item)
}
