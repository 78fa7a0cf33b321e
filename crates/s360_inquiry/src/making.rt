//! What an event made an extent of, and what was noted of a recording.
ghost use Rattle.std.specs.Prelude.{◌≡◌, ◌-◌, IfOk, IfSome, OnErr, OnOk, length, min};
ghost use Rattle.std.specs.List.{IsAmong};
ghost use Rattle.s360_journal.specs.Recorded.{with_standing};
ghost use Rattle.s360_inquiry.specs.Causes.{IsMaking, node_head, sources_next};
ghost use Rattle.s360_inquiry.specs.Changes.{just_before, kind_of_change, machine_after};
ghost use Rattle.s360_inquiry.specs.Extents.{extent_words};

use crate::change::push_event_of;
use crate::decider::deciders_next;
use crate::extent::{Extent, push_extent, push_words};
use crate::going::go_to;
use crate::origin::Origin;
use crate::place_set::places_before;
use s360_journal::Session;
use s360_machine::EventKind;
use s360_store::Place;
use s360_text::Text;
use std::alloc::{AllocError, Global};

/// An extent that an event made: how its line begins, the places that it was made of, and what decided the event.
#[derive(Drop)]
pub(crate) struct Making {
    pub(crate) number: u32,
    pub(crate) extent: Extent,
    pub(crate) head: Text,
    pub(crate) places: Vec<Place>,
    pub(crate) deciders: Vec<Text>,
}

/// Where the value that a place had at a moment came from: a moment is how many events stood.
#[derive(Clone, Copy)]
pub(crate) struct LastStore {
    pub(crate) place: Place,
    pub(crate) moment: u32,
    pub(crate) origin: Origin,
}

/// Goes to just after the event of a number, and answers the value of an extent there, and what the event is. Want of memory
/// leaves the recording there, or where it was.
fn value_after(
    alloc: Global,
    recording: &mut Session,
    extent: Extent,
    number: u32,
) -> Result<(Text, Option<EventKind>), AllocError>
    ensures value { IfOk result (λ r. r.0 ≡ extent_words (machine_after recording.old number) extent) }
    ensures kind { IfOk result (λ r. r.1 ≡ kind_of_change recording.old number) }
    ensures state { OnOk result (recording.new ≡ with_standing recording.old (min number (length recording.old.events))) }
    ensures memory { OnErr result (recording.new ≡ with_standing recording.old recording.new.standing) }
{
    go_to(recording, number)?;
    let mut value = Text::new(alloc);
    push_words(&mut value, recording.machine(), extent)?;
    Ok((value, recording.last_event()))
}

/// Goes to just before the event of a number, and answers how the line of an extent that it made begins. Want of memory leaves the
/// recording at some change.
fn head_of(
    alloc: Global,
    recording: &mut Session,
    number: u32,
    extent: Extent,
) -> Result<Text, AllocError>
    ensures head { IfOk result (λ head. head ≡ node_head recording.old number extent) }
    ensures state { OnOk result (recording.new ≡ just_before recording.old number) }
    ensures memory { OnErr result (recording.new ≡ with_standing recording.old recording.new.standing) }
{
    let (value, kind) = value_after(alloc, recording, extent, number)?;
    let _before = recording.back_to(number.saturating_sub(1));
    let mut head = Text::new(alloc);
    push_event_of(&mut head, number, recording.machine(), kind)?;
    head.push_text(": ")?;
    push_extent(&mut head, extent)?;
    head.push_bytes(value.as_bytes())?;
    Ok(head)
}

/// The places that the event that comes next makes an extent of.
fn sources_next(
    alloc: Global,
    recording: &Session,
    extent: Extent,
) -> Result<Vec<Place>, AllocError>
    ensures { IfOk result (λ places. places.items ≡ sources_next recording.now extent) }
{
    let event = recording.next_event()?;
    places_before(alloc, recording.machine(), &event, extent)
}

/// Goes to just before the event of a number, and answers what it made an extent of. Want of memory leaves the recording at some
/// change.
pub(crate) fn making_of(
    alloc: Global,
    recording: &mut Session,
    number: u32,
    extent: Extent,
) -> Result<Making, AllocError>
    ensures making { IfOk result (λ making. IsMaking (with_standing recording.old 0) making) }
    ensures number { IfOk result (λ making. making.number ≡ number) }
    ensures extent { IfOk result (λ making. making.extent ≡ extent) }
    ensures state { OnOk result (recording.new ≡ just_before recording.old number) }
    ensures memory { OnErr result (recording.new ≡ with_standing recording.old recording.new.standing) }
{
    let head = head_of(alloc, recording, number, extent)?;
    let places = sources_next(alloc, recording, extent)?;
    let deciders = deciders_next(alloc, recording)?;
    Ok(Making {
        number,
        extent,
        head,
        places,
        deciders,
    })
}

/// What was noted of an event and an extent.
pub(crate) fn noted_making(makings: &[Making], number: u32, extent: Extent) -> Option<&Making>
    ensures among { IfSome result (λ making. IsAmong makings.now making.now) }
    ensures number { IfSome result (λ making. making.now.number ≡ number) }
    ensures extent { IfSome result (λ making. making.now.extent ≡ extent) }
{
    makings.iter().find(|making| making.number == number && making.extent == extent)
}

/// What was noted of a place and a moment.
pub(crate) fn noted_store(stores: &[LastStore], place: Place, moment: u32) -> Option<&LastStore>
    ensures among { IfSome result (λ store. IsAmong stores.now store.now) }
    ensures place { IfSome result (λ store. store.now.place ≡ place) }
    ensures moment { IfSome result (λ store. store.now.moment ≡ moment) }
{
    stores
        .iter()
        .find(|store| store.moment == moment && store.place.is(place))
}
