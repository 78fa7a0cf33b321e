//! The last stores into places, also where the value stayed.
ghost use Rattle.std.specs.Prelude.{◌≡◌, ◌++◌, IfOk, OnErr, OnOk};
ghost use Rattle.s360_machine.specs.Machine.{seen};
ghost use Rattle.s360_journal.specs.Recorded.{with_standing};
ghost use Rattle.s360_inquiry.specs.Changes.{just_before};
ghost use Rattle.s360_inquiry.specs.Stores.{is_altered, is_last_change, span_in, span_line, span_line_if, span_stored, spanned};
ghost use Rattle.s360_inquiry.specs.Stores.{store_text, stored_by, stored_next, stores_text, told_stores};

use crate::change::{go_before, push_event_of};
use crate::extent::{Extent, places_of, push_extent, push_words};
use crate::going::go_to;
use crate::search::{Sought, last_numbers};
use s360_debug::text_of_line;
use s360_journal::Session;
use s360_machine::Machine;
use s360_source::Footprint;
use s360_store::{GREATEST_SIZE, Place};
use s360_text::Text;
use std::alloc::{AllocError, Global};

/// A place with the span behind it, if there is one: the bytes from the first to the last.
fn spanned(place: Place, span: Option<Extent>) -> Extent
    ensures { result ≡ spanned place span }
{
    match (place, span) {
        (Place::Byte(at), Some(Extent::Bytes { first, last })) => Extent::Bytes {
            first: at.min(first),
            last: at.max(last),
        },
        (place, _) => Extent::of(place),
    }
}

/// The span of those of the places that are in an extent.
pub(crate) fn span_in(extent: Extent, places: &[Place]) -> Option<Extent>
    ensures { result ≡ span_in extent places.now }
{
    let mut span = None;
    for index in (0..places.len()).rev() {
        let place = places[index];
        if extent.has(place) {
            span = Some(spanned(place, span));
        }
    }
    span
}

/// The places that an event stores into in the machine that meets it; none if it is refused. A place may be there more than once.
/// The one error is want of memory.
pub fn stored_by(alloc: Global, footprint: &Footprint<'_>) -> Result<Vec<Place>, AllocError>
    ensures { IfOk result (λ places. places.items ≡ stored_by footprint.now.machine footprint.now.event) }
{
    let machine = footprint.machine();
    // So the bytes of a patch that is not refused have addresses of 32 bits.
    prove!(machine.storage().size() <= GREATEST_SIZE);
    match machine.refusal(footprint.event()) {
        Some(_) => Ok(Vec::new(alloc)),
        None => footprint.stored(alloc),
    }
}

/// The places that the next event of the record stores into.
#[tactic(auto, unfolding(crate::specs::Stores::stored_next))]
pub(crate) fn stored_next(alloc: Global, recording: &Session) -> Result<Vec<Place>, AllocError>
    ensures { IfOk result (λ places. places.items ≡ stored_next recording.now) }
{
    let event = recording.next_event()?;
    stored_by(alloc, &Footprint::new(alloc, recording.machine(), &event)?)
}

/// What the next event of the record stores in an extent.
pub(crate) fn span_stored(
    alloc: Global,
    recording: &Session,
    extent: Extent,
) -> Result<Option<Extent>, AllocError>
    ensures { IfOk result (λ span. span ≡ span_stored extent recording.now) }
{
    let places = stored_next(alloc, recording)?;
    Ok(span_in(extent, places.as_slice()))
}

/// Whether the last change of a place is the one of a number.
fn is_last_change(recording: &Session, number: u32, place: Place) -> bool
    ensures { result ≡ is_last_change recording.now number place }
{
    match recording.last_change(place) {
        Some(last) => number == last,
        None => false,
    }
}

/// Whether the change of a number is the last one of a place of a span.
fn is_altered(
    alloc: Global,
    recording: &Session,
    number: u32,
    span: Extent,
) -> Result<bool, AllocError>
    ensures { IfOk result (λ altered. altered ≡ is_altered recording.now number span) }
{
    let places = places_of(alloc, span)?;
    Ok(
        places
            .iter()
            .any(|place| is_last_change(recording, number, *place)),
    )
}

/// Adds what the event of a change stored. The recording goes to just after it.
fn push_span(
    alloc: Global,
    text: &mut Text,
    recording: &mut Session,
    number: u32,
    span: Extent,
) -> Result<(), AllocError>
    requires before { recording.old ≡ just_before recording.old number }
    ensures text { OnOk result (text.new ≡ text.old ++ span_line recording.old number span) }
    ensures state { recording.new ≡ with_standing recording.old recording.new.standing }
{
    push_extent(text, span)?;
    push_words(text, recording.machine(), span)?;
    go_to(recording, number)?;
    if is_altered(alloc, recording, number, span)? {
        text.push_text(" ->")?;
    } else {
        text.push_text(" =")?;
    }
    push_words(text, recording.machine(), span)?;
    text.push_text("\n")
}

/// Adds a store: its event, and what that stored. The recording is left at some change.
fn push_store(
    alloc: Global,
    text: &mut Text,
    recording: &mut Session,
    extent: Extent,
    number: u32,
) -> Result<(), AllocError>
    ensures text { OnOk result (text.new ≡ text.old ++ store_text recording.old extent number) }
    ensures state { recording.new ≡ with_standing recording.old recording.new.standing }
{
    let kind = go_before(recording, number)?;
    push_event_of(text, number, recording.machine(), kind)?;
    text.push_text("\n")?;
    match span_stored(alloc, recording, extent)? {
        Some(span) => {
            push_span(alloc, text, recording, number, span)?;
            Ok(())
        }
        None => Ok(()),
    }
}

/// Tells stores.
fn tell_stores(
    alloc: Global,
    recording: &mut Session,
    extent: Extent,
    numbers: &[u32],
) -> Result<Text, AllocError>
    ensures text { IfOk result (λ text. text ≡ told_stores recording.old extent numbers.now) }
    ensures state { recording.new ≡ with_standing recording.old recording.new.standing }
{
    if numbers.is_empty() {
        return text_of_line(alloc, "stores none");
    }
    let mut text = Text::new(alloc);
    for number in numbers {
        push_store(alloc, &mut text, recording, extent, *number)?;
    }
    Ok(text)
}

/// Tells the last stores into an extent, so many at most, the oldest first. The recording stands where it stood; want of memory
/// leaves it at some change.
pub(crate) fn answer_stores(
    alloc: Global,
    recording: &mut Session,
    extent: Extent,
    most: u32,
) -> Result<Text, AllocError>
    ensures text { IfOk result (λ text. text ≡ stores_text recording.old extent most) }
    ensures state { OnOk result (recording.new ≡ recording.old) }
    ensures memory { OnErr result (recording.new ≡ with_standing recording.old recording.new.standing) }
{
    let standing = recording.standing();
    let numbers = last_numbers(alloc, recording, Sought::Stores(extent), most as usize)?;
    let text = tell_stores(alloc, recording, extent, numbers.as_slice())?;
    go_to(recording, standing)?;
    Ok(text)
}
