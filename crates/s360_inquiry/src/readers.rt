//! The events that read places since the last store there, and what they made of them.
ghost use Rattle.std.specs.Prelude.{◌≡◌, ◌++◌, IfOk, OnErr, OnOk};
ghost use Rattle.s360_machine.specs.Machine.{seen};
ghost use Rattle.s360_journal.specs.Recorded.{with_standing};
ghost use Rattle.s360_inquiry.specs.Changes.{just_before};
ghost use Rattle.s360_inquiry.specs.Readers.{has_some, is_decided_by, is_made_of, made_among, made_by, made_line, made_lines, made_next};
ghost use Rattle.s360_inquiry.specs.Readers.{reader_text, readers_text, reads_next, told_readers};
ghost use Rattle.s360_inquiry.specs.Stores.{just_after};

use crate::change::{go_before, push_event_of};
use crate::extent::{Extent, push_extent, push_words, runs_of};
use crate::going::go_to;
use crate::place_set::{insert_each, list_of};
use crate::search::{Sought, last_numbers};
use crate::storing::stored_by;
use s360_debug::text_of_line;
use s360_journal::Session;
use s360_machine::Machine;
use s360_source::Footprint;
use s360_store::Place;
use s360_text::Text;
use std::alloc::{AllocError, Global};
use std::collections::BTreeSet;

/// Whether what stands at a place after an event was made of an extent.
fn is_made_of(
    alloc: Global,
    footprint: &Footprint<'_>,
    extent: Extent,
    place: Place,
) -> Result<bool, AllocError>
    ensures { IfOk result (λ made. made ≡ is_made_of footprint.now.machine footprint.now.event extent place) }
{
    let sources = footprint.sources(alloc, place)?;
    Ok(sources.iter().any(|source| extent.has(*source)))
}

/// Those of some places that an event makes of an extent, in their order, each once.
fn made_among(
    alloc: Global,
    footprint: &Footprint<'_>,
    extent: Extent,
    places: &[Place],
) -> Result<Vec<Place>, AllocError>
    ensures { IfOk result (λ made. made.items ≡ made_among footprint.now.machine footprint.now.event extent places.now) }
{
    let mut made = BTreeSet::new(alloc);
    for index in (0..places.len()).rev() {
        let place = places[index];
        if is_made_of(alloc, footprint, extent, place)? {
            insert_each(&mut made, &[place])?;
        }
    }
    let list = list_of(alloc, &made)?;
    Ok(list)
}

/// The places that an event stores and makes of an extent.
#[tactic(auto, unfolding(crate::specs::Readers::made_by))]
fn made_by(
    alloc: Global,
    footprint: &Footprint<'_>,
    extent: Extent,
) -> Result<Vec<Place>, AllocError>
    ensures { IfOk result (λ made. made.items ≡ made_by footprint.now.machine footprint.now.event extent) }
{
    let stored = stored_by(alloc, footprint)?;
    let made = made_among(alloc, footprint, extent, stored.as_slice())?;
    Ok(made)
}

/// Whether an event is decided by an extent.
fn is_decided_by(
    alloc: Global,
    footprint: &Footprint<'_>,
    extent: Extent,
) -> Result<bool, AllocError>
    ensures { IfOk result (λ decided. decided ≡ is_decided_by footprint.now.machine footprint.now.event extent) }
{
    let deciders = footprint.deciders(alloc)?;
    Ok(deciders.iter().any(|decider| extent.has(*decider)))
}

/// Whether there are places.
fn has_some(places: &[Place]) -> bool
    ensures { result ≡ has_some places.now }
{
    match places {
        [] => false,
        _ => true,
    }
}

/// Whether the next event of the record reads a place of an extent.
#[tactic(auto, unfolding(crate::specs::Readers::reads_next))]
pub(crate) fn reads_next(
    alloc: Global,
    recording: &Session,
    extent: Extent,
) -> Result<bool, AllocError>
    ensures { IfOk result (λ reads. reads ≡ reads_next extent recording.now) }
{
    let event = recording.next_event()?;
    let footprint = Footprint::new(alloc, recording.machine(), &event)?;
    if is_decided_by(alloc, &footprint, extent)? {
        return Ok(true);
    }
    let made = made_by(alloc, &footprint, extent)?;
    Ok(has_some(made.as_slice()))
}

/// What the next event of the record makes of an extent.
fn made_next(alloc: Global, recording: &Session, extent: Extent) -> Result<Vec<Extent>, AllocError>
    ensures { IfOk result (λ made. made.items ≡ made_next extent recording.now) }
{
    let event = recording.next_event()?;
    let footprint = Footprint::new(alloc, recording.machine(), &event)?;
    let made = made_by(alloc, &footprint, extent)?;
    runs_of(alloc, made.as_slice())
}

/// Adds an extent with its value.
fn push_made(text: &mut Text, machine: &Machine, made: Extent) -> Result<(), AllocError>
    ensures { OnOk result (text.new ≡ text.old ++ made_line (seen machine.now.whole) made) }
{
    push_extent(text, made)?;
    push_words(text, machine, made)?;
    text.push_text("\n")
}

/// Adds what a reader made, or that it was decided.
fn push_all_made(text: &mut Text, machine: &Machine, made: &[Extent]) -> Result<(), AllocError>
    ensures { OnOk result (text.new ≡ text.old ++ made_lines (seen machine.now.whole) made.now) }
{
    if made.is_empty() {
        return text.push_text("decides\n");
    }
    for extent in made {
        push_made(text, machine, *extent)?;
    }
    Ok(())
}

/// Adds a reader: its event, and what that made. The recording is left at some change.
fn push_reader(
    alloc: Global,
    text: &mut Text,
    recording: &mut Session,
    extent: Extent,
    number: u32,
) -> Result<(), AllocError>
    ensures text { OnOk result (text.new ≡ text.old ++ reader_text recording.old extent number) }
    ensures state { recording.new ≡ with_standing recording.old recording.new.standing }
{
    let kind = go_before(recording, number)?;
    push_event_of(text, number, recording.machine(), kind)?;
    text.push_text("\n")?;
    let made = made_next(alloc, recording, extent)?;
    go_to(recording, number)?;
    push_all_made(text, recording.machine(), made.as_slice())?;
    Ok(())
}

/// Tells readers.
fn tell_readers(
    alloc: Global,
    recording: &mut Session,
    extent: Extent,
    numbers: &[u32],
) -> Result<Text, AllocError>
    ensures text { IfOk result (λ text. text ≡ told_readers recording.old extent numbers.now) }
    ensures state { recording.new ≡ with_standing recording.old recording.new.standing }
{
    if numbers.is_empty() {
        return text_of_line(alloc, "readers none");
    }
    let mut text = Text::new(alloc);
    for number in numbers {
        push_reader(alloc, &mut text, recording, extent, *number)?;
    }
    Ok(text)
}

/// Tells the last readers of an extent since the last store there, so many at most, the oldest first. The recording stands where
/// it stood; want of memory leaves it at some change.
pub(crate) fn answer_readers(
    alloc: Global,
    recording: &mut Session,
    extent: Extent,
    most: u32,
) -> Result<Text, AllocError>
    ensures text { IfOk result (λ text. text ≡ readers_text recording.old extent most) }
    ensures state { OnOk result (recording.new ≡ recording.old) }
    ensures memory { OnErr result (recording.new ≡ with_standing recording.old recording.new.standing) }
{
    let standing = recording.standing();
    let numbers = last_numbers(alloc, recording, Sought::Readers(extent), most as usize)?;
    let text = tell_readers(alloc, recording, extent, numbers.as_slice())?;
    go_to(recording, standing)?;
    Ok(text)
}
