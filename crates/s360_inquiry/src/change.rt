//! A change of a place: its event, and the place's value before and after. Values are read by going there.
ghost use Rattle.std.specs.Prelude.{◌≡◌, ◌++◌, ◌-◌, length, min, IfOk, OnErr, OnOk};
ghost use Rattle.s360_machine.specs.Machine.{seen};
ghost use Rattle.s360_journal.specs.Recorded.{with_standing};
ghost use Rattle.s360_inquiry.specs.Changes.{change_text, changes_text, event_words, just_before, kind_words, last_change_in};
ghost use Rattle.s360_inquiry.specs.Changes.{kind_of_change, last_of, machine_after, stands_after_who, told_changes};
ghost use Rattle.s360_inquiry.specs.Changes.{told_text, who_text};
ghost use Rattle.s360_language.specs.Values.{value_words};

use crate::going::go_to;
use crate::happening::push_happening;
use s360_debug::text_of_line;
use s360_journal::Session;
use s360_language::{push_place, push_value};
use s360_machine::{EventKind, Machine};
use s360_store::Place;
use s360_text::Text;
use std::alloc::{AllocError, Global};

/// So many are told at most.
pub(crate) const MOST_TOLD: u32 = 1000;

/// Adds the number of an event, and what it is to the machine that it meets.
pub(crate) fn push_event_of(
    text: &mut Text,
    number: u32,
    machine: &Machine,
    kind: Option<EventKind>,
) -> Result<(), AllocError>
    ensures { OnOk result (text.new ≡ text.old ++ event_words number (seen machine.now.whole) kind) }
{
    text.push_decimal(u64::from(number))?;
    text.push_text(" ")?;
    push_kind(text, machine, kind)?;
    Ok(())
}

/// Adds what an event is to the machine that it meets, if there is one.
fn push_kind(text: &mut Text, machine: &Machine, kind: Option<EventKind>) -> Result<(), AllocError>
    ensures { OnOk result (text.new ≡ text.old ++ kind_words (seen machine.now.whole) kind) }
{
    match kind {
        Some(kind) => push_happening(text, machine, kind),
        None => Ok(()),
    }
}

/// Goes to just after the change of a number, and answers the value of a place there, and what the change's event is. Want of
/// memory leaves the recording there, or where it was.
fn value_after(
    alloc: Global,
    recording: &mut Session,
    place: Place,
    number: u32,
) -> Result<(Text, Option<EventKind>), AllocError>
    ensures value { IfOk result (λ r. r.0 ≡ value_words (machine_after recording.old number) place) }
    ensures kind { IfOk result (λ r. r.1 ≡ kind_of_change recording.old number) }
    ensures state { OnOk result (recording.new ≡ with_standing recording.old (min number (length recording.old.events))) }
    ensures memory { OnErr result (recording.new ≡ with_standing recording.old recording.new.standing) }
{
    go_to(recording, number)?;
    let mut value = Text::new(alloc);
    push_value(&mut value, recording.machine(), place)?;
    Ok((value, recording.last_event()))
}

/// Goes to just before the change of a number, and answers what its event is. Want of memory leaves the recording at some
/// change.
pub(crate) fn go_before(
    recording: &mut Session,
    number: u32,
) -> Result<Option<EventKind>, AllocError>
    ensures kind { IfOk result (λ kind. kind ≡ kind_of_change recording.old number) }
    ensures state { OnOk result (recording.new ≡ just_before recording.old number) }
    ensures memory { OnErr result (recording.new ≡ with_standing recording.old recording.new.standing) }
{
    go_to(recording, number)?;
    let kind = recording.last_event();
    let _before = recording.back_to(number.saturating_sub(1));
    Ok(kind)
}

/// Adds the event of a change, and the value of a place in the machine that it meets and the one just after it.
fn push_told(
    text: &mut Text,
    machine: &Machine,
    place: Place,
    number: u32,
    kind: Option<EventKind>,
    after: &Text,
) -> Result<(), AllocError>
    ensures { OnOk result (text.new ≡ text.old ++ told_text place number (seen machine.now.whole) kind after.now) }
{
    push_event_of(text, number, machine, kind)?;
    text.push_text("\n")?;
    push_place(text, place)?;
    push_value(text, machine, place)?;
    text.push_text(" ->")?;
    text.push_bytes(after.as_bytes())?;
    text.push_text("\n")?;
    Ok(())
}

/// Goes to just before the change of a number, and adds its event and the value of a place before and after. Want of memory
/// leaves the recording at some change.
fn push_change(
    alloc: Global,
    text: &mut Text,
    recording: &mut Session,
    place: Place,
    number: u32,
) -> Result<(), AllocError>
    ensures text { OnOk result (text.new ≡ text.old ++ change_text recording.old place number) }
    ensures state { OnOk result (recording.new ≡ just_before recording.old number) }
    ensures memory { OnErr result (recording.new ≡ with_standing recording.old recording.new.standing) }
{
    let (after, kind) = value_after(alloc, recording, place, number)?;
    let _stand = recording.back_to(number.saturating_sub(1));
    push_told(text, recording.machine(), place, number, kind, &after)
}

/// Goes to just before the last change of a place, and tells it. A place that no standing change altered leaves the recording
/// where it is.
pub(crate) fn answer_who(
    alloc: Global,
    recording: &mut Session,
    place: Place,
) -> Result<Text, AllocError>
    ensures text { IfOk result (λ text. text ≡ who_text recording.old place (last_change_in recording.old place)) }
    ensures state { OnOk result (recording.new ≡ with_standing recording.old (stands_after_who recording.old (last_change_in recording.old place))) }
    ensures memory { OnErr result (recording.new ≡ with_standing recording.old recording.new.standing) }
{
    let Some(number) = recording.last_change(place) else {
        return text_of_line(alloc, "who none");
    };
    let mut text = Text::new(alloc);
    push_change(alloc, &mut text, recording, place, number)?;
    Ok(text)
}

/// The last of some numbers, so many at most.
fn last_of(numbers: &[u32], most: u32) -> &[u32]
    ensures { result.now ≡ last_of most numbers.now }
{
    &numbers[numbers.len().saturating_sub(most as usize)..]
}

/// Tells the last changes of a place, so many at most, the oldest first: of more than a thousand the last ones, and that there are
/// more. The recording stands where it stood.
pub(crate) fn answer_changes(
    alloc: Global,
    recording: &mut Session,
    place: Place,
    most: u32,
) -> Result<Text, AllocError>
    ensures text { IfOk result (λ text. text ≡ changes_text recording.old place most) }
    ensures state { OnOk result (recording.new ≡ recording.old) }
    ensures memory { OnErr result (recording.new ≡ with_standing recording.old recording.new.standing) }
{
    let asked = last_of(recording.changes_of(place), most);
    let is_more = asked.len() > MOST_TOLD as usize;
    let numbers = last_of(asked, MOST_TOLD).to_vec(alloc)?;
    let mut text = tell_changes(alloc, recording, place, numbers.as_slice())?;
    if is_more {
        text.push_text("and more\n")?;
    }
    Ok(text)
}

/// Tells the changes of these numbers.
fn tell_changes(
    alloc: Global,
    recording: &mut Session,
    place: Place,
    numbers: &[u32],
) -> Result<Text, AllocError>
    ensures text { IfOk result (λ text. text ≡ told_changes recording.old place numbers.now) }
    ensures state { OnOk result (recording.new ≡ recording.old) }
    ensures memory { OnErr result (recording.new ≡ with_standing recording.old recording.new.standing) }
{
    if numbers.is_empty() {
        return text_of_line(alloc, "changes none");
    }
    let standing = recording.standing();
    let mut text = Text::new(alloc);
    for number in numbers {
        push_change(alloc, &mut text, recording, place, *number)?;
    }
    go_to(recording, standing)?;
    Ok(text)
}
