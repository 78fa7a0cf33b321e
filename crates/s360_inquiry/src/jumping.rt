//! The last jumps, each with what decided it.
ghost use Rattle.std.specs.Prelude.{◌≡◌, ◌≤◌, ◌++◌, ◌-◌, IfOk, OnErr, OnOk, length, min};
ghost use Rattle.s360_journal.specs.Recorded.{Recorded, with_standing};
ghost use Rattle.s360_inquiry.specs.Changes.{just_before, words_of_change};
ghost use Rattle.s360_inquiry.specs.Jumps.{IsSetter, jump_line, jump_of_change, jumps_text, led_if, told_jumps};

use crate::change::{go_before, push_event_of};
use crate::going::go_to;
use crate::jump::{Jump, jump_of, push_decided, push_jump_words};
use crate::search::{Sought, last_number, last_numbers};
use s360_debug::text_of_line;
use s360_journal::Session;
use s360_text::Text;
use std::alloc::{AllocError, Global};

/// The last of the first so many changes that set the condition code, in words, if one did.
#[derive(Drop)]
struct Setter {
    before: u32,
    words: Option<Text>,
}

/// The event of the change of a number in words. Want of memory leaves the recording at some change.
fn words_of(alloc: Global, recording: &mut Session, number: u32) -> Result<Text, AllocError>
    ensures words { IfOk result (λ words. words ≡ words_of_change recording.old number) }
    ensures state { recording.new ≡ with_standing recording.old recording.new.standing }
{
    let kind = go_before(recording, number)?;
    let mut words = Text::new(alloc);
    push_event_of(&mut words, number, recording.machine(), kind)?;
    Ok(words)
}

/// What is known of no more than so many changes: of more of them it says nothing of these.
fn known_of(known: Setter, before: u32) -> Setter
    ensures setter { (r : Recorded) → IsSetter r known → IsSetter r result }
    ensures within { result.before ≤ before }
{
    if before < known.before {
        return Setter {
            before: 0,
            words: None,
        };
    }
    known
}

/// The last of the first changes that set the condition code, by what is known of some of them.
fn setter_from(
    alloc: Global,
    recording: &mut Session,
    known: Setter,
    before: u32,
) -> Result<Setter, AllocError>
    requires known { IsSetter recording.old known }
    ensures setter { IfOk result (λ setter. IsSetter recording.old setter) }
    ensures before { IfOk result (λ setter. setter.before ≡ min before (length recording.old.events)) }
    ensures state { recording.new ≡ with_standing recording.old recording.new.standing }
{
    go_to(recording, before)?;
    let before = recording.standing();
    let known = known_of(known, before);
    match last_number(alloc, recording, Sought::CodeSettings, known.before)? {
        Some(number) => {
            let words = words_of(alloc, recording, number)?;
            Ok(Setter {
                before,
                words: Some(words),
            })
        }
        None => Ok(Setter {
            before,
            words: known.words,
        }),
    }
}

/// Adds, behind what it begins with, the event of a jump and where it led, if the change of a number is one; and answers the jump. The
/// recording is left at some change.
pub(crate) fn push_led(
    alloc: Global,
    text: &mut Text,
    recording: &mut Session,
    number: u32,
    begun: &str,
) -> Result<Option<Jump>, AllocError>
    ensures jump { IfOk result (λ jump. jump ≡ jump_of_change recording.old number) }
    ensures text { OnOk result (text.new ≡ text.old ++ led_if begun.now recording.old number (jump_of_change recording.old number)) }
    ensures state { recording.new ≡ with_standing recording.old recording.new.standing }
{
    let kind = go_before(recording, number)?;
    let Some(jump) = jump_of(alloc, recording.machine(), kind)? else {
        return Ok(None);
    };
    text.push_text(begun)?;
    push_event_of(text, number, recording.machine(), kind)?;
    go_to(recording, number)?;
    push_jump_words(text, jump, recording.machine().psw().instruction_address())?;
    Ok(Some(jump))
}

/// Adds the line of a jump. Want of memory leaves the recording at some change.
fn push_jump(
    alloc: Global,
    text: &mut Text,
    recording: &mut Session,
    setter: &Setter,
    number: u32,
) -> Result<(), AllocError>
    requires setter { IsSetter recording.old setter.now }
    requires before { setter.now.before ≡ (just_before recording.old number).standing }
    ensures text { OnOk result (text.new ≡ text.old ++ jump_line recording.old number) }
    ensures state { recording.new ≡ with_standing recording.old recording.new.standing }
{
    let _kind = go_before(recording, number)?;
    let code = recording.machine().psw().condition_code();
    let Some(jump) = push_led(alloc, text, recording, number, "")? else {
        return Ok(());
    };
    push_decided(text, jump, code, &setter.words)?;
    text.push_text("\n")?;
    Ok(())
}

/// Tells jumps.
fn tell_jumps(alloc: Global, recording: &mut Session, numbers: &[u32]) -> Result<Text, AllocError>
    ensures text { IfOk result (λ text. text ≡ told_jumps recording.old numbers.now) }
    ensures state { recording.new ≡ with_standing recording.old recording.new.standing }
{
    if numbers.is_empty() {
        return text_of_line(alloc, "jumps none");
    }
    let mut text = Text::new(alloc);
    let mut setter = Setter {
        before: 0,
        words: None,
    };
    for number in numbers {
        setter = setter_from(alloc, recording, setter, number.saturating_sub(1))?;
        push_jump(alloc, &mut text, recording, &setter, *number)?;
    }
    Ok(text)
}

/// Tells the last jumps, so many at most, the oldest first. The recording stands where it stood; want of memory leaves it at some
/// change.
pub(crate) fn answer_jumps(
    alloc: Global,
    recording: &mut Session,
    most: u32,
) -> Result<Text, AllocError>
    ensures text { IfOk result (λ text. text ≡ jumps_text recording.old most) }
    ensures state { OnOk result (recording.new ≡ recording.old) }
    ensures memory { OnErr result (recording.new ≡ with_standing recording.old recording.new.standing) }
{
    let standing = recording.standing();
    let numbers = last_numbers(alloc, recording, Sought::Jumps, most as usize)?;
    let text = tell_jumps(alloc, recording, numbers.as_slice())?;
    go_to(recording, standing)?;
    Ok(text)
}
