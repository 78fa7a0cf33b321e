//! The calls that have not returned.
ghost use Rattle.std.specs.Prelude.{◌≡◌, ◌++◌, ◌∷◌, [], IfOk, List, OnErr, OnOk, map, reverse, ℕ};
ghost use Rattle.s360_journal.specs.Recorded.{with_standing};
ghost use Rattle.s360_inquiry.specs.Calls.{calls_text, line_of_call, open_call, open_calls, told_open_calls};
ghost use Rattle.s360_inquiry.specs.Tellings.{IsTold};

use crate::call::{Call, go_on, link_value, push_returning};
use crate::change::{go_before, push_event_of};
use crate::going::go_to;
use crate::telling::Telling;
use s360_debug::text_of_line;
use s360_journal::Session;
use s360_text::Text;
use std::alloc::{AllocError, Global};

/// A call that has not returned, and what stands where its link was.
#[derive(Clone, Copy)]
struct OpenCall {
    call: Call,
    now: u64,
}

/// The calls that have not returned, the outermost first. All that stands is run again.
fn open_calls(alloc: Global, recording: &mut Session) -> Result<Vec<Call>, AllocError>
    ensures calls { IfOk result (λ calls. reverse calls.items ≡ open_calls recording.old recording.old.standing) }
    ensures state { OnOk result (recording.new ≡ recording.old) }
    ensures memory { OnErr result (recording.new ≡ with_standing recording.old recording.new.standing) }
{
    let standing = recording.standing();
    let mut calls = Vec::new(alloc);
    let _start = recording.back_to(0);
    for before in 0..standing {
        go_on(alloc, recording, &mut calls, before + 1)?;
    }
    Ok(calls)
}

/// The calls that have not returned, the innermost first, each with what stands where its link was.
fn open_calls_now(alloc: Global, recording: &mut Session) -> Result<Vec<OpenCall>, AllocError>
    ensures calls { IfOk result (λ calls. calls.items ≡ map (open_call recording.old) (open_calls recording.old recording.old.standing)) }
    ensures state { OnOk result (recording.new ≡ recording.old) }
    ensures memory { OnErr result (recording.new ≡ with_standing recording.old recording.new.standing) }
{
    let mut calls = open_calls(alloc, recording)?;
    calls.reverse();
    with_links_now(alloc, recording, calls.as_slice())
}

/// Calls with what stands where their links were.
fn with_links_now(
    alloc: Global,
    recording: &Session,
    calls: &[Call],
) -> Result<Vec<OpenCall>, AllocError>
    ensures { IfOk result (λ found. found.items ≡ map (open_call recording.now) calls.now) }
{
    let mut found = Vec::new(alloc);
    for call in calls {
        found.push(OpenCall {
            call: *call,
            now: link_value(recording.machine(), call.link),
        })?;
    }
    Ok(found)
}

/// Adds the line of a call.
fn push_call(
    alloc: Global,
    recording: &mut Session,
    telling: &mut Telling,
    found: OpenCall,
) -> Result<(), AllocError>
    ensures told { OnOk result ((lines : List (List ℕ)) → IsTold lines telling.old → IsTold (lines ++ line_of_call recording.old found ∷ []) telling.new) }
    ensures state { recording.new ≡ with_standing recording.old recording.new.standing }
{
    let number = found.call.number;
    let kind = go_before(recording, number)?;
    let mut line = Text::new(alloc);
    push_event_of(&mut line, number, recording.machine(), kind)?;
    push_returning(&mut line, found.call, found.now)?;
    line.push_text("\n")?;
    telling.push(line.as_bytes())?;
    Ok(())
}

/// Tells calls. The recording is left at some change.
fn tell_calls(
    alloc: Global,
    recording: &mut Session,
    calls: &[OpenCall],
) -> Result<Text, AllocError>
    ensures text { IfOk result (λ text. text ≡ told_open_calls recording.old calls.now) }
    ensures state { recording.new ≡ with_standing recording.old recording.new.standing }
{
    if calls.is_empty() {
        return text_of_line(alloc, "calls none");
    }
    let mut telling = Telling::new(alloc);
    for call in calls {
        if telling.is_full() {
            return telling.finish();
        }
        push_call(alloc, recording, &mut telling, *call)?;
    }
    telling.finish()
}

/// Tells the calls that have not returned, the innermost first. The recording stands where it stood; want of memory leaves it at
/// some change.
pub(crate) fn answer_calls(alloc: Global, recording: &mut Session) -> Result<Text, AllocError>
    ensures text { IfOk result (λ text. text ≡ calls_text recording.old) }
    ensures state { OnOk result (recording.new ≡ recording.old) }
    ensures memory { OnErr result (recording.new ≡ with_standing recording.old recording.new.standing) }
{
    let standing = recording.standing();
    let calls = open_calls_now(alloc, recording)?;
    let text = tell_calls(alloc, recording, calls.as_slice())?;
    go_to(recording, standing)?;
    Ok(text)
}
