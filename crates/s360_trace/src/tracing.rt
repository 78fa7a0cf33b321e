//! The trace of a recording, which goes through it once.
ghost use Rattle.std.specs.Prelude.{◌≡◌, ◌++◌, ◌+◌, ◌<◌, IfOk, OnErr, OnOk, length};
ghost use Rattle.s360_machine.specs.Machine.{seen};
ghost use Rattle.s360_journal.specs.Recorded.{with_standing};
ghost use Rattle.s360_trace.specs.Trace.{change_lines, event_fields, trace};

use crate::execution::push_executed;
use crate::field_texts::field_text;
use crate::stores_told::{push_lines, stores_met};
use s360_inquiry::go_to;
use s360_journal::Session;
use s360_language::push_event;
use s360_machine::{EventKind, Machine};
use s360_text::Text;
use std::alloc::{AllocError, Global};

/// The first line, which names the fields.
const HEADER: &str = "number,event,address,instruction,mnemonic,place,before,after,sources\n";

/// The trace of those of the changes from one number to another that stand. The recording stands where it stood; want of memory
/// leaves it at some change.
pub fn trace_of(
    alloc: Global,
    recording: &mut Session,
    from: u32,
    to: u32,
) -> Result<Text, AllocError>
    ensures text { IfOk result (λ text. text ≡ trace recording.old from to) }
    ensures state { OnOk result (recording.new ≡ recording.old) }
    ensures memory { OnErr result (recording.new ≡ with_standing recording.old recording.new.standing) }
{
    let standing = recording.standing();
    let mut text = Text::new(alloc);
    text.push_text(HEADER)?;
    let first = recording.back_to(from.saturating_sub(1));
    let last = to.min(standing).max(first);
    for before in first..last {
        push_change(alloc, &mut text, recording, before + 1)?;
    }
    go_to(recording, standing)?;
    Ok(text)
}

/// Runs the next event of the record again, whose number this is, and adds its lines. Want of memory leaves the recording
/// before or after it.
fn push_change(
    alloc: Global,
    text: &mut Text,
    recording: &mut Session,
    number: u32,
) -> Result<(), AllocError>
    requires next { recording.old.standing < length recording.old.events }
    requires numbered { number ≡ recording.old.standing + 1 }
    ensures text { OnOk result (text.new ≡ text.old ++ change_lines recording.old number) }
    ensures state { OnOk result (recording.new ≡ with_standing recording.old number) }
    ensures memory { OnErr result (recording.new ≡ with_standing recording.old recording.new.standing) }
{
    let event = recording.next_event()?;
    let mut fields = field_text(alloc)?;
    push_fields(&mut fields, number, recording.machine(), event.kind())?;
    let stores = stores_met(alloc, recording.machine(), &event)?;
    let _stand = recording.again_to(number)?;
    push_lines(
        text,
        fields.as_bytes(),
        recording.machine(),
        stores.as_slice(),
    )
}

/// Adds the number of an event, its name, and what it executes in the machine that it meets.
fn push_fields(
    text: &mut Text,
    number: u32,
    machine: &Machine,
    kind: EventKind,
) -> Result<(), AllocError>
    ensures { OnOk result (text.new ≡ text.old ++ event_fields number (seen machine.now.whole) kind) }
{
    text.push_decimal(u64::from(number))?;
    text.push_text(",")?;
    push_event(text, kind)?;
    push_executed(text, machine, kind)?;
    Ok(())
}
