//! The last changes that stand, of any place.
ghost use Rattle.std.specs.Prelude.{◌≡◌, ◌++◌, ◌-◌, ◌+◌, ◌<◌, length, IfOk, OnErr, OnOk, Some};
ghost use Rattle.s360_journal.specs.Reports.{IsReport};
ghost use Rattle.s360_journal.specs.Standing.{alteration};
ghost use Rattle.s360_journal.specs.Recorded.{next_recorded, session_of, with_standing};
ghost use Rattle.s360_inquiry.specs.Histories.{history_line, history_text, report_words};

use crate::change::push_event_of;
use s360_debug::{push_changed, text_of_line};
use s360_journal::{Report, Session};
use s360_machine::Event;
use s360_text::Text;
use std::alloc::{AllocError, Global};

/// Tells the last changes, so many at most, the oldest first: each with its event and the places that it altered. The recording
/// stands where it stood; want of memory leaves it at some change.
pub(crate) fn answer_history(
    alloc: Global,
    recording: &mut Session,
    most: u32,
) -> Result<Text, AllocError>
    ensures text { IfOk result (λ text. text ≡ history_text recording.old most) }
    ensures state { OnOk result (recording.new ≡ recording.old) }
    ensures memory { OnErr result (recording.new ≡ with_standing recording.old recording.new.standing) }
{
    let standing = recording.standing();
    if standing == 0 {
        return text_of_line(alloc, "history none");
    }
    let mut text = Text::new(alloc);
    let first = recording.back_to(standing.saturating_sub(most));
    for number in first..standing {
        push_run_again(&mut text, recording, number + 1)?;
    }
    Ok(text)
}

/// Runs the next event of the record again, whose number this is, and adds its line.
fn push_run_again(text: &mut Text, recording: &mut Session, number: u32) -> Result<(), AllocError>
    requires next { recording.old.standing < length recording.old.events }
    requires numbered { number ≡ recording.old.standing + 1 }
    ensures text { OnOk result (text.new ≡ text.old ++ history_line recording.old number) }
    ensures state { OnOk result (recording.new ≡ with_standing recording.old number) }
    ensures memory { OnErr result (recording.new ≡ with_standing recording.old recording.new.standing) }
{
    let event = recording.next_event()?;
    push_event_of(text, number, recording.machine(), Some(event.kind()))?;
    let report = run_again(recording, event)?;
    push_report(text, &report)?;
    Ok(())
}

/// Runs the next event of the record again, which is this, and reports it.
fn run_again(recording: &mut Session, event: Event) -> Result<Report, AllocError>
    requires next { next_recorded recording.old ≡ Some event }
    ensures report { IfOk result (λ report. IsReport report (alteration (session_of recording.old) event)) }
    ensures state { OnOk result (recording.new ≡ with_standing recording.old (recording.old.standing + 1)) }
    ensures err { OnErr result (recording.new ≡ recording.old) }
{
    match recording.forward(event) {
        Ok(report) => Ok(report),
        // An event of the record is refused for want of memory alone.
        Err(_) => Err(AllocError),
    }
}

/// Adds which places a report tells, and the line's end.
fn push_report(text: &mut Text, report: &Report) -> Result<(), AllocError>
    ensures { OnOk result (text.new ≡ text.old ++ report_words report.now) }
{
    match report {
        Report::Changed(places) => {
            push_changed(text, places)?;
            text.push_text("\n")?;
            Ok(())
        }
        Report::Idle => text.push_text(" idle\n"),
    }
}
