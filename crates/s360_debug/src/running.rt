//! The line of a run.
ghost use Rattle.s360_journal.specs.Recorded.{after_events, session_of};
ghost use Rattle.std.specs.Prelude.{◌≡◌, ℕ, ◌++◌, IfOk, OnOk, OnErr, length, take};
ghost use Rattle.s360_debug.specs.Running.{end_text, run_at, run_text};

use s360_journal::{Breaks, Pause, Reach, Session, Turn};
use s360_language::push_refusal;
use s360_text::Text;
use std::alloc::{AllocError, Global};

/// Runs at most so many events, and answers how many were accepted and why the run ended. After want
/// of memory some first ones of them stand.
pub(crate) fn answer_run(
    alloc: Global,
    session: &mut Session,
    breaks: &Breaks,
    most: u32,
) -> Result<Text, AllocError>
    ensures text { IfOk result (λ text. let run = run_at breaks.now (session_of session.old) most in text ≡ run_text (length run.events) run.why) }
    ensures state { OnOk result (session.new ≡ after_events session.old (run_at breaks.now (session_of session.old) most).events) }
    ensures memory { OnErr result ((n : ℕ) × (session.new ≡ after_events session.old (take n (run_at breaks.now (session_of session.old) most).events))) }
{
    let before = session.standing();
    let end = session.run(breaks, Turn::New, Reach::Stop, most)?;
    text_of_run(alloc, session.standing() - before, end)
}

/// The line of a run.
fn text_of_run(alloc: Global, count: u32, end: Pause) -> Result<Text, AllocError>
    ensures { IfOk result (λ text. text ≡ run_text count end) }
{
    let mut text = Text::new(alloc);
    text.push_text("run ")?;
    text.push_decimal(u64::from(count))?;
    text.push_text(" ")?;
    push_end(&mut text, end)?;
    Ok(text)
}

/// Adds why a run ended, and the line's end.
fn push_end(text: &mut Text, end: Pause) -> Result<(), AllocError>
    ensures { OnOk result (text.new ≡ text.old ++ end_text end) }
{
    match end {
        Pause::Refused(refusal) => push_refusal(text, refusal),
        Pause::Idle => text.push_text("idle\n"),
        Pause::Watch => text.push_text("watch\n"),
        Pause::Break => text.push_text("break\n"),
        Pause::Stepped => text.push_text("step\n"),
        Pause::RecordEnd => text.push_text("end of record\n"),
        Pause::RecordStart => text.push_text("start of record\n"),
        Pause::Done => text.push_text("done\n"),
    }
}
