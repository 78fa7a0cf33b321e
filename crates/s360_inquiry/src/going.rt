//! To go elsewhere in what was recorded, back or forth. Nothing of the record is lost.
ghost use Rattle.std.specs.Prelude.{◌≡◌, ◌++◌, length, min, IfOk, OnErr, OnOk};
ghost use Rattle.s360_journal.specs.Recorded.{with_standing};
ghost use Rattle.s360_inquiry.specs.Going.{goto_number, goto_text, number_of_mark, stands_after_goto, stands_line};

use crate::inquiry::Mark;
use s360_debug::text_of_line;
use s360_journal::Session;
use s360_text::Text;
use std::alloc::{AllocError, Global};

/// Goes to just after the change of a number, or to the end of the record if it has no such change. Want of memory leaves the
/// recording there, or where it was.
pub fn go_to(recording: &mut Session, number: u32) -> Result<(), AllocError>
    ensures state { OnOk result (recording.new ≡ with_standing recording.old (min number (length recording.old.events))) }
    ensures err { OnErr result (recording.new ≡ with_standing recording.old (min number recording.old.standing)) }
{
    // No more stand than are recorded.
    prove!(recording.standing() <= recording.recorded());
    let _stand = recording.back_to(number);
    let _stand = recording.again_to(number)?;
    Ok(())
}

/// The number of the change that a mark names, if it names one.
fn number_of_mark(mark: Mark, recorded: u32, stood: Option<u32>) -> Option<u32>
    ensures { result ≡ number_of_mark mark recorded stood }
{
    match mark {
        Mark::Change(number) => Some(number),
        Mark::Start => Some(0),
        Mark::End => Some(recorded),
        Mark::Last => stood,
    }
}

/// To which change a mark leads, if to one that is recorded.
fn goto_number(recording: &Session, stood: Option<u32>, mark: Mark) -> Option<u32>
    ensures { result ≡ goto_number recording.now stood mark }
{
    let recorded = recording.recorded();
    let number = number_of_mark(mark, recorded, stood)?;
    if number <= recorded {
        Some(number)
    } else {
        None
    }
}

/// Goes to a mark, and answers where the recording stands then.
pub(crate) fn answer_goto(
    alloc: Global,
    recording: &mut Session,
    stood: Option<u32>,
    mark: Mark,
) -> Result<Text, AllocError>
    ensures text { IfOk result (λ text. text ≡ goto_text recording.old (goto_number recording.old stood mark)) }
    ensures state { OnOk result (recording.new ≡ with_standing recording.old (stands_after_goto recording.old (goto_number recording.old stood mark))) }
    ensures memory { OnErr result (recording.new ≡ with_standing recording.old recording.new.standing) }
{
    match goto_number(recording, stood, mark) {
        Some(number) => {
            go_to(recording, number)?;
            text_of_standing(alloc, recording)
        }
        None => text_of_line(alloc, "no such change"),
    }
}

/// How many changes stand, of how many that are recorded.
pub(crate) fn text_of_standing(alloc: Global, recording: &Session) -> Result<Text, AllocError>
    ensures { IfOk result (λ text. text ≡ stands_line recording.now) }
{
    let mut text = Text::new(alloc);
    text.push_counted("standing ", u64::from(recording.standing()))?;
    text.push_counted(" of ", u64::from(recording.recorded()))?;
    text.push_text("\n")?;
    Ok(text)
}
