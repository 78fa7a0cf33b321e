//! A script, read whole and then answered line by line.
ghost use Rattle.std.specs.Prelude.{◌≡◌, ◌≢◌, ◌⊎◌, ◌≤◌, ◌<◌, length, IfOk, IfSome, OnOk, OnErr, Err, Some};
ghost use Rattle.s360_language.specs.Reading.{reading_of};
ghost use Rattle.s360_debug.specs.Debugger.{debugger};
ghost use Rattle.s360_debug.specs.Script.{answer_to_reading, state_after_reading, StandsAfterReading};
ghost use Rattle.s360_debug.specs.Script.{AreAnswered, HasStopped, WasCut, lines_of_script, session_after};
ghost use Rattle.s360_text.specs.declared.script_fault.ScriptFault.TheVariants.{Read as read_failed, TooLong, Memory, Write as write_failed};

use crate::answering::{answer, text_of_fault};
use crate::lines::{Lines, skips};
use s360_journal::{Breaks, Session};
use s360_language::read_command;
use s360_text::{ScriptFault, Text, read_whole, write_whole};
use std::alloc::{AllocError, Global};
use std::io::{Read, Write};

/// A script has at most so many bytes.
const LONGEST_SCRIPT: usize = 1_048_576;

/// Carries out the script that a reader has left, writes the answers, and answers the number of its
/// command lines, faulty ones included. The script is read whole before its first line is carried out.
/// No breakpoint is set before that line.
pub fn run_script<R: Read, W: Write>(
    alloc: Global,
    session: &mut Session,
    reader: &mut R,
    writer: &mut W,
) -> Result<u32, ScriptFault>
    ensures length { IfOk result (λ n. IfSome (R.remaining reader.old) (λ text. length text ≤ 1048576)) }
    ensures answers { IfOk result (λ n. IfSome (R.remaining reader.old) (AreAnswered (W.contents writer.old) (W.contents writer.new) session.old)) }
    ensures lines { IfOk result (λ n. IfSome (R.remaining reader.old) (λ text. n ≡ lines_of_script text)) }
    ensures state { IfOk result (λ n. IfSome (R.remaining reader.old) (λ text. session.new ≡ session_after session.old text)) }
    ensures unread_session { (result ≡ Err read_failed) ⊎ (result ≡ Err TooLong) → session.new ≡ session.old }
    ensures unread_writer { (result ≡ Err read_failed) ⊎ (result ≡ Err TooLong) → writer.new ≡ writer.old }
    ensures too_long { result ≡ Err TooLong → IfSome (R.remaining reader.old) (λ text. 1048576 < length text) }
    ensures memory { result ≡ Err Memory → HasStopped (R.remaining reader.old) (W.contents writer.old) (W.contents writer.new) session.old session.new }
    ensures write { result ≡ Err write_failed → WasCut (R.remaining reader.old) (W.contents writer.old) (W.contents writer.new) session.old session.new }
{
    let script = read_whole(alloc, reader, LONGEST_SCRIPT)?;
    answer_script(alloc, session, &script, writer)
}

/// Answers the lines of a script in turn, and counts those that are not skipped.
fn answer_script<W: Write>(
    alloc: Global,
    session: &mut Session,
    script: &[u8],
    writer: &mut W,
) -> Result<u32, ScriptFault>
    requires { length script.now ≤ 1048576 }
    ensures answers { OnOk result (AreAnswered (W.contents writer.old) (W.contents writer.new) session.old script.now) }
    ensures lines { IfOk result (λ n. n ≡ lines_of_script script.now) }
    ensures state { OnOk result (session.new ≡ session_after session.old script.now) }
    ensures memory { result ≡ Err Memory → HasStopped (Some script.now) (W.contents writer.old) (W.contents writer.new) session.old session.new }
    ensures write { result ≡ Err write_failed → WasCut (Some script.now) (W.contents writer.old) (W.contents writer.new) session.old session.new }
    ensures read { result ≢ Err read_failed }
    ensures too_long { result ≢ Err TooLong }
{
    let mut breaks = Breaks::new();
    let mut count = 0;
    let mut lines = Lines::new(script);
    while let Some(line) = lines.next_line() {
        if !skips(line) {
            let text = answer_line(alloc, session, &mut breaks, line)?;
            write_whole(writer, text.as_bytes())?;
            count += 1;
        }
    }
    Ok(count)
}

/// Answers a line that is not skipped: carries out its command, or tells what is wrong with it. After want of memory some
/// first ones of the events stand that it would have run.
pub fn answer_line(
    alloc: Global,
    session: &mut Session,
    breaks: &mut Breaks,
    line: &[u8],
) -> Result<Text, AllocError>
    ensures text { IfOk result (λ text. text ≡ answer_to_reading (debugger session.old breaks.old) (reading_of line.now)) }
    ensures state { OnOk result (debugger session.new breaks.new ≡ state_after_reading (debugger session.old breaks.old) (reading_of line.now)) }
    ensures memory { OnErr result (StandsAfterReading (reading_of line.now) (debugger session.old breaks.old) session.new) }
    ensures memory_breaks { OnErr result (breaks.new ≡ breaks.old) }
{
    match read_command(alloc, line) {
        Ok(command) => answer(alloc, session, breaks, command),
        Err(fault) => text_of_fault(alloc, fault),
    }
}
