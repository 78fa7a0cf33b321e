//! A script that is carried out over a machine, and its answers.
ghost use Rattle.std.specs.Prelude.{◌≡◌, ◌⊎◌, ◌≤◌, ◌<◌, [], true, length, IfOk, IfSome, OnOk, Err, None};
ghost use Rattle.std.specs.Io.KnownBytes.{Keeps};
ghost use Rattle.std.specs.Io.Buffered.{writer_buffer, writer_contents};
ghost use Rattle.s360_debug.specs.Script.{AreAnswered, AreCarriedOut, HasStopped, session_after};
ghost use Rattle.s360_text.specs.declared.script_fault.ScriptFault.TheVariants.{Read as read_failed, TooLong, Memory, Write as write_failed};

use crate::run::run_script;
use s360_journal::Session;
use s360_text::{OneTry, ScriptFault};
use std::alloc::Global;
use std::io::{BufWriter, Read, Write};

/// Carries out the script that a reader has left, writes its answers, and answers the writer. The answers
/// that come before a fault are written too, but after a write that failed none is written again. After a fault the writer is
/// gone, so that what it got is not told.
pub fn carry_out<R: Read, W: Write + Drop>(
    alloc: Global,
    session: &mut Session,
    reader: &mut R,
    writer: W,
) -> Result<W, ScriptFault>
    ensures length { OnOk result (IfSome (R.remaining reader.old) (λ text. length text ≤ 1048576)) }
    ensures answers { IfOk result (λ w. IfSome (R.remaining reader.old) (AreAnswered (W.contents writer) (W.contents w) session.old)) }
    ensures state { OnOk result (IfSome (R.remaining reader.old) (λ text. session.new ≡ session_after session.old text)) }
    ensures unread { (result ≡ Err read_failed) ⊎ (result ≡ Err TooLong) → session.new ≡ session.old }
    ensures too_long { result ≡ Err TooLong → IfSome (R.remaining reader.old) (λ text. 1048576 < length text) }
    ensures memory { result ≡ Err Memory → HasStopped (R.remaining reader.old) None None session.old session.new }
    ensures write { result ≡ Err write_failed → IfSome (R.remaining reader.old) (λ text. AreCarriedOut session.old session.new text) }
{
    let Ok(mut buffered) = BufWriter::new(alloc, OneTry { writer }) else {
        return Err(ScriptFault::Memory);
    };
    let answered = run_script(alloc, session, reader, &mut buffered);
    let is_flushed = flush_after(&answered, &mut buffered);
    // A buffer that is dropped would write what is left in it once more.
    let (inner, _unwritten) = buffered.into_parts();
    match answered {
        Ok(_lines) if is_flushed => Ok(inner.writer),
        Ok(_lines) => Err(ScriptFault::Write),
        Err(fault) => Err(fault),
    }
}

/// Writes what is left in a buffer, unless a write failed before: that is not tried again. Answers
/// whether nothing is left.
fn flush_after<W: Write + Drop>(
    answered: &Result<u32, ScriptFault>,
    buffered: &mut BufWriter<W>,
) -> bool
    ensures bytes { Keeps (writer_contents W.contents buffered.old) (writer_contents W.contents buffered.new) }
    ensures empty { result ≡ true → writer_buffer buffered.new ≡ [] }
{
    let has_failed = matches!(answered, Err(ScriptFault::Write));
    !has_failed && flush(buffered)
}

/// Writes what is left in a buffer, and answers whether nothing is left.
fn flush<W: Write + Drop>(buffered: &mut BufWriter<W>) -> bool
    ensures bytes { Keeps (writer_contents W.contents buffered.old) (writer_contents W.contents buffered.new) }
    ensures empty { result ≡ true → writer_buffer buffered.new ≡ [] }
{
    buffered.flush().is_ok()
}
