//! What the program does once its command line is read. Faults are found in the order of the steps.
ghost use Rattle.std.specs.Prelude.{◌≡◌, ◌≢◌, ◌≤◌, true, false, length, IfErr, IfOk, IfSome, OnOk, Err};
ghost use Rattle.s360_model.specs.Storage.{is_storage_size};
ghost use Rattle.s360_debug.specs.Script.{AreAnswered, session_after};
ghost use Rattle.s360_setup.specs.Failures.{IsScriptFailure, IsAnsweringFailure};
ghost use Rattle.s360dbg.specs.Failures.{IsRunFailure};
ghost use Rattle.s360_setup.specs.declared.failure.Failure.TheVariants.{StorageSize};

use s360_debug::carry_out;
use s360_journal::Session;
use s360_setup::{Failure, LIMIT, Options, Program, Stream, open, set_up, tell};
use std::alloc::Global;
use std::io::{self, Input, IsTerminal, Read, Write};

/// What a person is told from whose terminal the script is read. All of it is read before its first
/// line is carried out.
const AT_A_TERMINAL: &str =
    "reads a script from the terminal, and answers it at its end; end it with Ctrl-D";

/// Sets a machine up, and carries the script out over it.
pub(crate) fn run(rt: &HostRuntime, options: Options<'_>) -> Result<(), Failure>
    ensures size { OnOk result (is_storage_size options.entry.storage ≡ true) }
    ensures no_size { result ≡ Err StorageSize → is_storage_size options.entry.storage ≡ false }
    ensures failure { IfErr result IsRunFailure }
{
    let machine = set_up(rt, rt.alloc(), options)?;
    let mut session = Session::new(rt.alloc(), machine, LIMIT);
    answer_script(rt, &mut session, options.script)
}

/// Carries out the script in a file, or that on standard input where none is named.
fn answer_script(rt: &HostRuntime, session: &mut Session, name: Option<&str>) -> Result<(), Failure>
    ensures no_size { result ≢ Err StorageSize }
    ensures failure { IfErr result IsAnsweringFailure }
{
    match name {
        Some(name) => {
            let mut file = open(rt, Stream::Script, name)?;
            let _writer = answer(rt.alloc(), session, &mut file, io::writer(rt))?;
        }
        None => {
            tell_terminal(rt);
            let _writer = answer(rt.alloc(), session, &mut rt.reader(), io::writer(rt))?;
        }
    }
    Ok(())
}

/// Carries out the script that a reader has left, and answers the writer, which has its answers.
fn answer<R: Read, W: Write + Drop>(
    alloc: Global,
    session: &mut Session,
    reader: &mut R,
    writer: W,
) -> Result<W, Failure>
    ensures length { OnOk result (IfSome (R.remaining reader.old) (λ text. length text ≤ 1048576)) }
    ensures answers { IfOk result (λ w. IfSome (R.remaining reader.old) (AreAnswered (W.contents writer) (W.contents w) session.old)) }
    ensures state { OnOk result (IfSome (R.remaining reader.old) (λ text. session.new ≡ session_after session.old text)) }
    ensures failure { IfErr result IsScriptFailure }
{
    Ok(carry_out(alloc, session, reader, writer)?)
}

/// Where a person is at the terminal from which the script is read, says what is waited for.
fn tell_terminal(rt: &HostRuntime) {
    if rt.stdin().is_terminal() {
        // The script is read all the same where standard error does not take this.
        let _ = tell(Program::Debugger, &[AT_A_TERMINAL], &mut rt.stderr());
    }
}
