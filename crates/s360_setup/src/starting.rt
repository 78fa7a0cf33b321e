//! How a program starts, and how it ends.
ghost use Rattle.std.specs.Prelude.{◌≤◌};

use crate::arguments::Options;
use crate::command_line::options;
use crate::failure::Failure;
use crate::program::Program;
use crate::telling::ending;
use clap::Error;
use clap::error::ErrorKind;
use s360_text::OneTry;
use std::io::Write;
use std::{env, io};

/// The status where the command line did not ask for what can be done.
const USAGE: u8 = 2;

/// Runs a program as the words of its command line ask for, and answers its status. Standard error tells of a failure.
pub fn start<F: FnOnce(Options<'_>) -> Result<(), Failure>>(
    rt: &HostRuntime,
    program: Program,
    run: F,
) -> u8
    requires { F.IsAlwaysCallable run }
    ensures { result ≤ 2 }
{
    match words_of(rt) {
        Ok(words) => status_for(rt, program, words.as_slice(), run),
        Err(failure) => ending(program, &failure, &mut rt.stderr()),
    }
}

/// The words of the command line, of which the first is the name of the program.
fn words_of(rt: &HostRuntime) -> Result<Vec<String>, Failure> {
    match env::args(rt) {
        Ok(words) => Ok(words.collect(rt.alloc())?),
        Err(fault) if fault.kind() == io::ErrorKind::OutOfMemory => Err(Failure::Memory),
        Err(_) => Err(Failure::Word),
    }
}

/// Does what the words ask for, and answers the status.
fn status_for<F: FnOnce(Options<'_>) -> Result<(), Failure>>(
    rt: &HostRuntime,
    program: Program,
    words: &[String],
    run: F,
) -> u8
    requires { F.IsAlwaysCallable run }
    ensures { result ≤ 2 }
{
    match options(rt.alloc(), program, words) {
        Ok(options) => match run(options) {
            Ok(()) => 0,
            Err(failure) => ending(program, &failure, &mut rt.stderr()),
        },
        Err(error) if error.kind() == ErrorKind::OutOfMemory => {
            ending(program, &Failure::Memory, &mut rt.stderr())
        }
        Err(error) => show(rt, &error),
    }
}

/// Shows the help or the version on standard output, or what is wrong with the command line on
/// standard error, and answers the status.
fn show(rt: &HostRuntime, error: &Error) -> u8
    ensures { result ≤ 2 }
{
    if error.use_stderr() {
        // Where this is not taken, the status alone tells of it.
        let _ = OneTry {
            writer: rt.stderr(),
        }
        .write_fmt(error);
        return USAGE;
    }
    let shown = OneTry {
        writer: rt.stdout(),
    }
    .write_fmt(error);
    u8::from(shown.is_err())
}
