//! How a program tells of itself in a line, with no memory to ask for.
ghost use Rattle.std.specs.Prelude.{◌≡◌, OnOk, map};
ghost use Rattle.std.specs.List.{concat};
ghost use Rattle.std.specs.Io.KnownBytes.{Appends};
ghost use Rattle.s360_setup.specs.Ending.{ending_status, failure_text};
ghost use Rattle.s360_setup.specs.Partial.{IsBegun};
ghost use Rattle.s360_setup.specs.Programs.{told_by};

use crate::failure::Failure;
use crate::program::Program;
use itoa::Buffer;
use s360_text::{Untaken, write_whole};
use std::io::Write;

/// Tells of a failure in a line, and answers the status with which the program ends. It takes no
/// memory. Where the writer fails, or takes no byte, it stops writing.
pub fn ending<W: Write>(program: Program, failure: &Failure, writer: &mut W) -> u8
    ensures status { result ≡ ending_status failure.now }
    ensures text { IsBegun (W.contents writer.old) (W.contents writer.new) (told_by program (failure_text failure.now)) }
{
    // Where the line is not taken, the status alone tells of the failure.
    let _ = tell_failure(program, *failure, writer);
    failure.status()
}

/// Tells of a failure in a line.
fn tell_failure<W: Write>(program: Program, failure: Failure, writer: &mut W) -> Result<(), Untaken>
    ensures ok { OnOk result (Appends (W.contents writer.old) (W.contents writer.new) (told_by program (failure_text failure))) }
    ensures stopped { IsBegun (W.contents writer.old) (W.contents writer.new) (told_by program (failure_text failure)) }
{
    match failure {
        Failure::Word => tell(
            program,
            &["a word of the command line is not UTF-8"],
            writer,
        ),
        Failure::Stream(stream, fault) => {
            let mut digits = Buffer::new();
            let offset = fault.offset(&mut digits);
            tell(
                program,
                &[stream.name(), ": ", fault.name(), offset],
                writer,
            )
        }
        Failure::StorageSize => tell(
            program,
            &["storage size must be a multiple of 2048 bytes from 8192 to 1048576"],
            writer,
        ),
        Failure::Memory => tell(program, &["memory: out of memory"], writer),
    }
}

/// Tells texts in a line, which begins with the name of the program. It takes no memory. Where the writer fails, or
/// takes no byte, it stops writing.
pub fn tell<W: Write>(program: Program, texts: &[&str], writer: &mut W) -> Result<(), Untaken>
    ensures ok { OnOk result (Appends (W.contents writer.old) (W.contents writer.new) (told_by program (concat (map (λ text. text.now) texts.now)))) }
    ensures stopped { IsBegun (W.contents writer.old) (W.contents writer.new) (told_by program (concat (map (λ text. text.now) texts.now))) }
{
    write_texts(writer, &[program.name(), ": "])?;
    write_texts(writer, texts)?;
    write_texts(writer, &["\n"])
}

/// Writes texts one after another, until the writer takes no more.
fn write_texts<W: Write>(writer: &mut W, texts: &[&str]) -> Result<(), Untaken>
    ensures ok { OnOk result (Appends (W.contents writer.old) (W.contents writer.new) (concat (map (λ text. text.now) texts.now))) }
    ensures stopped { IsBegun (W.contents writer.old) (W.contents writer.new) (concat (map (λ text. text.now) texts.now)) }
{
    for text in texts {
        write_whole(writer, text.as_bytes())?;
    }
    Ok(())
}
