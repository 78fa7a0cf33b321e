//! What the program does once its command line is read. Faults are found in the order of the steps.
ghost use Rattle.std.specs.Prelude.{◌≡◌, true, false, IfErr, IfOk, OnOk, Err};
ghost use Rattle.std.specs.Io.KnownBytes.{Appends};
ghost use Rattle.s360_model.specs.Storage.{is_storage_size};
ghost use Rattle.s360_remote.specs.Replies.{Adds};
ghost use Rattle.s360_setup.specs.Failures.{IsScriptFailure};
ghost use Rattle.s360_setup.specs.Partial.{IsBegun};
ghost use Rattle.s360gdb.specs.Beginning.{IsServedAfter};
ghost use Rattle.s360gdb.specs.Conversation.{IsConversation, IsServedWhole, talking};
ghost use Rattle.s360gdb.specs.Failures.{IsServingFailure, IsRunFailure, IsServingAfterFailure};
ghost use Rattle.s360gdb.specs.Notes.{note_of_dropped};
ghost use Rattle.s360gdb.specs.Saving.{Runs, known};
ghost use Rattle.s360_setup.specs.declared.failure.Failure.TheVariants.{Memory, StorageSize};

use crate::file::write_file;
use crate::host::Host;
use crate::opening::Opening;
use itoa::Buffer;
use s360_debug::carry_out;
use s360_journal::Session;
use s360_machine::Machine;
use s360_remote::{Connection, Errand, Target, push_written};
use s360_setup::{Failure, Fault, LIMIT, Options, Program, Stream, open, set_up, tell};
use s360_text::{Text, Untaken, write_whole};
use std::alloc::AllocError;
use std::io::{self, Input, Read, Write};

/// A read is of at most so many bytes.
const CHUNK: usize = 4_096;

/// Sets a machine up, carries out the script that is named over it, and serves gdb.
pub(crate) fn run(rt: &HostRuntime, options: Options<'_>) -> Result<(), Failure>
    ensures size { OnOk result (is_storage_size options.entry.storage ≡ true) }
    ensures no_size { result ≡ Err StorageSize → is_storage_size options.entry.storage ≡ false }
    ensures failure { IfErr result IsRunFailure }
{
    let machine = set_up(rt, rt.alloc(), options)?;
    match options.script {
        Some(name) => serve_on_output(rt, machine, &mut open(rt, Stream::Script, name)?),
        None => serve_on_output(rt, machine, &mut io::empty()),
    }
}

/// Carries out the script that a reader has, and serves gdb on standard input and output. The answers of the script go to
/// standard error.
fn serve_on_output<S: Read>(
    rt: &HostRuntime,
    machine: Machine,
    script: &mut S,
) -> Result<(), Failure>
    ensures failure { IfErr result IsServingAfterFailure }
{
    let host = Host {
        alloc: rt.alloc(),
        files: rt,
        notes: rt.stderr(),
    };
    let (reader, writer) = (&mut rt.reader(), &mut rt.stdout());
    let _host = serve_after_script(host, machine, script, reader, writer)?;
    Ok(())
}

/// Carries out over a machine the script that a reader has, whose answers are notes, and serves gdb over what stands then.
fn serve_after_script<F: Opening + Drop, N: Write + Drop, S: Read, R: Read, W: Write>(
    host: Host<F, N>,
    machine: Machine,
    script: &mut S,
    reader: &mut R,
    writer: &mut W,
) -> Result<Host<F, N>, Failure>
    ensures served { IfOk result (λ after. IsServedAfter F.File.contents machine.whole (S.remaining script.old)
        (known F.asked N.contents host) (known F.asked N.contents after)
        (R.remaining reader.old) (R.remaining reader.new) (W.contents writer.old) (W.contents writer.new)) }
    ensures failure { IfErr result IsServingAfterFailure }
{
    let Host {
        alloc,
        files,
        notes,
    } = host;
    let mut session = Session::new(alloc, machine, LIMIT);
    let notes = carry_out(alloc, &mut session, script, notes)?;
    let mut host = Host {
        alloc,
        files,
        notes,
    };
    let mut target = Target::new(alloc, session);
    serve(&mut host, &mut target, reader, writer)?;
    Ok(host)
}

/// Serves gdb until it leaves, or until what it sends has ended. The host's notes are told how many recorded changes it drops, and
/// what it saves is written among the host's files.
fn serve<F: Opening, N: Write, R: Read, W: Write>(
    host: &mut Host<F, N>,
    target: &mut Target,
    reader: &mut R,
    writer: &mut W,
) -> Result<(), Failure>
    ensures served { OnOk result (IsServedWhole F.File.contents (R.remaining reader.old) (R.remaining reader.new)
        target.old (known F.asked N.contents host.old) target.new (known F.asked N.contents host.new)
        (W.contents writer.old) (W.contents writer.new)) }
    ensures failure { IfErr result IsServingFailure }
{
    let mut connection = Connection::new(host.alloc)?;
    let mut chunk = [0; CHUNK];
    // Each read but the last gives a byte at least.
    for _read in 0..u64::MAX {
        if connection.has_ended() {
            break;
        }
        let Ok(len) = reader.read(&mut chunk) else {
            return Err(Failure::Stream(Stream::Connection, Fault::ReadFailed));
        };
        if len == 0 {
            break;
        }
        let mut replies = Text::new(host.alloc);
        let taken = take_all(host, &mut connection, target, &mut replies, &chunk[..len]);
        // What was answered before memory was wanted is written too.
        let written = write_whole(writer, replies.as_bytes());
        taken?;
        let Ok(()) = written else {
            return Err(Failure::Stream(Stream::Connection, Fault::WriteFailed));
        };
    }
    Ok(())
}

/// Takes bytes that gdb sent, adds what is answered, and does what is left to do. Those behind its leave are dropped.
fn take_all<F: Opening, N: Write>(
    host: &mut Host<F, N>,
    connection: &mut Connection,
    target: &mut Target,
    replies: &mut Text,
    bytes: &[u8],
) -> Result<(), Failure>
    ensures answered { OnOk result (Adds (IsConversation F.File.contents bytes.now
        (talking connection.old target.old (known F.asked N.contents host.old))
        (talking connection.new target.new (known F.asked N.contents host.new))) replies.old replies.new) }
    ensures failure { IfErr result (λ failure. failure ≡ Memory) }
{
    for byte in bytes {
        let errand = connection.take(*byte, target, replies)?;
        run_errand(host, errand, replies)?;
    }
    Ok(())
}

/// Does what is left to do once a byte was taken, and adds what is answered then.
fn run_errand<F: Opening, N: Write>(
    host: &mut Host<F, N>,
    errand: Errand,
    replies: &mut Text,
) -> Result<(), AllocError>
    ensures { OnOk result (Adds (Runs F.File.contents errand (known F.asked N.contents host.old) (known F.asked N.contents host.new)) replies.old replies.new) }
{
    match errand {
        Errand::Nothing => Ok(()),
        Errand::TellDropped(count) => {
            // gdb is served all the same where this is not taken.
            let _ = tell_dropped(count, &mut host.notes);
            Ok(())
        }
        Errand::Write(file) => {
            let outcome = write_file(&mut host.files, &file);
            push_written(replies, file.amount, outcome)
        }
    }
}

/// Tells how many recorded changes were dropped, if any. It takes no memory.
fn tell_dropped<N: Write>(count: u32, notes: &mut N) -> Result<(), Untaken>
    ensures ok { OnOk result (Appends (N.contents notes.old) (N.contents notes.new) (note_of_dropped count)) }
    ensures stopped { IsBegun (N.contents notes.old) (N.contents notes.new) (note_of_dropped count) }
{
    if count == 0 {
        return Ok(());
    }
    let mut digits = Buffer::new();
    tell(
        Program::Server,
        &["dropped ", digits.format(count), " recorded changes"],
        notes,
    )
}
