//! A file that a line of gdb's user asked for, written.
ghost use Rattle.std.specs.Io.KnownBytes.{Appends};
ghost use Rattle.std.specs.Prelude.{◌≡◌, IfErr, OnErr, OnOk};
ghost use Rattle.s360_saving.specs.declared.outcome.SaveFault.TheVariants.{WriteFailed};
ghost use Rattle.s360_text.specs.Writing.{IsPartWritten};
ghost use Rattle.s360gdb.specs.Opening.{IsOpened, IsUnopened, fault_in};
ghost use Rattle.s360gdb.specs.Saving.{IsSaved};

use crate::opening::Opening;
use s360_saving::{FileToWrite, SaveFault};
use s360_text::{Untaken, write_whole};
use std::io::Write;

/// Writes a file: a new one, or over one that is there if it may be. After a write that failed it may have a beginning.
pub(crate) fn write_file<F: Opening>(files: &mut F, file: &FileToWrite) -> Result<(), SaveFault>
    ensures { IsSaved F.File.contents (F.asked files.old) (F.asked files.new) file.now result }
{
    let mut opened = open(files, file.name.as_bytes(), file.over)?;
    fill(&mut opened, file.bytes.as_bytes())
}

/// Writes the bytes of a file.
fn fill<W: Write>(writer: &mut W, bytes: &[u8]) -> Result<(), SaveFault>
    ensures ok { OnOk result (Appends (W.contents writer.old) (W.contents writer.new) bytes.now) }
    ensures part { OnErr result (IsPartWritten (W.contents writer.old) (W.contents writer.new) bytes.now) }
    ensures fault { IfErr result (λ fault. fault ≡ WriteFailed) }
{
    match write_whole(writer, bytes) {
        Ok(()) => Ok(()),
        Err(Untaken) => Err(SaveFault::WriteFailed),
    }
}

/// Opens a file that is to be written. A name that is no UTF-8 is that of none.
fn open<F: Opening>(files: &mut F, name: &[u8], over: bool) -> Result<F::File, SaveFault>
    ensures opened { IsOpened (F.asked files.old) (F.asked files.new) name.now over (fault_in result) }
    ensures fault { IfErr result (IsUnopened over) }
{
    match str::from_utf8(name) {
        Ok(name) => files.open(name, over),
        Err(_) => Err(SaveFault::CannotOpen),
    }
}
