//! How a file that is to be written is opened.
ghost use Rattle.std.specs.Prelude.{◌≡◌, ◌↔◌, false, IfErr};
ghost use Rattle.s360_saving.specs.declared.outcome.SaveFault.TheVariants.{Exists};
ghost use Rattle.s360gdb.specs.Opening.{Asks, IsUnopened, fault_in, opening};

use s360_saving::SaveFault;
use std::fs::{Files, OpenOptions};
use std::io::{ErrorKind, Write};

/// What opens files that are to be written.
pub(crate) trait Opening {
    ghost use Rattle.std.specs.Prelude.{List, None, Option};
    ghost use Rattle.s360gdb.specs.Opening.{Asked};

    type File: Write + Drop;

    // what it was asked for, one after another, where that is known
    ghost asked: { Self → Option (List Asked) } = { λ _. None };

    /// Opens a file of this name: one that is not there is made. One that is there is emptied if it may be written over, and else
    /// is in the way.
    fn open(&mut self, name: &str, over: bool) -> Result<Self::File, SaveFault>
        ensures asked { Asks (asked self.old) (asked self.new) (record { name = name.now; over = over; met = fault_in result }) }
        ensures fault { IfErr result (IsUnopened over) };
}

impl<F: Files> Opening for &F {
    type File = F::File;

    fn open(&mut self, name: &str, over: bool) -> Result<F::File, SaveFault> {
        match options_for(over).open(*self, name) {
            Ok(file) => Ok(file),
            Err(error) => Err(fault_of(over, error.kind())),
        }
    }
}

/// Why a file did not open.
fn fault_of(over: bool, kind: ErrorKind) -> SaveFault
    ensures exists { (result ≡ Exists) ↔ ((over ≡ false) × (kind ≡ ErrorKind.AlreadyExists)) }
    ensures fault { IsUnopened over result }
{
    if !over && kind == ErrorKind::AlreadyExists {
        return SaveFault::Exists;
    }
    SaveFault::CannotOpen
}

/// How a file is opened: one that is not there is made; one that is there is emptied, if it may be written over, and else it
/// does not open.
fn options_for(over: bool) -> OpenOptions
    ensures { result ≡ opening over }
{
    let mut options = OpenOptions::new();
    options.write(true);
    if over {
        options.create(true).truncate(true);
    } else {
        options.create_new(true);
    }
    options
}
