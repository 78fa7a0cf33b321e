//! Decks and tapes from files.
ghost use Rattle.std.specs.Prelude.{◌≡◌, [], None, IfOk, IfErr};
ghost use Rattle.s360_model.specs.Cards.{IsDeckFile};
ghost use Rattle.s360_device.specs.DeviceChanges.{bare};
ghost use Rattle.s360_tape.specs.WholeTape.{seen as seen_tape};
ghost use Rattle.s360_setup.specs.Images.{IsTapeFor};
ghost use Rattle.s360_setup.specs.Failures.{IsFailureOf, IsDeckFailure, IsTapeFailure};
ghost use Rattle.s360_setup.specs.declared.failure.Fault.TheVariants.{CannotRead};
ghost use Rattle.s360_setup.specs.declared.failure.Failure.TheVariants.{Stream as failure_of_stream};

use crate::arguments::TapeOptions;
use crate::failure::{Failure, Fault, Stream};
use s360_device::{Deck, deck_from};
use s360_tape::{Tape, tape_from};
use s360_text::read_whole;
use std::alloc::Global;
use std::fs::{self, File};

/// A file of a deck or a tape has at most so many bytes.
const LONGEST_FILE: usize = 67_108_864;

/// The deck in a file, or one with no card where none is named.
pub fn read_deck(rt: &HostRuntime, alloc: Global, name: Option<&str>) -> Result<Deck, Failure>
    ensures unnamed { name.entry ≡ None → IfOk result (λ deck. IsDeckFile [] deck) }
    ensures failure { IfErr result (λ failure. IsDeckFailure failure) }
{
    let file = read_image(rt, alloc, Stream::Reader, name)?;
    Ok(deck_from(alloc, &file)?)
}

/// The tape in a file, or a blank one where none is named. `stream` is what a fault of it is of.
pub fn read_tape(
    rt: &HostRuntime,
    alloc: Global,
    stream: Stream,
    options: TapeOptions<'_>,
) -> Result<Tape, Failure>
    ensures tape { IfOk result (λ t. IsTapeFor options.entry (seen_tape (bare t))) }
    ensures failure { IfErr result (IsTapeFailure stream) }
{
    let file = read_image(rt, alloc, stream, options.file)?;
    match tape_from(alloc, &file, options.protected) {
        Ok(tape) => Ok(tape),
        Err(fault) => Err(stream.tape_failure(fault)),
    }
}

/// The bytes of a file of a stream, or none where no file is named.
fn read_image(
    rt: &HostRuntime,
    alloc: Global,
    stream: Stream,
    name: Option<&str>,
) -> Result<Vec<u8>, Failure>
    ensures unnamed { name.entry ≡ None → IfOk result (λ bytes. bytes.items ≡ []) }
    ensures failure { IfErr result (IsFailureOf stream) }
{
    let Some(name) = name else {
        return Ok(Vec::new(alloc));
    };
    let mut file = open(rt, stream, name)?;
    match read_whole(alloc, &mut file, LONGEST_FILE) {
        Ok(bytes) => Ok(bytes),
        Err(fault) => Err(stream.failure(fault)),
    }
}

/// The file of a stream, opened.
pub fn open(rt: &HostRuntime, stream: Stream, name: &str) -> Result<File, Failure>
    ensures { IfErr result (λ failure. failure ≡ failure_of_stream stream CannotRead) }
{
    match fs::open(rt, name) {
        Ok(file) => Ok(file),
        Err(_) => Err(Failure::Stream(stream, Fault::CannotRead)),
    }
}
