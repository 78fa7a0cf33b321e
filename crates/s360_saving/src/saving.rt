//! What a line asks to be saved, and where.
use s360_device::PunchStacker;
use std::marker::Model;

/// What is saved.
#[derive(Clone, Copy)]
pub enum Medium {
    /// The pages that the printer printed.
    Printer,
    /// The cards that were punched: all, or those of a stacker.
    Punch(Option<PunchStacker>),
    /// What the console typed, and the lines that were entered.
    Console,
    /// The tape of unit 180.
    Tape0,
    /// The tape of unit 181.
    Tape1,
    /// What the changes from one number to another did.
    Trace { from: u32, to: u32 },
}

/// What a line asks for.
#[derive(Drop)]
pub struct Saving<'a> {
    /// What is saved.
    pub what: Medium,
    /// The name of the file, as it stands in the line.
    pub name: &'a [u8],
    /// Whether a file that is there is written over.
    pub over: bool,
}

impl<'a> Model for Saving<'a> {
    ghost use Rattle.s360_saving.specs.Reading.{Asked};

    ghost Value = { Asked };

    ghost view = { λ s. record { what = s.what; name = s.name.now; over = s.over } };
}
