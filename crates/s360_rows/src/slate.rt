//! A device of the tests, a slate. 01 writes a line of at most twelve bytes on it; 02 reads its own
//! line, for which it waits until one is put there.
ghost use Rattle.std.specs.Prelude.{◌≡◌, ◌≤◌, length};
ghost use Rattle.s360_device.specs.Kinds.{MakesMedia};
ghost use Rattle.s360_rows.specs.Slate.{after_reading, line_of, slate_kind};

use s360_device::{COMMAND_REJECT, Device, DeviceWith, Given, Media, Motion, Row};
use std::alloc::{AllocError, Global};
use std::marker::Model;
use std::mem;

/// A line.
pub(crate) type Line = [u8; 12];

/// The line that is put on it.
const LINE: Line = [1, 2, 3, 4, 5, 6, 7, 8, 9, 10, 11, 12];

/// A slate.
pub(crate) type Slate = DeviceWith<SlateMedia>;

/// Whether a line was put on it that was not read, and the lines written.
#[derive(Drop)]
pub(crate) struct SlateMedia {
    has_line: bool,
    written: Vec<Line>,
}

/// What a command, or who puts a line on it, does to it: whether it has a line afterwards, and what happens to the lines
/// written.
type Change = (bool, Motion<Line>);

impl Model for SlateMedia {
    ghost use Rattle.s360_device.specs.Kinds.{MediaWithRoom, room_in};
    ghost use Rattle.s360_rows.specs.Slate.{SlateMedia as Seen};

    ghost Value = { MediaWithRoom Seen };

    ghost view = { λ s. record { media = record { has_line = s.has_line; written = s.written.items }; room = room_in s.written } };
}

/// A line with these bytes, and zeros after them.
fn line_of(bytes: &[u8]) -> Line
    requires { length bytes.now ≤ 12 }
    ensures { result ≡ line_of bytes.now }
{
    let mut line = [0; 12];
    line[..bytes.len()].copy_from_slice(bytes);
    line
}

/// A clean slate.
pub(crate) fn clean_slate(alloc: Global) -> Slate {
    DeviceWith::with(SlateMedia {
        has_line: false,
        written: Vec::new(alloc),
    })
}

/// Puts its line on a slate.
pub(crate) fn put_line(slate: &mut Slate) -> Result<(), AllocError> {
    let mut change = slate.change_by((true, Motion::Stay));
    slate.room(&change)?;
    slate.swap(&mut change);
    Ok(())
}

impl SlateMedia {
    /// Whether a line was put on it that was not read.
    fn has_line(&self) -> bool
        ensures { result ≡ self.now.media.has_line }
    {
        self.has_line
    }

    /// What it does to it to read its line, if there is one.
    fn reading(&self) -> Option<Change>
        ensures { MakesMedia slate_kind self.now.media (after_reading self.now.media) result }
    {
        if self.has_line {
            Some((false, Motion::Stay))
        } else {
            None
        }
    }

    /// The lines written.
    pub(crate) fn written(&self) -> &[Line] {
        self.written.as_slice()
    }
}

impl Media for SlateMedia {
    ghost use Rattle.s360_rows.specs.Slate.{SlateMedia as Seen, slate_change_restores_both};
    ghost use Rattle.std.proofs.Common.{refl};

    type Change = (bool, Motion<Line>);

    ghost Whole = { Seen };

    ghost Seen = { Seen };

    ghost kind = { slate_kind };

    ghost whole = { λ m. m.media };

    ghost room_of = { λ m. m.room };

    ghost made = { λ s room. record { media = s; room = room } };

    fn sense_bytes() -> usize {
        1
    }

    fn input(&self, code: u8) -> Given<'_> {
        if code == 0x02 && self.has_line() {
            Given::forward(&LINE)
        } else {
            Given::nothing()
        }
    }

    fn row(&self, code: u8) -> Row<Change> {
        match code {
            0x01 => Row::Output {
                limit: 12,
                exception: false,
            },
            0x02 if self.has_line() => Row::Input {
                change: self.reading(),
                exception: false,
            },
            0x02 => Row::NotYet,
            _ => Row::Refused(COMMAND_REJECT),
        }
    }

    fn written(&self, code: u8, bytes: &[u8]) -> Result<Option<Change>, AllocError> {
        if code != 0x01 {
            return Ok(None);
        }
        Ok(Some((self.has_line, Motion::Put(line_of(bytes)))))
    }

    fn make_room(&mut self, change: &Change) -> Result<(), AllocError> {
        change.1.make_room(&mut self.written)
    }

    fn exchange(&mut self, change: &mut Change) {
        mem::swap(&mut self.has_line, &mut change.0);
        change.1.exchange(&mut self.written);
    }

    fn copy(&self) -> Result<SlateMedia, AllocError> {
        let written = self.written.clone()?;
        let has_line = self.has_line;
        Ok(SlateMedia { has_line, written })
    }

    fn copy_change(change: &Change) -> Result<Change, AllocError> {
        Ok(*change)
    }

    ghost restores_both = { slate_change_restores_both };

    ghost whole_of_made = { λ s room. refl };

    ghost room_of_made = { λ s room. refl };

    ghost made_of_parts = { λ m. refl };
}
