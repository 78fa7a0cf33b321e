//! The 1052 console: what it typed, and the lines that the operator entered. Source: the component
//! description of the 1052.
ghost use Rattle.std.specs.Prelude.{◌≡◌, ◌≤◌, Some, IfOk, length, slice_get};
ghost use Rattle.std.specs.Option.{option_copied};
ghost use Rattle.s360_device.specs.Items.{item_in};
ghost use Rattle.s360_device.specs.Kinds.{MakesMedia};
ghost use Rattle.s360_print.specs.TypedLines.{line_limit};
ghost use Rattle.s360_print.specs.Console.{new_console, with_item, with_line};
ghost use Rattle.s360_print.specs.ConsoleChanges.{console_kind};

use crate::console_change::{ConsoleChange, ListChange};
use crate::console_command::ConsoleCommand;
use crate::typed_line::{LINE_LIMIT, Line, TypedItem};
use s360_device::{COMMAND_REJECT, DeviceWith, Given, Media, Motion, Row};
use std::alloc::{AllocError, Global};
use std::marker::Model;
use std::mem;

/// The console.
pub type Console = DeviceWith<ConsoleMedia>;

/// What the console typed, and the lines that were entered.
pub struct ConsoleMedia {
    alloc: Global,
    typed: Vec<TypedItem>,
    entered: Vec<Line>,
    taken: usize,
}

impl Drop for ConsoleMedia {
    fn drop(self) {
        let ConsoleMedia {
            alloc: _,
            typed: _,
            entered: _,
            taken: _,
        } = self;
    }
}

impl Model for ConsoleMedia {
    ghost use Rattle.std.specs.Prelude.{min};
    ghost use Rattle.s360_device.specs.Kinds.{MediaWithRoom, room_in};
    ghost use Rattle.s360_print.specs.Console.{ConsoleMedia as Seen};

    ghost Value = { MediaWithRoom Seen };

    ghost view = { λ c. record {
      media = record { typed = c.typed.items; entered = c.entered.items; taken = c.taken };
      room = min (room_in c.typed) (room_in c.entered);
    } };
}

impl ConsoleMedia {
    /// Those of a console with nothing typed or entered. It takes no memory.
    pub fn new(alloc: Global) -> ConsoleMedia
        ensures { result.media ≡ new_console.media }
    {
        ConsoleMedia {
            alloc,
            typed: Vec::new(alloc),
            entered: Vec::new(alloc),
            taken: 0,
        }
    }

    /// The number of items typed.
    pub fn typed_count(&self) -> usize
        ensures { result ≡ length self.now.media.typed }
    {
        self.typed.len()
    }

    /// What was typed, by its number from 1, if there is such an item.
    pub fn typed(&self, number: usize) -> Option<&TypedItem>
        ensures { option_copied result ≡ item_in self.now.media.typed number }
    {
        self.typed.get(number.checked_sub(1)?)
    }

    /// The number of lines entered.
    pub fn entered_count(&self) -> usize
        ensures { result ≡ length self.now.media.entered }
    {
        self.entered.len()
    }

    /// A line that was entered, by its number from 1, if there is one.
    pub fn line(&self, number: usize) -> Option<&Line>
        ensures { option_copied result ≡ item_in self.now.media.entered number }
    {
        self.entered.get(number.checked_sub(1)?)
    }

    /// The number of entered lines that were taken, which are the first ones.
    pub fn taken(&self) -> usize
        ensures { result ≡ self.now.media.taken }
    {
        self.taken
    }

    /// What the entering of a line does. Its exchange needs room, and to take it back none.
    pub fn plan_line(&self, line: &[u8]) -> Result<ConsoleChange, AllocError>
        requires fits { length line.now ≤ line_limit }
        ensures entered { IfOk result (λ x. MakesMedia console_kind self.now.media (with_line self.now.media line.now) (Some x)) }
        ensures room { IfOk result (λ x. console_kind.needs x ≡ 1) }
    {
        let line = Line::new(self.alloc, line)?;
        Ok(ConsoleChange {
            list: ListChange::Entered(Motion::Put(line)),
            taken: self.taken,
        })
    }

    /// The first entered line that was not taken yet, if there is one.
    fn next_line(&self) -> Option<&Line>
        ensures { option_copied result ≡ slice_get self.now.media.entered self.now.media.taken }
    {
        self.entered.get(self.taken)
    }

    /// An item more is typed.
    fn typing(&self, item: TypedItem) -> ConsoleChange
        ensures { MakesMedia console_kind self.now.media (with_item self.now.media item) (Some result) }
    {
        ConsoleChange {
            list: ListChange::Typed(Motion::Put(item)),
            taken: self.taken,
        }
    }
}

impl Media for ConsoleMedia {
    ghost use Rattle.std.proofs.Common.{refl};
    ghost use Rattle.s360_print.specs.Console.{ConsoleMedia as Contents};
    ghost use Rattle.s360_print.specs.ConsoleChanges.{console_kind};
    ghost use Rattle.s360_print.specs.ConsoleLaws.{console_change_restores_both};

    type Change = ConsoleChange;

    ghost Whole = { Contents };

    ghost Seen = { Contents };

    ghost kind = { console_kind };

    ghost whole = { λ m. m.media };

    ghost room_of = { λ m. m.room };

    ghost made = { λ s room. record { media = s; room = room } };

    fn sense_bytes() -> usize {
        1
    }

    fn input(&self, code: u8) -> Given<'_> {
        match (ConsoleCommand::new(code), self.next_line()) {
            (Some(ConsoleCommand::Read), Some(line)) => Given::forward(line.as_slice()),
            _ => Given::nothing(),
        }
    }

    fn row(&self, code: u8) -> Row<ConsoleChange> {
        match ConsoleCommand::new(code) {
            Some(ConsoleCommand::Write | ConsoleCommand::WriteAndReturn) => Row::Output {
                limit: LINE_LIMIT as u32,
                exception: false,
            },
            Some(ConsoleCommand::Read) => match self.next_line() {
                Some(_) => Row::Input {
                    change: Some(ConsoleChange {
                        list: ListChange::Typed(Motion::Stay),
                        taken: self.taken + 1,
                    }),
                    exception: false,
                },
                None => Row::NotYet,
            },
            Some(ConsoleCommand::SoundAlarm) => Row::Control {
                change: Some(self.typing(TypedItem::Alarm)),
                exception: false,
            },
            None => Row::Refused(COMMAND_REJECT),
        }
    }

    fn written(&self, code: u8, bytes: &[u8]) -> Result<Option<ConsoleChange>, AllocError> {
        let item = match ConsoleCommand::new(code) {
            Some(ConsoleCommand::Write) => TypedItem::Text(Line::new(self.alloc, bytes)?),
            Some(ConsoleCommand::WriteAndReturn) => {
                TypedItem::Return(Line::new(self.alloc, bytes)?)
            }
            _ => return Ok(None),
        };
        Ok(Some(self.typing(item)))
    }

    fn make_room(&mut self, change: &ConsoleChange) -> Result<(), AllocError> {
        change.list.make_room(&mut self.typed, &mut self.entered)
    }

    fn exchange(&mut self, change: &mut ConsoleChange) {
        mem::swap(&mut self.taken, &mut change.taken);
        change.list.exchange(&mut self.typed, &mut self.entered);
    }

    fn copy(&self) -> Result<ConsoleMedia, AllocError> {
        let typed = self.typed.clone()?;
        let entered = self.entered.clone()?;
        Ok(ConsoleMedia {
            alloc: self.alloc,
            typed,
            entered,
            taken: self.taken,
        })
    }

    fn copy_change(change: &ConsoleChange) -> Result<ConsoleChange, AllocError> {
        change.clone()
    }

    ghost restores_both = { console_change_restores_both };

    ghost whole_of_made = { λ s room. refl };

    ghost room_of_made = { λ s room. refl };

    ghost made_of_parts = { λ m. refl };
}
