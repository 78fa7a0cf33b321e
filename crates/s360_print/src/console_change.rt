//! What a command or the operator does to the console's media.
ghost use Rattle.std.specs.Prelude.{◌≡◌, ◌<◌, ◌≤◌, ◌+◌, vec_len, vec_capacity, OnErr, OnOk};
ghost use Rattle.s360_print.specs.ConsoleChanges.{CanChangeList, entered_after, items_needed, list_change_back, typed_after};

use crate::typed_line::{Line, TypedItem};
use s360_device::Motion;
use std::alloc::AllocError;

/// What is exchanged with the media of a console.
#[derive(Clone)]
pub struct ConsoleChange {
    /// What is done to one of its lists.
    pub(crate) list: ListChange,
    /// How many of the entered lines were taken.
    pub(crate) taken: usize,
}

impl Drop for ConsoleChange {
    fn drop(self) {
        let ConsoleChange { list: _, taken: _ } = self;
    }
}

/// What is done to one of the console's two lists. Nothing alters both.
#[derive(Clone, Drop)]
pub(crate) enum ListChange {
    /// An item is typed, or taken back, or nothing is done.
    Typed(Motion<TypedItem>),
    /// A line is entered, or taken back.
    Entered(Motion<Line>),
}

impl ListChange {
    /// Makes room for it, after which it takes no memory. Only an item that is put into a list needs room.
    pub(crate) fn make_room(
        &self,
        typed: &mut Vec<TypedItem>,
        entered: &mut Vec<Line>,
    ) -> Result<(), AllocError>
        ensures typed { typed.new.items ≡ typed.old.items }
        ensures entered { entered.new.items ≡ entered.old.items }
        ensures room_typed { OnOk result (vec_len typed.new + items_needed self.now ≤ vec_capacity typed.new) }
        ensures room_entered { OnOk result (vec_len entered.new + items_needed self.now ≤ vec_capacity entered.new) }
        ensures memory { OnErr result (0 < items_needed self.now) }
    {
        match self {
            ListChange::Typed(Motion::Put(_)) | ListChange::Entered(Motion::Put(_)) => {
                typed.reserve(1)?;
                entered.reserve(1)
            }
            _ => Ok(()),
        }
    }

    /// Does it, and becomes what takes it back. It takes no memory.
    pub(crate) fn exchange(&mut self, typed: &mut Vec<TypedItem>, entered: &mut Vec<Line>)
        requires can { CanChangeList typed.old.items entered.old.items self.old }
        requires room_typed { vec_len typed.old + items_needed self.old ≤ vec_capacity typed.old }
        requires room_entered { vec_len entered.old + items_needed self.old ≤ vec_capacity entered.old }
        ensures typed { typed.new.items ≡ typed_after typed.old.items self.old }
        ensures entered { entered.new.items ≡ entered_after entered.old.items self.old }
        ensures change { self.new ≡ list_change_back typed.old.items entered.old.items self.old }
    {
        match self {
            ListChange::Typed(motion) => motion.exchange(typed),
            ListChange::Entered(motion) => motion.exchange(entered),
        }
    }
}
