//! What a command does at the end of a device's list of items, such as the cards that were punched, and
//! what takes it back.
ghost use Rattle.std.specs.Prelude.{◌≡◌, ◌<◌, ◌≤◌, ◌+◌, vec_len, vec_capacity, OnErr, OnOk};
ghost use Rattle.s360_device.specs.Motions.{CanMove, items_put, after_motion, motion_back};

use std::alloc::AllocError;
use std::mem;

/// What is done at the end of a list.
#[derive(Clone, Copy, PartialEq, Eq, Drop)]
pub enum Motion<T> {
    /// Nothing.
    Stay,
    /// An item is put there.
    Put(T),
    /// The last item is taken.
    Take,
}

impl<T: Drop> Motion<T> {
    /// Makes room for it, after which it takes no memory. Only an item that is put there needs room.
    pub fn make_room(&self, items: &mut Vec<T>) -> Result<(), AllocError>
        ensures items { items.new.items ≡ items.old.items }
        ensures ok { OnOk result (vec_len items.new + items_put self.now ≤ vec_capacity items.new) }
        ensures memory { OnErr result (0 < items_put self.now) }
    {
        match self {
            Motion::Put(_) => items.reserve(1),
            _ => Ok(()),
        }
    }

    /// Does it, and becomes what takes it back. It takes no memory.
    pub fn exchange(&mut self, items: &mut Vec<T>)
        requires can { CanMove items.old.items self.old }
        requires room { vec_len items.old + items_put self.old ≤ vec_capacity items.old }
        ensures items { items.new.items ≡ after_motion items.old.items self.old }
        ensures motion { self.new ≡ motion_back items.old.items self.old }
    {
        *self = match mem::replace(self, Motion::Stay) {
            Motion::Stay => Motion::Stay,
            Motion::Put(item) => {
                items.push_reserved(item);
                Motion::Take
            }
            Motion::Take => Motion::Put(items.take_last()),
        };
    }
}
