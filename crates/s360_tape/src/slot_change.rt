//! What a command does to the slots in which a tape's items lie, and what takes it back.
ghost use Rattle.std.specs.Prelude.{◌≡◌, ◌<◌, ◌≤◌, ◌+◌, vec_len, vec_capacity, OnErr, OnOk};
ghost use Rattle.s360_tape.specs.Slots.{CanChangeSlot, slots_put, after_slot, slot_back};

use crate::item::TapeItem;
use s360_device::Motion;
use std::alloc::AllocError;
use std::mem;

/// What is done to the slots.
#[derive(Clone, Drop)]
pub enum SlotChange {
    /// A slot is put at the end, or taken from there, or nothing is done.
    End(Motion<TapeItem>),
    /// The item in a slot, counted from 0, is exchanged with this one.
    At(usize, TapeItem),
}

impl SlotChange {
    /// Makes room for it, after which it takes no memory. Only a slot that is put at the end needs room.
    pub(crate) fn make_room(&self, slots: &mut Vec<TapeItem>) -> Result<(), AllocError>
        ensures slots { slots.new.items ≡ slots.old.items }
        ensures ok { OnOk result (vec_len slots.new + slots_put self.now ≤ vec_capacity slots.new) }
        ensures memory { OnErr result (0 < slots_put self.now) }
    {
        match self {
            SlotChange::End(motion) => motion.make_room(slots),
            SlotChange::At(_, _) => Ok(()),
        }
    }

    /// Does it, and becomes what takes it back. It takes no memory.
    pub(crate) fn exchange(&mut self, slots: &mut Vec<TapeItem>)
        requires can { CanChangeSlot slots.old.items self.old }
        requires room { vec_len slots.old + slots_put self.old ≤ vec_capacity slots.old }
        ensures slots { slots.new.items ≡ after_slot slots.old.items self.old }
        ensures change { self.new ≡ slot_back slots.old.items self.old }
    {
        match self {
            SlotChange::End(motion) => motion.exchange(slots),
            SlotChange::At(slot, item) => mem::swap(&mut slots[*slot], item),
        }
    }
}
