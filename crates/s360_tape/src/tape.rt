//! A 2400 magnetic tape. Source: GA22-6866, "2400-Series Magnetic Tape Units".
//!
//! The items lie in slots, one after another. A write exchanges the item in the slot at the position,
//! and those after it stay where they are, out of sight, so that what takes the write back needs no
//! memory. A command takes time in proportion to its block, and never to the tape, but for the two
//! that space over a file.
ghost use Rattle.std.specs.Prelude.{◌≡◌, ◌<◌, ◌≤◌, ◌+◌, ◌^◌, [], IfSome, Some, false, length, slice_get};
ghost use Rattle.std.specs.Option.{option_copied};
ghost use Rattle.s360_device.specs.DeviceChanges.{bare};
ghost use Rattle.s360_device.specs.Items.{item_in};
ghost use Rattle.s360_device.specs.Kinds.{MakesMedia};
ghost use Rattle.s360_tape.specs.Tape.{new_tape, with_item};
ghost use Rattle.s360_tape.specs.WholeTape.{seen, seen_media, tape_kind};

use crate::block::Block;
use crate::item::TapeItem;
use crate::slot_change::SlotChange;
use crate::tape_change::TapeChange;
use crate::tape_command::TapeCommand;
use s360_device::{DeviceWith, Given, Media, Motion, Row};
use std::alloc::{AllocError, Global};
use std::marker::Model;
use std::mem;

/// A magnetic tape.
pub type Tape = DeviceWith<TapeMedia>;

/// The items of a tape, its position, and whether it is protected or unloaded.
pub struct TapeMedia {
    slots: Vec<TapeItem>,
    visible: usize,
    position: usize,
    protected: bool,
    unloaded: bool,
}

impl Drop for TapeMedia {
    fn drop(self) {
        let TapeMedia {
            slots: _,
            visible: _,
            position: _,
            protected: _,
            unloaded: _,
        } = self;
    }
}

impl Model for TapeMedia {
    ghost use Rattle.std.specs.Prelude.{◌≤◌, length};
    ghost use Rattle.s360_device.specs.Kinds.{MediaWithRoom, room_in};
    ghost use Rattle.s360_tape.specs.WholeTape.{WholeTapeMedia};

    ghost Value = { MediaWithRoom WholeTapeMedia };

    ghost view = { λ t. record {
      media = record { slots = t.slots.items; visible = t.visible; position = t.position; protected = t.protected; unloaded = t.unloaded };
      room = room_in t.slots;
    } };

    ghost invariant = { λ t. (t.position ≤ t.visible) × (t.visible ≤ length t.slots.items) };
}

/// A tape with these items, at its load point. It takes no memory.
pub(crate) fn tape_with(slots: Vec<TapeItem>, protected: bool) -> Tape
    ensures { seen (bare result) ≡ new_tape slots.items protected }
{
    DeviceWith::with(TapeMedia {
        visible: slots.len(),
        slots,
        position: 0,
        protected,
        unloaded: false,
    })
}

/// A blank tape, which is not protected. It takes no memory.
pub fn blank_tape(alloc: Global) -> Tape
    ensures { seen (bare result) ≡ new_tape [] false }
{
    tape_with(Vec::new(alloc), false)
}

impl TapeMedia {
    /// The items that can be seen.
    pub(crate) fn as_slice(&self) -> &[TapeItem]
        ensures items { result.now ≡ (seen_media self.now.media).items }
        ensures visible { length result.now ≡ self.now.media.visible }
    {
        &self.slots[..self.visible]
    }

    /// The number of blocks and marks.
    pub fn items(&self) -> usize
        ensures { result ≡ length (seen_media self.now.media).items }
    {
        self.as_slice().len()
    }

    /// A block or mark, by its number from 1, if there is one.
    pub fn item(&self, number: usize) -> Option<&TapeItem>
        ensures { option_copied result ≡ item_in (seen_media self.now.media).items number }
    {
        self.as_slice().get(number.checked_sub(1)?)
    }

    /// The block or mark at the position, if there is one.
    pub(crate) fn next_item(&self) -> Option<&TapeItem>
        ensures item { option_copied result ≡ slice_get (seen_media self.now.media).items self.now.media.position }
        ensures inside { IfSome result (λ item. self.now.media.position < self.now.media.visible) }
        ensures fits { IfSome result (λ item. self.now.media.position + 1 < 2 ^ 64) }
    {
        self.as_slice().get(self.position)
    }

    /// The number of blocks and marks before the position.
    pub fn position(&self) -> usize
        ensures place { result ≡ self.now.media.position }
        ensures inside { result ≤ length (seen_media self.now.media).items }
    {
        self.position
    }

    /// Whether the tape is protected against writing.
    pub fn protected(&self) -> bool
        ensures { result ≡ self.now.media.protected }
    {
        self.protected
    }

    /// Whether the tape is unloaded.
    pub fn unloaded(&self) -> bool
        ensures { result ≡ self.now.media.unloaded }
    {
        self.unloaded
    }

    /// The tape goes to a position, where it is not there yet, and may be unloaded.
    pub(crate) fn moving(&self, place: usize, unloaded: bool) -> Option<TapeChange>
        requires place { place ≤ self.now.media.visible }
        ensures { MakesMedia tape_kind self.now.media (record (seen_media self.now.media) { position = place; unloaded = unloaded }) result }
    {
        if place == self.position && unloaded == self.unloaded {
            return None;
        }
        Some(TapeChange {
            slot: SlotChange::End(Motion::Stay),
            position: place,
            visible: self.visible,
            unloaded,
        })
    }

    /// An item is written.
    pub(crate) fn writing(&self, item: TapeItem) -> TapeChange
        ensures { MakesMedia tape_kind self.now.media (with_item (seen_media self.now.media) item) (Some result) }
    {
        let slot = if self.position < self.slots.len() {
            SlotChange::At(self.position, item)
        } else {
            SlotChange::End(Motion::Put(item))
        };
        TapeChange {
            slot,
            position: self.position + 1,
            visible: self.position + 1,
            unloaded: self.unloaded,
        }
    }
}

impl Media for TapeMedia {
    ghost use Rattle.std.proofs.Common.{refl};
    ghost use Rattle.s360_tape.specs.Tape.{TapeMedia as Contents};
    ghost use Rattle.s360_tape.specs.TapeLaws.{tape_change_restores_both};
    ghost use Rattle.s360_tape.specs.WholeTape.{WholeTapeMedia, tape_kind};

    type Change = TapeChange;

    ghost Whole = { WholeTapeMedia };

    ghost Seen = { Contents };

    ghost kind = { tape_kind };

    ghost whole = { λ m. m.media };

    ghost room_of = { λ m. m.room };

    ghost made = { λ s room. record { media = s; room = room } };

    fn sense_bytes() -> usize {
        6
    }

    fn input(&self, code: u8) -> Given<'_> {
        self.given(code)
    }

    fn row(&self, code: u8) -> Row<TapeChange> {
        self.row_of(code)
    }

    fn written(&self, code: u8, bytes: &[u8]) -> Result<Option<TapeChange>, AllocError> {
        match TapeCommand::new(code) {
            Some(TapeCommand::Write) if !self.unloaded && !self.protected => {
                let block = Block::copied(*self.slots.allocator(), bytes)?;
                Ok(Some(self.writing(TapeItem::Block(block))))
            }
            _ => Ok(None),
        }
    }

    fn make_room(&mut self, change: &TapeChange) -> Result<(), AllocError> {
        change.slot.make_room(&mut self.slots)
    }

    fn exchange(&mut self, change: &mut TapeChange) {
        mem::swap(&mut self.position, &mut change.position);
        mem::swap(&mut self.unloaded, &mut change.unloaded);
        mem::swap(&mut self.visible, &mut change.visible);
        change.slot.exchange(&mut self.slots);
    }

    fn copy(&self) -> Result<TapeMedia, AllocError> {
        let slots = self.slots.clone()?;
        Ok(TapeMedia {
            slots,
            visible: self.visible,
            position: self.position,
            protected: self.protected,
            unloaded: self.unloaded,
        })
    }

    fn copy_change(change: &TapeChange) -> Result<TapeChange, AllocError> {
        change.clone()
    }

    ghost restores_both = { tape_change_restores_both };

    ghost whole_of_made = { λ s room. refl };

    ghost room_of_made = { λ s room. refl };

    ghost made_of_parts = { λ m. refl };
}
