//! The card punch of the 2540. Its cards never run out. Source: A21-9033, "2540 Card Read Punch".
ghost use Rattle.std.specs.Prelude.{◌≡◌, length};
ghost use Rattle.std.specs.Option.{option_copied};
ghost use Rattle.s360_model.specs.Tables.{entry_in};
ghost use Rattle.s360_device.specs.DeviceChanges.{bare};
ghost use Rattle.s360_device.specs.Items.{item_in};
ghost use Rattle.s360_device.specs.Punch.{new_punch, punch_commands};

use crate::card::{COLUMNS, PunchStacker, Punched, PunchedCard};
use crate::device_with::DeviceWith;
use crate::media::Media;
use crate::motion::Motion;
use crate::row::{Given, Row};
use crate::sense::COMMAND_REJECT;
use std::alloc::{AllocError, Global};
use std::marker::Model;

/// The card punch.
pub type Punch = DeviceWith<PunchMedia>;

/// The cards punched.
#[derive(Drop)]
pub struct PunchMedia {
    cards: Vec<PunchedCard>,
}

impl Model for PunchMedia {
    ghost use Rattle.std.specs.Prelude.{List};
    ghost use Rattle.s360_device.specs.Kinds.{MediaWithRoom, room_in};
    ghost use Rattle.s360_device.specs.declared.card.PunchedCard.{PunchedCard};

    ghost Value = { MediaWithRoom (List PunchedCard) };

    ghost view = { λ p. record { media = p.cards.items; room = room_in p.cards } };
}

/// Where a command that punches stacks the card.
fn stacker_of(code: u8) -> Option<PunchStacker>
    ensures { result ≡ entry_in punch_commands code }
{
    match code {
        0x01 => Some(PunchStacker::P1),
        0x41 => Some(PunchStacker::P2),
        0x81 => Some(PunchStacker::Rp3),
        _ => None,
    }
}

impl Punch {
    /// A punch with no card punched. It takes no memory.
    pub fn new(alloc: Global) -> Punch
        ensures { bare result ≡ new_punch }
    {
        DeviceWith::with(PunchMedia {
            cards: Vec::new(alloc),
        })
    }
}

impl PunchMedia {
    /// The number of cards punched.
    pub fn cards(&self) -> usize
        ensures { result ≡ length self.now.media }
    {
        self.cards.len()
    }

    /// A card that was punched, by its number from 1, if there is one.
    pub fn card(&self, number: usize) -> Option<&PunchedCard>
        ensures { option_copied result ≡ item_in self.now.media number }
    {
        self.cards.get(number.checked_sub(1)?)
    }
}

impl Media for PunchMedia {
    ghost use Rattle.std.specs.Prelude.{List};
    ghost use Rattle.s360_device.specs.declared.card.PunchedCard.{PunchedCard};
    ghost use Rattle.s360_device.specs.Punch.{punch_kind, punch_table};
    ghost use Rattle.s360_device.specs.MotionLaws.{motion_restores_both};
    ghost use Rattle.std.proofs.Common.{refl};

    type Change = Motion<PunchedCard>;

    ghost Whole = { List PunchedCard };

    ghost Seen = { List PunchedCard };

    ghost kind = { punch_kind };

    ghost whole = { λ m. m.media };

    ghost room_of = { λ m. m.room };

    ghost made = { λ s room. record { media = s; room = room } };

    fn sense_bytes() -> usize {
        1
    }

    fn input(&self, _code: u8) -> Given<'_> {
        Given::nothing()
    }

    fn row(&self, code: u8) -> Row<Motion<PunchedCard>> {
        match stacker_of(code) {
            Some(_) => Row::Output {
                limit: COLUMNS as u32,
                exception: false,
            },
            None => Row::Refused(COMMAND_REJECT),
        }
    }

    fn written(&self, code: u8, bytes: &[u8]) -> Result<Option<Motion<PunchedCard>>, AllocError> {
        let Some(stacker) = stacker_of(code) else {
            return Ok(None);
        };
        let card = Punched::new(*self.cards.allocator(), bytes)?;
        Ok(Some(Motion::Put(PunchedCard { card, stacker })))
    }

    fn make_room(&mut self, change: &Motion<PunchedCard>) -> Result<(), AllocError> {
        change.make_room(&mut self.cards)
    }

    fn exchange(&mut self, change: &mut Motion<PunchedCard>) {
        change.exchange(&mut self.cards);
    }

    fn copy(&self) -> Result<PunchMedia, AllocError> {
        let cards = self.cards.clone()?;
        Ok(PunchMedia { cards })
    }

    fn copy_change(change: &Motion<PunchedCard>) -> Result<Motion<PunchedCard>, AllocError> {
        change.clone()
    }

    ghost restores_both = { motion_restores_both punch_table };

    ghost whole_of_made = { λ s room. refl };

    ghost room_of_made = { λ s room. refl };

    ghost made_of_parts = { λ m. refl };
}
