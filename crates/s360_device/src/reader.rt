//! The card reader of the 2540. Source: A21-9033, "2540 Card Read Punch".
ghost use Rattle.std.specs.Prelude.{◌≡◌, IfSome, length};
ghost use Rattle.std.specs.Option.{option_copied};
ghost use Rattle.s360_model.specs.Cards.{columns};
ghost use Rattle.s360_device.specs.DeviceChanges.{device_after_swap, device_change_after_swap, device_needs, CanSwapDevice, bare};
ghost use Rattle.s360_device.specs.Items.{item_in};
ghost use Rattle.s360_device.specs.Kinds.{MakesMedia};
ghost use Rattle.s360_device.specs.Reader.{new_reader, next_card, with_end_key};
ghost use Rattle.s360_device.specs.ReaderChanges.{fed_if, reader_kind};

use crate::card::{Card, ReadStacker};
use crate::deck::Deck;
use crate::device_with::{DeviceChange, DeviceWith};
use crate::media::Media;
use crate::motion::Motion;
use crate::reader_change::ReaderChange;
use crate::reader_command::ReaderCommand;
use crate::row::{Given, Row};
use crate::sense::{COMMAND_REJECT, INTERVENTION_REQUIRED};
use std::alloc::{AllocError, Global};
use std::marker::Model;
use std::mem;

/// The card reader, with one deck for good.
pub type Reader = DeviceWith<ReaderMedia>;

/// The reader's cards, where they are, and its end-of-file key.
pub struct ReaderMedia {
    deck: Deck,
    stackers: Vec<ReadStacker>,
    end_of_file: bool,
}

impl Drop for ReaderMedia {
    fn drop(self) {
        let ReaderMedia {
            deck: _,
            stackers: _,
            end_of_file: _,
        } = self;
    }
}

impl Model for ReaderMedia {
    ghost use Rattle.s360_device.specs.Kinds.{MediaWithRoom, room_in};
    ghost use Rattle.s360_device.specs.Reader.{ReaderMedia as Seen};

    ghost Value = { MediaWithRoom Seen };

    ghost view = { λ r. record { media = record { cards = r.deck; stackers = r.stackers.items; end_of_file = r.end_of_file }; room = room_in r.stackers } };
}

impl Reader {
    /// A reader with a deck in its hopper. It takes no memory.
    pub fn new(alloc: Global, deck: Deck) -> Reader
        ensures { bare result ≡ new_reader deck }
    {
        DeviceWith::with(ReaderMedia {
            deck,
            stackers: Vec::new(alloc),
            end_of_file: false,
        })
    }

    /// What the end-of-file key does: it stays pressed. It takes no memory, and nor does its exchange.
    pub fn plan_end_key(&self) -> DeviceChange<ReaderChange>
        ensures can { CanSwapDevice reader_kind (bare self.now) result }
        ensures pressed { device_after_swap reader_kind (bare self.now) result ≡ with_end_key (bare self.now) }
        ensures room { device_needs reader_kind result ≡ 0 }
        ensures back { device_needs reader_kind (device_change_after_swap reader_kind (bare self.now) result) ≡ 0 }
    {
        self.change_by(ReaderChange {
            end_of_file: true,
            motion: Motion::Stay,
        })
    }
}

impl ReaderMedia {
    /// The number of cards of the deck.
    pub fn cards(&self) -> usize
        ensures { result ≡ length self.now.media.cards }
    {
        self.deck.as_slice().len()
    }

    /// The number of cards fed.
    pub fn fed(&self) -> usize
        ensures { result ≡ length self.now.media.stackers }
    {
        self.stackers.len()
    }

    /// A card of the deck, by its number from 1, if there is one.
    pub fn card(&self, number: usize) -> Option<&Card>
        ensures { option_copied result ≡ item_in self.now.media.cards number }
    {
        self.deck.get(number.checked_sub(1)?)
    }

    /// The stacker to which a card was fed, by the card's number from 1, if it was.
    pub fn stacker(&self, number: usize) -> Option<ReadStacker>
        ensures { result ≡ item_in self.now.media.stackers number }
    {
        self.stackers.get(number.checked_sub(1)?).copied()
    }

    /// Whether the end-of-file key was pressed.
    pub fn end_of_file(&self) -> bool
        ensures { result ≡ self.now.media.end_of_file }
    {
        self.end_of_file
    }

    /// The card that is read or fed next, if one is left.
    fn next_card(&self) -> Option<&Card>
        ensures card { option_copied result ≡ next_card self.now.media }
        ensures columns { IfSome result (λ card. length card.now ≡ columns) }
    {
        self.deck.get(self.stackers.len())
    }

    /// The next card is fed to a stacker, if it is.
    fn feeding(&self, stacker: Option<ReadStacker>) -> Option<ReaderChange>
        ensures { MakesMedia reader_kind self.now.media (fed_if self.now.media stacker) result }
    {
        Some(ReaderChange {
            end_of_file: self.end_of_file,
            motion: Motion::Put(stacker?),
        })
    }
}

impl Media for ReaderMedia {
    ghost use Rattle.s360_device.specs.Reader.{ReaderMedia as Seen};
    ghost use Rattle.s360_device.specs.ReaderChanges.{reader_kind};
    ghost use Rattle.s360_device.specs.ReaderLaws.{reader_change_restores_both};
    ghost use Rattle.std.proofs.Common.{refl};

    type Change = ReaderChange;

    ghost Whole = { Seen };

    ghost Seen = { Seen };

    ghost kind = { reader_kind };

    ghost whole = { λ m. m.media };

    ghost room_of = { λ m. m.room };

    ghost made = { λ s room. record { media = s; room = room } };

    fn sense_bytes() -> usize {
        1
    }

    fn input(&self, code: u8) -> Given<'_> {
        match (ReaderCommand::new(code), self.next_card()) {
            (Some(ReaderCommand::Read(_)), Some(card)) => Given::forward(card),
            _ => Given::nothing(),
        }
    }

    fn row(&self, code: u8) -> Row<ReaderChange> {
        let Some(command) = ReaderCommand::new(code) else {
            return Row::Refused(COMMAND_REJECT);
        };
        let (change, exception) = match self.next_card() {
            Some(_) => (self.feeding(command.stacker()), false),
            None if self.end_of_file => (None, true),
            None => return Row::Refused(INTERVENTION_REQUIRED),
        };
        match command {
            ReaderCommand::Read(_) => Row::Input { change, exception },
            ReaderCommand::Feed(_) => Row::Control { change, exception },
        }
    }

    fn written(&self, _code: u8, _bytes: &[u8]) -> Result<Option<ReaderChange>, AllocError> {
        Ok(None)
    }

    fn make_room(&mut self, change: &ReaderChange) -> Result<(), AllocError> {
        change.motion.make_room(&mut self.stackers)
    }

    fn exchange(&mut self, change: &mut ReaderChange) {
        mem::swap(&mut self.end_of_file, &mut change.end_of_file);
        change.motion.exchange(&mut self.stackers);
    }

    fn copy(&self) -> Result<ReaderMedia, AllocError> {
        let deck = self.deck.clone()?;
        let stackers = self.stackers.clone()?;
        let end_of_file = self.end_of_file;
        Ok(ReaderMedia {
            deck,
            stackers,
            end_of_file,
        })
    }

    fn copy_change(change: &ReaderChange) -> Result<ReaderChange, AllocError> {
        Ok(*change)
    }

    ghost restores_both = { reader_change_restores_both };

    ghost whole_of_made = { λ s room. refl };

    ghost room_of_made = { λ s room. refl };

    ghost made_of_parts = { λ m. refl };
}
