//! Decks of cards, and the files that they are read from. Source: A21-9033, "2540 Card Read Punch".
ghost use Rattle.std.specs.Prelude.{◌≡◌, ◌<◌, length, slice_get, Err, MatchOption, IfOk, IfSome, IsOkUnless, OnErr};
ghost use Rattle.std.specs.Option.{option_copied};
ghost use Rattle.s360_model.specs.Cards.{columns, IsDeckFile, short_card_of};
ghost use Rattle.s360_device.specs.declared.fault.DeckFault.TheVariants.{ShortCard, Memory};

use crate::card::{COLUMNS, Card};
use crate::fault::DeckFault;
use std::alloc::{AllocError, Global};
use std::marker::Model;

/// Cards in the order in which they are fed. A contract sees the list of them.
#[derive(Drop)]
pub struct Deck {
    cards: Vec<Card>,
}

impl Model for Deck {
    ghost use Rattle.std.specs.Prelude.{List, ℕ};
    ghost use Rattle.s360_model.specs.Cards.{AreCards};

    ghost Value = { List (List ℕ) };

    ghost view = { λ d. d.cards.items };

    ghost invariant = { λ d. AreCards d.cards.items };
}

impl Clone for Deck {
    ghost use Rattle.std.specs.Prelude.{◌≡◌};

    ghost is_clone = { λ deck copied. copied ≡ deck };

    fn clone(&self) -> Result<Deck, AllocError> {
        let cards = Vec::from_slice(*self.cards.allocator(), self.as_slice())?;
        Ok(Deck { cards })
    }
}

impl Deck {
    /// The cards.
    pub fn as_slice(&self) -> &[Card]
        ensures { result.now ≡ self.now }
    {
        self.cards.as_slice()
    }

    /// The card at an index, counted from 0, if there is one.
    pub(crate) fn get(&self, i: usize) -> Option<&Card>
        ensures card { option_copied result ≡ slice_get self.now i }
        ensures columns { IfSome result (λ card. length card.now ≡ columns) }
    {
        self.cards.get(i)
    }
}

/// Cards copied. Of none it takes no memory.
fn copied(alloc: Global, cards: &[Card]) -> Result<Vec<Card>, AllocError>
    ensures cards { IfOk result (λ copied. copied.items ≡ cards.now) }
    ensures memory { OnErr result (0 < length cards.now) }
{
    if cards.is_empty() {
        return Ok(Vec::new(alloc));
    }
    Vec::from_slice(alloc, cards)
}

/// The deck that is in a file: cards of 80 bytes, joined. An empty file is a deck of no card, and takes no memory.
pub fn deck_from(alloc: Global, file: &[u8]) -> Result<Deck, DeckFault>
    ensures deck { IfOk result (λ deck. IsDeckFile file.now deck) }
    ensures refused { MatchOption (short_card_of file.now) (IsOkUnless result Memory) (λ start. result ≡ Err (ShortCard start)) }
    ensures nothing { OnErr result (0 < length file.now) }
{
    let (cards, short) = file.as_chunks::<COLUMNS>();
    if !short.is_empty() {
        return Err(DeckFault::ShortCard(file.len() - short.len()));
    }
    let cards = copied(alloc, cards)?;
    Ok(Deck { cards })
}
