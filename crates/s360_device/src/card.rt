//! Punched cards, and where the 2540 stacks them. Source: A21-9033, "2540 Card Read Punch".
ghost use Rattle.std.specs.Prelude.{◌≡◌, ◌≤◌, IfOk, length};
ghost use Rattle.s360_model.specs.Cards.{columns, card_of};

use std::alloc::{AllocError, Global};
use std::marker::Model;

/// Columns of a card.
pub const COLUMNS: usize = 80;

/// A card: the bytes of its 80 columns, in EBCDIC.
pub type Card = [u8; COLUMNS];

/// A column with no hole.
const BLANK: u8 = 0x40;

/// The reader's stackers.
#[derive(Clone, Copy, PartialEq, Eq)]
pub enum ReadStacker {
    /// The first, on the outside.
    R1,
    /// The second.
    R2,
    /// The one in the middle, seen from the reader.
    Rp3,
}

/// The punch's stackers.
#[derive(Clone, Copy, PartialEq, Eq)]
pub enum PunchStacker {
    /// The first, on the outside.
    P1,
    /// The second.
    P2,
    /// The one in the middle, seen from the punch.
    Rp3,
}

/// What is punched in a card. It stands apart from the change that has it, so that one that punches nothing is small.
/// A contract sees the bytes of the card's columns.
#[derive(Drop)]
pub struct Punched {
    card: Box<Card>,
}

impl Model for Punched {
    ghost use Rattle.std.specs.Prelude.{List, ℕ, box_value};

    ghost Value = { List ℕ };

    ghost view = { λ p. box_value p.card };
}

/// A card that was punched.
#[derive(Clone, Drop)]
pub struct PunchedCard {
    /// What is punched in it.
    pub card: Punched,
    /// Where it lies.
    pub stacker: PunchStacker,
}

/// A card with at most 80 bytes in its first columns, and blanks in the others.
fn card_of(bytes: &[u8]) -> Card
    requires { length bytes.now ≤ columns }
    ensures { result ≡ card_of bytes.now }
{
    let mut card = [BLANK; COLUMNS];
    card[..bytes.len()].copy_from_slice(bytes);
    card
}

impl Clone for Punched {
    ghost use Rattle.std.specs.Prelude.{◌≡◌};

    ghost is_clone = { λ punched copied. copied ≡ punched };

    fn clone(&self) -> Result<Punched, AllocError> {
        let card = self.card.clone()?;
        Ok(Punched { card })
    }
}

impl Punched {
    /// At most 80 bytes in the first columns of a card, and blanks in the others.
    pub(crate) fn new(alloc: Global, bytes: &[u8]) -> Result<Punched, AllocError>
        requires { length bytes.now ≤ columns }
        ensures { IfOk result (λ card. card ≡ card_of bytes.now) }
    {
        let card = Box::new(alloc, card_of(bytes))?;
        Ok(Punched { card })
    }

    /// The bytes of the columns, in EBCDIC.
    pub fn as_slice(&self) -> &[u8]
        ensures { result.now ≡ self.now }
    {
        self.card.as_slice()
    }
}
