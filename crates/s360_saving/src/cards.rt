//! The file of the cards that were punched.
ghost use Rattle.std.specs.Prelude.{◌≡◌, ◌++◌, IfOk, OnOk};
ghost use Rattle.s360_saving.specs.Cards.{columns_if_wanted, punch_file};

use s360_device::{PunchMedia, PunchStacker, PunchedCard};
use s360_text::Text;
use std::alloc::{AllocError, Global};

/// The file of all cards, or of those of a stacker, as which they can be read again.
pub(crate) fn cards_of(
    alloc: Global,
    media: &PunchMedia,
    stacker: Option<PunchStacker>,
) -> Result<Text, AllocError>
    ensures { IfOk result (λ text. text ≡ punch_file stacker media.now.media) }
{
    let mut text = Text::new(alloc);
    for index in 0..media.cards() {
        if let Some(card) = media.card(index + 1) {
            push_card(&mut text, stacker, card)?;
        }
    }
    Ok(text)
}

/// Adds the columns of a card, if it lies in the stacker.
fn push_card(
    text: &mut Text,
    stacker: Option<PunchStacker>,
    card: &PunchedCard,
) -> Result<(), AllocError>
    ensures { OnOk result (text.new ≡ text.old ++ columns_if_wanted stacker card.now) }
{
    match stacker {
        Some(stacker) if stacker != card.stacker => Ok(()),
        _ => text.push_bytes(card.card.as_slice()),
    }
}
