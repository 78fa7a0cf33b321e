//! Input/output devices: what every one of them is to a channel, the card reader and the card punch,
//! and decks of cards.
//!
//! A command is planned first, room is made for its change, and then the change is exchanged with the
//! device, which the same exchange takes back. Source: GA22-6821, "Input/Output Operations".
#![tactic(auto)]

mod card;
mod command_code;
mod deck;
mod device;
mod device_with;
mod fault;
mod laws;
mod media;
mod motion;
mod punch;
mod reader;
mod reader_change;
mod reader_command;
mod row;
mod sense;

pub use card::{COLUMNS, Card, PunchStacker, Punched, PunchedCard, ReadStacker};
pub use command_code::CommandCode;
pub use deck::{Deck, deck_from};
pub use device::{Begin, Device, Planned};
pub use device_with::{DeviceChange, DeviceWith};
pub use fault::DeckFault;
pub use laws::{same_readers_and_punches_are_equal, short_card_is_what_is_left};
pub use media::Media;
pub use motion::Motion;
pub use punch::{Punch, PunchMedia};
pub use reader::{Reader, ReaderMedia};
pub use reader_change::ReaderChange;
pub use row::{Given, Row};
pub use sense::{COMMAND_REJECT, INTERVENTION_REQUIRED, NO_SENSE};
