//! Why an event is refused.
ghost use Rattle.std.specs.Prelude.{◌≡◌};
ghost use Rattle.s360_machine.specs.declared.refusal.Refusal.TheVariants.{Memory};
ghost use Rattle.s360_machine.specs.Machine.{seen, storage_size};
ghost use Rattle.s360_machine.specs.Refusals.{number_of_refusal, refusal_of, refusal_of_key, refusal_of_patch, refusal_of_unit};

use crate::event::{Event, Patch};
use crate::machine::Machine;
use crate::operator::Key;
use s360_channel::ConfiguredUnit;
use s360_print::LINE_LIMIT;
use s360_word::Unit;
use std::alloc::AllocError;
use thiserror::Error;

/// A patch has at most so many bytes.
const LONGEST_PATCH: usize = 256;

/// Why an event is refused. Its text is the one that a script prints after its number.
#[derive(Clone, Copy, Debug, PartialEq, Eq, Error)]
pub enum Refusal {
    /// A growth was refused.
    #[error("memory")]
    Memory,
    /// A patch names bytes, or a block, that are not in storage.
    #[error("outside storage")]
    OutsideStorage,
    /// The event names a unit that the machine does not have.
    #[error("no such unit")]
    NoSuchUnit,
    /// A line that is entered has more than 256 bytes.
    #[error("line too long")]
    LineTooLong,
    /// A patch has more than 256 bytes.
    #[error("patch too long")]
    PatchTooLong,
    /// As many changes stand as the session's limit allows.
    #[error("journal full")]
    JournalFull,
}

impl Refusal {
    /// The number by which a script prints it.
    pub fn number(self) -> u8
        ensures { result ≡ number_of_refusal self }
    {
        match self {
            Refusal::Memory => 1,
            Refusal::OutsideStorage => 2,
            Refusal::NoSuchUnit => 3,
            Refusal::LineTooLong => 4,
            Refusal::PatchTooLong => 5,
            Refusal::JournalFull => 6,
        }
    }
}

impl From<AllocError> for Refusal {
    ghost from_gives = { λ _ e. e ≡ Memory };

    fn from(_e: AllocError) -> Refusal {
        Refusal::Memory
    }
}

/// Why an event of a unit is refused: the machine lacks it.
fn refusal_of_unit(unit: Unit) -> Option<Refusal>
    ensures { result ≡ refusal_of_unit unit }
{
    match ConfiguredUnit::at(unit) {
        Some(_) => None,
        None => Some(Refusal::NoSuchUnit),
    }
}

/// Why a key is refused.
fn refusal_of_key(key: &Key) -> Option<Refusal>
    ensures { result ≡ refusal_of_key key.now }
{
    match key {
        Key::Load(unit) => refusal_of_unit(*unit),
        Key::Enter(line) if line.as_slice().len() > LINE_LIMIT => Some(Refusal::LineTooLong),
        _ => None,
    }
}

/// Why a patch is refused, of a machine with so many bytes of storage.
fn refusal_of_patch(patch: &Patch, size: u32) -> Option<Refusal>
    ensures { result ≡ refusal_of_patch size patch.now }
{
    match patch {
        Patch::Bytes { at, bytes } => {
            let count = bytes.as_slice().len();
            if count > LONGEST_PATCH {
                Some(Refusal::PatchTooLong)
            } else if u64::from(*at) + count as u64 > u64::from(size) {
                Some(Refusal::OutsideStorage)
            } else {
                None
            }
        }
        Patch::StorageKey { at, .. } | Patch::FetchBit { at, .. } if *at >= size => Some(
            Refusal::OutsideStorage,
        ),
        _ => None,
    }
}

impl Machine {
    /// Why an event is refused whatever the machine's state, by the event and the storage size
    /// alone.
    #[inline(always)]
    pub fn refusal(&self, event: &Event) -> Option<Refusal>
        ensures { result ≡ refusal_of (storage_size (seen self.now.whole)) event.now }
    {
        match event {
            Event::Cpu | Event::Tick => None,
            Event::Channel(unit) => refusal_of_unit(*unit),
            Event::Key(key) => refusal_of_key(key),
            Event::Patch(patch) => refusal_of_patch(patch, self.core.storage().size()),
        }
    }
}
