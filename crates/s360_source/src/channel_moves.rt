//! The bytes that a channel command word moves: how many, where they are in storage, and what they meet. Source: GA22-6821,
//! "Input/Output Operations", execution of input/output operations.
ghost use Rattle.std.specs.Prelude.{◌≡◌, ℕ, ◌-◌, if◌then◌else◌, length};
ghost use Rattle.s360_channel.specs.Execution.{DeviceView, command_with, lowest_address, moved_before, word_at_hand};
ghost use Rattle.s360_channel.specs.Words.{reads_backward};
ghost use Rattle.s360_source.specs.Channels.{extent_in, input_movement, moving_of, output_movement};

use crate::location::Location;
use s360_channel::{Ccw, Program, Progress, output_transfer};
use s360_store::{Access, Checked, GREATEST_SIZE, Storage};
use s360_word::ProtectionKey;

/// Bytes of storage.
#[derive(Clone, Copy)]
pub(crate) struct Extent {
    /// Where the first is.
    pub address: Location,
    /// How many they are.
    pub count: u16,
}

/// The bytes that a word would store or fetch.
#[derive(Clone, Copy)]
pub(crate) struct Movement {
    /// Whether it stores or fetches them.
    pub kind: Access,
    /// Their lowest address: none if they fall below address 0.
    pub lowest: Option<u32>,
    /// How many they are.
    pub count: u16,
    /// Whether the record goes on with the next word.
    pub goes_on: bool,
}

impl Extent {
    /// No bytes.
    pub(crate) fn none() -> Extent
        ensures { result ≡ record { address = 0; count = 0 } }
    {
        Extent {
            address: Location::new(0),
            count: 0,
        }
    }
}

/// How many bytes of the record were moved by the words before.
fn moved_before(progress: &Progress) -> u32
    ensures { result ≡ moved_before progress.now }
{
    match progress {
        Progress::InputChained { moved, .. } => *moved,
        _ => 0,
    }
}

/// The lowest address of so many bytes, which rise from an address, or fall from it if the command is read backward.
fn lowest_address(command: u8, address: u32, count: u16) -> Option<u32>
    ensures { result ≡ lowest_address (reads_backward command) address count }
{
    if command % 16 == 0xC {
        address.checked_sub(u32::from(count.saturating_sub(1)))
    } else {
        Some(address)
    }
}

impl Movement {
    /// What a word of an input of so many bytes stores. Under skip it stores none.
    pub(crate) fn of_input(program: &Program, ccw: &Ccw, total: u32) -> Movement
        ensures { (d : DeviceView) → (at : ℕ) → length (d.input (command_with program.now.progress ccw.now)) ≡ total
            → result ≡ input_movement (word_at_hand d program.now at ccw.now) total }
    {
        let progress = &program.progress;
        let left = total.saturating_sub(moved_before(progress));
        let transfer = output_transfer(ccw, left);
        let count = if ccw.flags.skip { 0 } else { transfer.count };
        Movement {
            kind: Access::Store,
            lowest: lowest_address(progress.command_with(ccw), ccw.address, count),
            count,
            goes_on: transfer.goes_on,
        }
    }

    /// What a word of an output of at most so many bytes fetches.
    pub(crate) fn of_output(program: &Program, ccw: &Ccw, limit: u32) -> Movement
        ensures { (d : DeviceView) → (at : ℕ) → result ≡ output_movement (word_at_hand d program.now at ccw.now) limit }
    {
        let transfer = output_transfer(ccw, program.progress.left_within(limit));
        Movement {
            kind: Access::Fetch,
            lowest: Some(ccw.address),
            count: transfer.count,
            goes_on: transfer.goes_on,
        }
    }

    /// Where its bytes are, if they are in storage.
    pub(crate) fn extent(self, storage: &Storage) -> Extent
        ensures { result ≡ extent_in (length storage.now.bytes) self.lowest self.count }
    {
        // So an address of a byte is below 2^24.
        prove!(storage.size() <= GREATEST_SIZE);
        match self.lowest {
            Some(address)
                if self.count != 0
                    && u64::from(address) + u64::from(self.count) <= u64::from(storage.size()) => {
                Extent {
                    address: Location::new(address),
                    count: self.count,
                }
            }
            _ => Extent::none(),
        }
    }

    /// Where its bytes are, unless they meet a check under a key.
    pub(crate) fn moving(self, storage: &Storage, key: ProtectionKey) -> Option<Extent>
        ensures { result ≡ moving_of storage.now key self }
    {
        let met = match self.lowest {
            None => Checked::Addressing,
            Some(_) if self.count == 0 => Checked::Clear,
            Some(address) => storage.check(address, u32::from(self.count), self.kind, key),
        };
        match met {
            Checked::Clear => Some(self.extent(storage)),
            Checked::Addressing | Checked::Protection => None,
        }
    }
}
