//! The bytes of a command's input that go to storage, and those of its output that come from there.
//! Source: GA22-6821, "Input/Output Operations", read, read backward, write, and skipping.
ghost use Rattle.std.specs.Prelude.{◌≡◌, ◌≤◌, ◌<◌, ◌+◌, ◌-◌, ◌^◌, ◌⊎◌, IfOk, length, take, drop};
ghost use Rattle.std.specs.List.{slice_range};
ghost use Rattle.s360_channel.specs.Execution.{stored_bytes};
ghost use Rattle.s360_channel.specs.Steps.{at_hand, output_of};

use crate::ccw::reads_backward;
use crate::command_word::CommandWord;
use crate::gathered::Gathered;
use s360_device::Device;
use s360_store::Storage;
use std::alloc::{AllocError, Global};

/// So many bytes of an input, from the first on that the words before have not moved.
fn input_bytes<D: Device>(
    alloc: Global,
    word: &CommandWord<'_, D>,
    count: u16,
) -> Result<Vec<u8>, AllocError>
    requires inside { count ≤ length (at_hand D.Device word.now).input - (at_hand D.Device word.now).moved }
    requires short { length (at_hand D.Device word.now).input < 2 ^ 32 }
    ensures { IfOk result (λ bytes. bytes.items ≡ take count (drop (at_hand D.Device word.now).moved (at_hand D.Device word.now).input)) }
{
    if count == 0 {
        return Ok(Vec::new(alloc));
    }
    let mut bytes = vec![in alloc; 0u8; usize::from(count)]?;
    let first = word.program.progress.moved_before();
    word.device
        .input_bytes(word.command, first, bytes.as_mut_slice());
    Ok(bytes)
}

/// The bytes of an input that a word stores which moves so many, in the order of their addresses.
pub(crate) fn stored_bytes<D: Device>(
    alloc: Global,
    word: &CommandWord<'_, D>,
    count: u16,
) -> Result<Vec<u8>, AllocError>
    requires inside { count ≤ length (at_hand D.Device word.now).input - (at_hand D.Device word.now).moved }
    requires short { length (at_hand D.Device word.now).input < 2 ^ 32 }
    ensures bytes { IfOk result (λ bytes. bytes.items ≡ stored_bytes (at_hand D.Device word.now) count) }
    ensures few { IfOk result (λ bytes. length bytes.items ≤ count) }
{
    if word.ccw.flags.skip {
        return Ok(Vec::new(alloc));
    }
    let mut bytes = input_bytes(alloc, word, count)?;
    if reads_backward(word.command) {
        bytes.reverse();
    }
    Ok(bytes)
}

/// So many bytes of storage from an address on. Where there are none, the address may be outside.
pub(crate) fn fetched(storage: &Storage, address: u32, count: u16) -> &[u8]
    requires inside { (count ≡ 0) ⊎ (address + count ≤ length storage.now.bytes) }
    ensures { result.now ≡ slice_range storage.now.bytes address (address + count) }
{
    if count == 0 {
        &[]
    } else {
        storage.bytes(address, u32::from(count))
    }
}

/// The bytes of an output: those gathered before, and then those that a word has fetched. The device takes no more than
/// its limit.
#[derive(Drop)]
pub(crate) struct OutputBytes<'a> {
    /// What the words before have gathered, if there are any.
    pub(crate) before: Option<&'a Gathered>,
    /// What the word has fetched.
    pub(crate) fetched: &'a [u8],
    /// The device's limit.
    pub(crate) limit: u32,
}

impl OutputBytes<'_> {
    /// The bytes in memory of their own.
    pub(crate) fn to_vec(&self, alloc: Global) -> Result<Vec<u8>, AllocError>
        ensures { IfOk result (λ bytes. bytes.items ≡ output_of self.now) }
    {
        let mut bytes = match self.before {
            Some(gathered) => gathered.to_vec(alloc)?,
            None => Vec::with_capacity(alloc, self.fetched.len())?,
        };
        bytes.extend_from_slice(self.fetched)?;
        bytes.truncate(self.limit as usize);
        Ok(bytes)
    }

    /// The same gathered for the next word, at the cost of the bytes that were fetched.
    pub(crate) fn gathered(&self, alloc: Global) -> Result<Gathered, AllocError>
        ensures { IfOk result (λ gathered. gathered ≡ output_of self.now) }
    {
        let (limit, more) = (self.limit as usize, self.fetched.len());
        match self.before {
            Some(before) if before.count() <= limit && more <= limit - before.count() => {
                before.followed_by(alloc, self.fetched.to_vec(alloc)?)
            }
            _ => Gathered::first(alloc, self.to_vec(alloc)?),
        }
    }
}
