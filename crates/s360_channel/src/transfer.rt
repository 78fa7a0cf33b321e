//! How many bytes a channel command word moves, and where they are in storage. Source: GA22-6821,
//! "Input/Output Operations", data chaining, incorrect length, and program and protection check.
ghost use Rattle.std.specs.Prelude.{◌≡◌};
ghost use Rattle.s360_channel.specs.Execution.{access_of, input_transfer, lowest_address};
ghost use Rattle.s360_channel.specs.Execution.{output_transfer, transfer_with};

use crate::ccw::Ccw;
use s360_store::{Access, Checked, Storage};
use s360_word::ProtectionKey;

/// What a word moves of a record.
#[derive(Clone, Copy)]
pub struct Transfer {
    /// The number of bytes.
    pub count: u16,
    /// Whether the record goes on with the next word.
    pub goes_on: bool,
    /// The bytes of the count that are left, where it does not.
    pub residual: u16,
    /// Whether an incorrect length is told, where it does not.
    pub incorrect_length: bool,
}

/// What a word moves of the bytes that are left, which may be of a wrong length.
fn transfer_with(ccw: &Ccw, left: u32, wrong: bool) -> Transfer
    ensures { result ≡ transfer_with ccw.now left wrong }
{
    let (flags, limit) = (&ccw.flags, ccw.count);
    let count = left.min(u32::from(limit)) as u16;
    Transfer {
        count,
        goes_on: flags.chain_data && u32::from(limit) <= left,
        residual: limit - count,
        incorrect_length: wrong && !(flags.suppress_length && !flags.chain_data),
    }
}

/// What a word moves of an input of which so many bytes are left.
pub(crate) fn input_transfer(ccw: &Ccw, left: u32) -> Transfer
    ensures { result ≡ input_transfer ccw.now left }
{
    transfer_with(ccw, left, left != u32::from(ccw.count))
}

/// What a word moves of an output that takes so many bytes more.
pub fn output_transfer(ccw: &Ccw, left: u32) -> Transfer
    ensures { result ≡ output_transfer ccw.now left }
{
    transfer_with(ccw, left, left < u32::from(ccw.count))
}

/// The lowest address of so many bytes, which rise from the data address, or fall from it.
pub(crate) fn lowest_address(backward: bool, address: u32, count: u16) -> Option<u32>
    ensures { result ≡ lowest_address backward address count }
{
    if backward {
        address.checked_sub(u32::from(count.saturating_sub(1)))
    } else {
        Some(address)
    }
}

/// What the bytes meet that move, from their lowest address on.
pub(crate) fn access_of(
    storage: &Storage,
    key: ProtectionKey,
    kind: Access,
    count: u16,
    lowest: Option<u32>,
) -> Checked
    ensures { result ≡ access_of storage.now key kind count lowest }
{
    match lowest {
        None => Checked::Addressing,
        Some(_) if count == 0 => Checked::Clear,
        Some(address) => storage.check(address, u32::from(count), kind, key),
    }
}
