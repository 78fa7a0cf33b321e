//! The channel command word with which a program goes on. Source: GA22-6821, "Input/Output
//! Operations", channel command word and transfer in channel, and "System Control Panel", initial
//! program loading.
ghost use Rattle.std.specs.Prelude.{◌≡◌, ◌+◌};
ghost use Rattle.s360_channel.specs.Programs.{ccw_at, executed_at, next_ccw, is_executable};
ghost use Rattle.s360_channel.specs.Programs.{transferred_to};

use crate::ccw::Ccw;
use crate::program::Program;
use s360_store::Storage;

/// The channel command word with which loading begins.
const LOADING_WORD: u64 = 0x0200_0000_6000_0018;

/// What a channel finds where a program goes on.
#[derive(Clone, Copy)]
pub enum Fetched {
    /// A program check. The last word that it looked at stands at this address.
    Broken(u32),
    /// A word that can be executed, at this address.
    Whole(u32, Ccw),
}

/// The word at an address, if it is that of a doubleword inside storage.
pub fn ccw_at(storage: &Storage, address: u32) -> Option<Ccw>
    ensures { result ≡ ccw_at storage.now address }
{
    if address % 8 != 0 || u64::from(address) + 8 > u64::from(storage.size()) {
        return None;
    }
    Some(Ccw::from_u64(storage.double(address)))
}

/// Whether a word that is no transfer in channel can be executed.
fn is_executable(same_record: bool, ccw: &Ccw) -> bool
    ensures { result ≡ is_executable same_record ccw.now }
{
    ccw.reserved == 0 && ccw.count != 0 && (same_record || ccw.command % 16 != 0)
}

/// The word that is to be executed at an address.
fn executed_at(same_record: bool, address: u32, ccw: Ccw) -> Fetched
    ensures { result ≡ executed_at same_record address ccw }
{
    if !ccw.is_transfer() && is_executable(same_record, &ccw) {
        Fetched::Whole(address, ccw)
    } else {
        Fetched::Broken(address)
    }
}

/// The word that a transfer in channel leads to, which stands at an address.
fn transferred_to(storage: &Storage, same_record: bool, address: u32, transfer: &Ccw) -> Fetched
    ensures { result ≡ transferred_to storage.now same_record address transfer.now }
{
    match ccw_at(storage, transfer.address) {
        Some(ccw) => executed_at(same_record, transfer.address, ccw),
        None => Fetched::Broken(address),
    }
}

/// The word with which a program goes on.
pub fn next_ccw(storage: &Storage, program: &Program) -> Fetched
    ensures { result ≡ next_ccw storage.now program.now }
{
    if program.progress.is_loading() {
        return Fetched::Whole(0, Ccw::from_u64(LOADING_WORD));
    }
    let same_record = program.progress.goes_on_with_record();
    match ccw_at(storage, program.address) {
        Some(ccw) if ccw.is_transfer() && !program.progress.is_first() => {
            transferred_to(storage, same_record, program.address, &ccw)
        }
        Some(ccw) => executed_at(same_record, program.address, ccw),
        None => Fetched::Broken(program.address),
    }
}
