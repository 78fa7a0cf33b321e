//! Status switching: the PSW and its masks, the storage keys and the supervisor call. Source:
//! GA22-6821, "Status Switching", and "System Structure", protection feature.
ghost use Rattle.std.specs.Prelude.{◌≡◌, ◌<◌, IfErr, IfNone, IfOk, None, OnOk, Some};
ghost use Rattle.s360_model.specs.Psw.{current_psw};
ghost use Rattle.s360_model.specs.Storage.{doubleword_at, key_limit};
ghost use Rattle.s360_store.specs.Plans.{HasBlock, HasBytes};
ghost use Rattle.s360_fixed.specs.Plans.{PutsNothing, PutsOutcome};
ghost use Rattle.s360_fixed.specs.ProgramCodes.{program_code};
ghost use Rattle.s360_fixed.specs.Storing.{next_psw};
ghost use Rattle.s360_logic.specs.declared.row.StorageStatus.TheVariants.{LoadPsw, SetSystemMask};
ghost use Rattle.s360_logic.specs.Status.{block_of, key_conditions, key_in};
ghost use Rattle.s360_logic.specs.Status.{key_outcome, privileged_fetch, register_status_outcome};
ghost use Rattle.s360_logic.specs.Status.{storage_status_outcome, unit_of, with_key_in, with_psw};

use crate::row::{KeyRow, RegisterStatus, StorageStatus};
use s360_fixed::{Ended, ProgramCode, View, operand_exception, put_next_psw};
use s360_psw::Psw;
use s360_store::{Access, BLOCK_SIZE, BlockKey, Puts};
use s360_word::{ProtectionKey, RegisterNumber, Unit, Word};
use std::alloc::AllocError;

/// Blocks that an address can name.
const BLOCKS: u32 = 1 << 13;

/// Bytes of a doubleword, and its boundary.
const DOUBLEWORD: u32 = 8;

/// Bit 28 of a word.
const FETCH_BIT: Word = 8;

/// Units that an address can name: eight channels of 256 devices.
const UNITS: u32 = 1 << 11;

/// The unit that bits 21 to 31 of an address name.
fn unit_of(address: u32) -> Unit
    ensures { result ≡ unit_of address }
{
    Unit::new((address % UNITS) as u16)
}

/// The PSW that goes on with the next instruction.
fn next_psw(view: &View) -> Psw
    ensures { result ≡ next_psw view.now }
{
    view.psw().with_instruction_address(view.next_address())
}

/// Puts a PSW alone.
fn put_psw<P: Puts>(view: &View, psw: Psw, puts: &mut P) -> Result<Ended, AllocError>
    requires none { PutsNothing P.Puts puts.old view.now }
    ensures { IfOk result (PutsOutcome P.Puts puts.new view.now (with_psw view.now psw)) }
{
    puts.put_psw(view.core(), psw)?;
    Ok(Ended::Done)
}

/// The block that a word names, by its number.
fn block_of(word: Word) -> u32
    ensures { result ≡ block_of word }
{
    word / BLOCK_SIZE % BLOCKS
}

/// The key in bits 24 to 27 of a word, and where fetches are protected the fetch bit in bit 28.
fn key_in(fetch_protection: bool, word: Word) -> BlockKey
    ensures value { result ≡ key_in fetch_protection word }
    ensures below { result < key_limit fetch_protection }
{
    let key = ProtectionKey::new((word / 16 % 16) as u8);
    BlockKey::new(key, fetch_protection && word / FETCH_BIT % 2 == 1)
}

/// A word with a key in bits 24 to 27, its fetch bit in bit 28, and zeros in bits 29 to 31.
fn with_key_in(word: Word, key: BlockKey) -> Word
    ensures { result ≡ with_key_in word key }
{
    let fetch_bit = if key.fetch_bit() { FETCH_BIT } else { 0 };
    word / 256 * 256 + u32::from(key.key().number()) * 16 + fetch_bit
}

/// What keeps the storage key of the block that a word names from being used: the problem state, a
/// one in bits 28 to 31, or a block outside storage, found in this order.
fn key_exception(view: &View, word: Word) -> Option<ProgramCode>
    ensures code { result ≡ program_code (key_conditions view.now word) }
    ensures inside { IfNone result (HasBlock (block_of word) view.now.core) }
{
    if view.psw().problem_state() {
        Some(ProgramCode::Privileged)
    } else if word % 16 != 0 {
        Some(ProgramCode::Specification)
    } else if block_of(word) >= view.storage().size() / BLOCK_SIZE {
        Some(ProgramCode::Addressing)
    } else {
        None
    }
}

/// Puts what is done with the storage key of a block inside storage.
fn put_key<P: Puts>(
    view: &View,
    row: KeyRow,
    r1: RegisterNumber,
    block: u32,
    puts: &mut P,
) -> Result<Ended, AllocError>
    requires inside { HasBlock block view.now.core }
    requires none { PutsNothing P.Puts puts.old view.now }
    ensures { IfOk result (PutsOutcome P.Puts puts.new view.now (key_outcome row view.now r1 block)) }
{
    let word = view.register(r1);
    put_next_psw(view, puts)?;
    match row {
        KeyRow::Set => {
            let key = key_in(view.storage().fetch_protection(), word);
            puts.put_key(view.core(), block, key)?;
        }
        KeyRow::Insert => {
            let inserted = with_key_in(word, view.storage().block_key(block));
            puts.put_register(view.core(), r1, inserted)?;
        }
    }
    Ok(Ended::Done)
}

/// Puts a row of registers, or of the second byte of the instruction.
pub(crate) fn put_register_status<P: Puts>(
    view: &View,
    row: RegisterStatus,
    r1: RegisterNumber,
    r2: RegisterNumber,
    puts: &mut P,
) -> Result<Ended, AllocError>
    requires none { PutsNothing P.Puts puts.old view.now }
    ensures { IfOk result (PutsOutcome P.Puts puts.new view.now (register_status_outcome row view.now r1 r2)) }
{
    match row {
        RegisterStatus::SetProgramMask => {
            let psw = next_psw(view).with_program_mask(view.register(r1));
            put_psw(view, psw, puts)
        }
        RegisterStatus::SupervisorCall => Ok(Ended::Svc(r1.number() * 16 + r2.number())),
        RegisterStatus::StorageKey(row) => {
            let word = view.register(r2);
            match key_exception(view, word) {
                Some(code) => Ok(Ended::Program(code)),
                None => put_key(view, row, r1, block_of(word), puts),
            }
        }
    }
}

/// What keeps a privileged instruction from fetching an operand, on the boundary of the number of
/// its bytes: the problem state comes before what the operand meets.
#[inline(always)]
fn fetch_exception(view: &View, address: u32, count: u32) -> Option<ProgramCode>
    requires some { 0 < count }
    ensures code { result ≡ program_code (privileged_fetch view.now address count) }
    ensures inside { IfNone result (HasBytes address count view.now.core) }
{
    if view.psw().problem_state() {
        Some(ProgramCode::Privileged)
    } else {
        operand_exception(view, address, count, count, Access::Fetch)
    }
}

/// Puts the system mask that is the byte at an address.
fn put_system_mask<P: Puts>(view: &View, address: u32, puts: &mut P) -> Result<Ended, AllocError>
    requires none { PutsNothing P.Puts puts.old view.now }
    ensures { IfOk result (PutsOutcome P.Puts puts.new view.now (storage_status_outcome SetSystemMask view.now address)) }
{
    match fetch_exception(view, address, 1) {
        Some(code) => Ok(Ended::Program(code)),
        None => {
            let mask = view.storage().byte(address);
            put_psw(view, next_psw(view).with_system_mask(mask), puts)
        }
    }
}

/// The PSW that is the doubleword at an address, or what keeps it from being loaded.
#[inline(always)]
pub(crate) fn loaded_psw(view: &View, address: u32) -> Result<Psw, ProgramCode>
    ensures ok { OnOk result (program_code (privileged_fetch view.now address 8) ≡ None) }
    ensures psw { IfOk result (λ psw. psw ≡ current_psw (doubleword_at view.now.core.storage.bytes address)) }
    ensures err { IfErr result (λ code. program_code (privileged_fetch view.now address 8) ≡ Some code) }
{
    match fetch_exception(view, address, DOUBLEWORD) {
        Some(code) => Err(code),
        None => Ok(Psw::from_u64(view.storage().double(address))),
    }
}

/// Puts the PSW that is the doubleword at an address.
fn put_load_psw<P: Puts>(view: &View, address: u32, puts: &mut P) -> Result<Ended, AllocError>
    requires none { PutsNothing P.Puts puts.old view.now }
    ensures { IfOk result (PutsOutcome P.Puts puts.new view.now (storage_status_outcome LoadPsw view.now address)) }
{
    match loaded_psw(view, address) {
        Ok(psw) => put_psw(view, psw, puts),
        Err(code) => Ok(Ended::Program(code)),
    }
}

/// Puts a row of an operand in storage, or of a unit.
pub(crate) fn put_storage_status<P: Puts>(
    view: &View,
    row: StorageStatus,
    address: u32,
    puts: &mut P,
) -> Result<Ended, AllocError>
    requires none { PutsNothing P.Puts puts.old view.now }
    ensures { IfOk result (PutsOutcome P.Puts puts.new view.now (storage_status_outcome row view.now address)) }
{
    match row {
        StorageStatus::SetSystemMask => put_system_mask(view, address, puts),
        StorageStatus::LoadPsw => put_load_psw(view, address, puts),
        StorageStatus::InputOutput(_) if view.psw().problem_state() => {
            Ok(Ended::Program(ProgramCode::Privileged))
        }
        StorageStatus::InputOutput(operation) => Ok(Ended::Io(operation, unit_of(address))),
    }
}
