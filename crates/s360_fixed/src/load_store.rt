//! Operands in storage: fetching one, and storing and loading registers. Source: GA22-6821,
//! "Fixed-Point Arithmetic" and "Logical Operations".
ghost use Rattle.std.specs.Prelude.{◌≡◌, ◌≤◌, ◌<◌, ◌+◌, ◌*◌, IfErr, IfOk, IsOk, OnOk, Err, None, Some, MatchOption, length};
ghost use Rattle.s360_store.specs.declared.protection.Access.{Access};
ghost use Rattle.s360_store.specs.Plans.{HasBytes};
ghost use Rattle.s360_fixed.specs.Operands.{bytes_of_width, extended_halfword, storage_operand, word_in};
ghost use Rattle.s360_fixed.specs.Plans.{PutsNothing, PutsOutcome};
ghost use Rattle.s360_fixed.specs.ProgramCodes.{program_code};
ghost use Rattle.s360_fixed.specs.Storing.{bytes_outcome, load_multiple_outcome, register_count};
ghost use Rattle.s360_fixed.specs.Storing.{store_multiple_outcome, store_outcome, words_conditions};

use crate::ended::Ended;
use crate::operand::operand_exception;
use crate::program_code::ProgramCode;
use crate::puts::put_next_psw;
use crate::register_words::{RegisterWords, put_loaded, put_stored};
use crate::registers::distance;
use crate::second_operand::{SecondOperand, Width};
use crate::view::View;
use s360_store::{Access, Puts};
use s360_word::{RegisterNumber, Word};
use std::alloc::AllocError;

/// A halfword extended by its sign.
fn extended(half: u16) -> Word
    ensures { result ≡ extended_halfword half }
{
    i32::from(half.cast_signed()).cast_unsigned()
}

/// The word that the bytes of an operand are.
fn word_in(view: &View, width: Width, address: u32) -> Word
    requires inside { address + bytes_of_width width ≤ length view.now.core.storage.bytes }
    ensures { result ≡ word_in width view.now.core.storage.bytes address }
{
    match width {
        Width::Byte => Word::from(view.storage().byte(address)),
        Width::Halfword => extended(view.storage().half(address)),
        Width::Word => view.storage().word(address),
    }
}

/// The second operand at an address, or what keeps it from being used.
#[inline(always)]
pub(crate) fn fetch(view: &View, operand: SecondOperand, address: u32) -> Result<Word, ProgramCode>
    ensures none { OnOk result (program_code (storage_operand view.now.core operand address).conditions ≡ None) }
    ensures value { IfOk result (λ word. word ≡ (storage_operand view.now.core operand address).value) }
    ensures code { IfErr result (λ code. program_code (storage_operand view.now.core operand address).conditions ≡ Some code) }
{
    match operand {
        SecondOperand::Address => Ok(address),
        SecondOperand::InStorage(width) => {
            let count = width.bytes();
            match operand_exception(view, address, count, count, Access::Fetch) {
                Some(code) => Err(code),
                None => Ok(word_in(view, width, address)),
            }
        }
    }
}

/// Puts a store of bytes, on the boundary of their number.
#[inline(always)]
pub fn put_store<P: Puts>(
    view: &View,
    address: u32,
    bytes: &[u8],
    puts: &mut P,
) -> Result<Ended, AllocError>
    requires none { PutsNothing P.Puts puts.old view.now }
    requires some { 0 < length bytes.now }
    requires few { length bytes.now ≤ 8 }
    ensures { IfOk result (PutsOutcome P.Puts puts.new view.now (bytes_outcome bytes.now view.now address)) }
{
    let count = bytes.len() as u32;
    if let Some(code) = operand_exception(view, address, count, count, Access::Store) {
        return Ok(Ended::Program(code));
    }
    put_next_psw(view, puts)?;
    puts.put_bytes(view.core(), address, bytes)?;
    Ok(Ended::Done)
}

/// Puts a store of so many low bytes of R1.
#[inline(always)]
pub fn put_register<P: Puts>(
    view: &View,
    width: Width,
    r1: RegisterNumber,
    address: u32,
    puts: &mut P,
) -> Result<Ended, AllocError>
    requires none { PutsNothing P.Puts puts.old view.now }
    ensures { IfOk result (PutsOutcome P.Puts puts.new view.now (store_outcome width view.now r1 address)) }
{
    let [first, second, third, low] = view.register(r1).to_be_bytes();
    match width {
        Width::Byte => put_store(view, address, &[low], puts),
        Width::Halfword => put_store(view, address, &[third, low], puts),
        Width::Word => put_store(view, address, &[first, second, third, low], puts),
    }
}

/// How many registers there are from R1 up to R3, 15 followed by 0.
fn register_count(r1: RegisterNumber, r3: RegisterNumber) -> u8
    ensures count { result ≡ register_count r1 r3 }
    ensures few { result ≤ 16 }
{
    distance(r1, r3) + 1
}

/// Registers R1 up to R3 with successive words, or what keeps the words from being used.
fn register_words(
    view: &View,
    r1: RegisterNumber,
    r3: RegisterNumber,
    address: u32,
    kind: Access,
) -> Result<RegisterWords, ProgramCode>
    ensures code { MatchOption (program_code (words_conditions view.now r1 r3 address kind)) (IsOk result) (λ code. result ≡ Err code) }
    ensures words { IfOk result (λ words. words ≡ record { r1 = r1; count = register_count r1 r3; address = address }) }
    ensures within { IfOk result (λ words. HasBytes words.address (4 * words.count) view.now.core) }
    ensures few { IfOk result (λ words. words.count ≤ 16) }
{
    let count = register_count(r1, r3);
    match operand_exception(view, address, 4, 4 * u32::from(count), kind) {
        Some(code) => Err(code),
        None => Ok(RegisterWords { r1, count, address }),
    }
}

/// Puts successive words into registers R1 up to R3.
pub fn put_loads<P: Puts>(
    view: &View,
    r1: RegisterNumber,
    r3: RegisterNumber,
    address: u32,
    puts: &mut P,
) -> Result<Ended, AllocError>
    requires none { PutsNothing P.Puts puts.old view.now }
    ensures { IfOk result (PutsOutcome P.Puts puts.new view.now (load_multiple_outcome view.now r1 r3 address)) }
{
    match register_words(view, r1, r3, address, Access::Fetch) {
        Ok(words) => put_loaded(view, &words, puts),
        Err(code) => Ok(Ended::Program(code)),
    }
}

/// Puts registers R1 up to R3 at successive words.
pub fn put_stores<P: Puts>(
    view: &View,
    r1: RegisterNumber,
    r3: RegisterNumber,
    address: u32,
    puts: &mut P,
) -> Result<Ended, AllocError>
    requires none { PutsNothing P.Puts puts.old view.now }
    ensures { IfOk result (PutsOutcome P.Puts puts.new view.now (store_multiple_outcome view.now r1 r3 address)) }
{
    match register_words(view, r1, r3, address, Access::Store) {
        Ok(words) => put_stored(view, &words, puts),
        Err(code) => Ok(Ended::Program(code)),
    }
}
