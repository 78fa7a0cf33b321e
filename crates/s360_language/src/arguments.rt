//! The kinds of arguments of a line.
ghost use Rattle.std.specs.Prelude.{◌≡◌, ◌≤◌, ◌<◌, ◌^◌, ◌-◌, IfOk, IfSome, drop};
ghost use Rattle.s360_language.specs.Digits.{count_of, doubleword_of, hex_number};
ghost use Rattle.s360_language.specs.Lines.{argument_or, kind};
ghost use Rattle.s360_language.specs.Reading.{address, bit_of, key_of, places, register, storage_key, unit, word_of};

use crate::command::LineFault;
use crate::lines::go_on;
use crate::words::Words;
use crate::{read_line, read_word};
use s360_machine::Key;
use s360_store::{BLOCK_SIZE, Place};
use s360_text::number_in;
use s360_word::{ProtectionKey, RegisterNumber, Unit};

/// A count has at most so many decimal digits.
const COUNT_DIGITS: usize = 8;

/// A doubleword has so many hexadecimal digits.
const DOUBLEWORD_DIGITS: usize = 16;

/// A number of at most so many hexadecimal digits.
fn hexadecimal_in(word: &[u8], most: usize) -> Option<u32>
    requires { most ≤ 8 }
    ensures value { result ≡ hex_number most word.now }
    ensures below { IfSome result (λ n. n < 16 ^ most) }
{
    let number = number_in(16, word, most)?;
    Some(number as u32)
}

/// An address.
pub fn address_in(word: &[u8]) -> Option<u32>
    ensures { result ≡ address word.now }
{
    hexadecimal_in(word, 6)
}

/// A word of four bytes.
pub(crate) fn word_in(word: &[u8]) -> Option<u32>
    ensures { result ≡ word_of word.now }
{
    hexadecimal_in(word, 8)
}

/// A doubleword.
pub(crate) fn doubleword_in(word: &[u8]) -> Option<u64>
    ensures { result ≡ doubleword_of word.now }
{
    if word.len() != DOUBLEWORD_DIGITS {
        return None;
    }
    number_in(16, word, DOUBLEWORD_DIGITS)
}

/// A general register.
pub(crate) fn register_in(word: &[u8]) -> Option<RegisterNumber>
    ensures { result ≡ register word.now }
{
    let number = hexadecimal_in(word, 1)?;
    Some(RegisterNumber::new(number as u8))
}

/// A storage key.
pub(crate) fn storage_key_in(word: &[u8]) -> Option<ProtectionKey>
    ensures { result ≡ storage_key word.now }
{
    let number = hexadecimal_in(word, 1)?;
    Some(ProtectionKey::new(number as u8))
}

/// A unit, by its address.
pub fn unit_in(word: &[u8]) -> Option<Unit>
    ensures { result ≡ unit word.now }
{
    let address = hexadecimal_in(word, 3)?;
    Some(Unit::new(address as u16))
}

/// A bit.
pub(crate) fn bit_in(word: &[u8]) -> Option<bool>
    ensures { result ≡ bit_of word.now }
{
    read_word! { word, None; "0" => false; "1" => true; }
}

/// A key of the operator, by its name.
pub(crate) fn key_in(word: &[u8]) -> Option<Key>
    ensures { result ≡ key_of word.now }
{
    read_word! { word, None;
        "start" => Key::Start;
        "stop" => Key::Stop;
        "reset" => Key::Reset;
        "interrupt" => Key::Interrupt;
        "eof" => Key::EndOfFile;
        "request" => Key::Request;
    }
}

/// A count from 1 to so many, in decimal digits.
pub fn count_in(word: &[u8], most: u32) -> Option<u32>
    ensures { result ≡ count_of most word.now }
{
    match number_in(10, word, COUNT_DIGITS) {
        Some(count) if 1 <= count && count <= u64::from(most) => Some(count as u32),
        _ => None,
    }
}

/// The next word as a count from 1 to so many, or another number if no word is left.
pub fn next_count_or(
    words: &mut Words<'_>,
    number: u8,
    most: u32,
    otherwise: u32,
) -> Result<u32, LineFault>
    ensures value { result ≡ argument_or number (count_of most) otherwise words.old }
    ensures rest { words.new ≡ drop 1 words.old }
{
    match words.next_word() {
        Some(word) => count_in(word, most).ok_or(LineFault::Argument(number)),
        None => Ok(otherwise),
    }
}

/// The next words as a place, the first of which has this number, and the number of the word behind them.
pub fn next_place(words: &mut Words<'_>, number: u8) -> Result<(Place, u8), LineFault>
    requires { number ≡ 1 }
    ensures place { result ≡ kind places number words.old }
    ensures rest { IfOk result (λ read. words.new ≡ drop (read.1 - number) words.old) }
    ensures most { IfOk result (λ read. read.1 ≤ 3) }
{
    read_line! { words, number, go_on, LineFault::Argument(number);
        "s" (at: address_in) => Place::Byte(at);
        "r" (register: register_in) => Place::Register(register.number());
        "k" (at: address_in) => Place::Key(at / BLOCK_SIZE);
        "p" () => Place::Psw;
        "run" () => Place::Run;
        "ext" () => Place::External;
        "u" (unit: unit_in) => Place::UnitState(unit);
        "d" (unit: unit_in) => Place::UnitMedia(unit);
    }
}
