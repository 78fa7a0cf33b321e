//! A signed word as a decimal number in the packed format: a doubleword of fifteen digits of four
//! bits, the high one first, and a sign in its low four bits. Source: GA22-6821, "Fixed-Point
//! Arithmetic", convert to binary and convert to decimal, and "Decimal Arithmetic", data format.
ghost use Rattle.std.specs.Prelude.{◌≡◌, ◌<◌, ◌^◌, IfSome};
ghost use Rattle.s360_model.specs.Numbers.{signed};
ghost use Rattle.s360_model.specs.Packed.{digits_value, packed, packed_digits, packed_value, signed_magnitude, written_sign};
ghost use Rattle.s360_word.specs.Packed.{word_unpacked};

use crate::word::{Word, is_in_word, low_word, signed_of};
use thiserror::Error;

/// Why a packed number has no word, in the order in which it is found.
#[derive(Clone, Copy, Debug, PartialEq, Eq, Error)]
pub enum PackedFault {
    /// A digit or the sign is none.
    #[error("bad digit or sign")]
    BadDigit,
    /// The number does not fit a word. These are its low 32 bits.
    #[error("too large for a word")]
    TooLarge(Word),
}

/// The low fifteen decimal digits of a number, each in four bits.
fn digits_of(number: u64) -> u64
    ensures digits { result ≡ packed_digits 15 number }
    ensures below { result < 2 ^ 60 }
{
    let mut digits = 0;
    for place in (0..15).rev() {
        digits = digits * 16 + number / 10_u64.pow(place) % 10;
    }
    digits
}

/// The number that fifteen decimal digits of four bits are; `None` where one of them is none.
fn value_of(digits: u64) -> Option<u64>
    ensures value { result ≡ digits_value 15 digits }
    ensures below { IfSome result (λ value. value < 10 ^ 15) }
{
    let mut value = 0;
    for place in (0..15).rev() {
        let digit = digits / 16_u64.pow(place) % 16;
        if digit > 9 {
            return None;
        }
        value = value * 10 + digit;
    }
    Some(value)
}

/// The four bits of the sign of a number: C plus and D minus, or in ASCII mode A and B.
fn sign_of(number: i64, ascii: bool) -> u64
    ensures { result ≡ written_sign ascii number }
{
    match (number < 0, ascii) {
        (false, false) => 0xC,
        (false, true) => 0xA,
        (true, false) => 0xD,
        (true, true) => 0xB,
    }
}

/// A magnitude with the sign that four bits are: A, C, E and F plus, B and D minus; `None` where
/// they are no sign.
fn with_sign(sign: u64, magnitude: u64) -> Option<i64>
    requires four_bits { sign < 16 }
    requires in_range { magnitude < 2 ^ 63 }
    ensures { result ≡ signed_magnitude sign magnitude }
{
    match sign {
        0xA | 0xC | 0xE | 0xF => Some(magnitude.cast_signed()),
        0xB | 0xD => Some(-magnitude.cast_signed()),
        _ => None,
    }
}

/// The signed number of a word as a packed decimal number. Its sign is C or D, or in ASCII mode A
/// or B.
pub fn to_packed(word: Word, ascii: bool) -> u64
    ensures { result ≡ packed ascii (signed word) }
{
    let number = signed_of(word);
    digits_of(number.unsigned_abs()) * 16 + sign_of(number, ascii)
}

/// The number that a packed decimal number is; `None` where a digit or the sign is none.
fn number_of(doubleword: u64) -> Option<i64>
    ensures { result ≡ packed_value doubleword }
{
    with_sign(doubleword % 16, value_of(doubleword / 16)?)
}

/// The word of the number that a packed decimal number is: the signs A, C, E and F are plus, B and
/// D minus. `BadDigit` where a digit or the sign is none; else `TooLarge` where no word has the
/// number.
pub fn from_packed(doubleword: u64) -> Result<Word, PackedFault>
    ensures { result ≡ word_unpacked (packed_value doubleword) }
{
    let number = number_of(doubleword).ok_or(PackedFault::BadDigit)?;
    let word = low_word(number);
    if is_in_word(number) {
        Ok(word)
    } else {
        Err(PackedFault::TooLarge(word))
    }
}
