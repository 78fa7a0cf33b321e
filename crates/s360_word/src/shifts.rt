//! Shifts of a word or of a pair of words by 0 to 63 places. Source: GA22-6821, "Fixed-Point
//! Arithmetic" and "Logical Operations", shifts.
ghost use Rattle.std.specs.Prelude.{◌≡◌, ◌<◌, ◌≤◌, ◌^◌, pos};
ghost use Rattle.s360_model.specs.ConditionCodes.{sign_code, signed_code};
ghost use Rattle.s360_model.specs.Numbers.{signed};
ghost use Rattle.s360_model.specs.Pairs.{signed_pair, signed_pair_code};
ghost use Rattle.s360_model.specs.Shifts.{left_word, left_words, over_power, logical_left_word, logical_left_words, logical_right_word, logical_right_words};
ghost use Rattle.s360_model.specs.Shifts.{right_word, right_words, times_power};

use crate::condition_code::{Cc, sign_code_of, signed_code_of, signed_pair_code_of};
use crate::word::{
    Word, low_word, pair_number, pair_words, signed_of, signed_pair_number, signed_pair_words,
};

/// A power of two.
fn power_of(count: u8) -> i128
    requires { count < 64 }
    ensures value { result ≡ pos (2 ^ count) }
    ensures bound { 2 ^ count ≤ 2 ^ 63 }
{
    1i128 << count
}

/// A number times a power of two, exactly.
fn exact_multiple(number: i64, count: u8) -> i128
    requires { count < 64 }
    ensures { result ≡ times_power number count }
{
    i128::from(number) * power_of(count)
}

/// A word with its sign kept and the 31 bits past it shifted left, and the condition code of the
/// exact result: 3 where a bit unlike the sign is lost.
pub fn shift_left(word: Word, count: u8) -> (Word, Cc)
    requires { count < 64 }
    ensures value { result.0 ≡ left_word word count }
    ensures code { result.1 ≡ signed_code (times_power (signed word) count) }
{
    let sign = word / 0x8000_0000 * 0x8000_0000;
    let bits = (u64::from(word) << count) % 0x8000_0000;
    (
        sign + bits as u32,
        signed_code_of(exact_multiple(signed_of(word), count)),
    )
}

/// A pair of words with its sign kept and the 63 bits past it shifted left, and the condition code
/// of the exact result: 3 where a bit unlike the sign is lost.
pub fn shift_left_double(high: Word, low: Word, count: u8) -> ((Word, Word), Cc)
    requires { count < 64 }
    ensures value { result.0 ≡ left_words high low count }
    ensures code { result.1 ≡ signed_pair_code (times_power (signed_pair high low) count) }
{
    let pair = pair_number(high, low);
    let sign = pair / 0x8000_0000_0000_0000 * 0x8000_0000_0000_0000;
    let bits = (pair << count) % 0x8000_0000_0000_0000;
    let exact = exact_multiple(signed_pair_number(high, low), count);
    (pair_words(sign + bits), signed_pair_code_of(exact))
}

/// A signed word shifted right, with copies of its sign on the left, and the condition code of the
/// result, by its sign.
pub fn shift_right(word: Word, count: u8) -> (Word, Cc)
    requires { count < 64 }
    ensures value { result.0 ≡ right_word word count }
    ensures code { result.1 ≡ sign_code (over_power (signed word) count) }
{
    let exact = signed_of(word) >> count;
    (low_word(exact), sign_code_of(i128::from(exact)))
}

/// A signed pair of words shifted right, with copies of its sign on the left, and the condition
/// code of the result, by its sign.
pub fn shift_right_double(high: Word, low: Word, count: u8) -> ((Word, Word), Cc)
    requires { count < 64 }
    ensures value { result.0 ≡ right_words high low count }
    ensures code { result.1 ≡ sign_code (over_power (signed_pair high low) count) }
{
    let exact = signed_pair_number(high, low) >> count;
    (signed_pair_words(exact), sign_code_of(i128::from(exact)))
}

/// A word shifted left, with zeros on the right.
pub fn shift_logical_left(word: Word, count: u8) -> Word
    requires { count < 64 }
    ensures { result ≡ logical_left_word word count }
{
    ((u64::from(word) << count) % 0x1_0000_0000) as u32
}

/// A word shifted right, with zeros on the left.
pub fn shift_logical_right(word: Word, count: u8) -> Word
    requires { count < 64 }
    ensures { result ≡ logical_right_word word count }
{
    (u64::from(word) >> count) as u32
}

/// A pair of words shifted left, with zeros on the right.
pub fn shift_logical_left_double(high: Word, low: Word, count: u8) -> (Word, Word)
    requires { count < 64 }
    ensures { result ≡ logical_left_words high low count }
{
    pair_words(pair_number(high, low) << count)
}

/// A pair of words shifted right, with zeros on the left.
pub fn shift_logical_right_double(high: Word, low: Word, count: u8) -> (Word, Word)
    requires { count < 64 }
    ensures { result ≡ logical_right_words high low count }
{
    pair_words(pair_number(high, low) >> count)
}
