//! Sums, differences, absolute values and comparisons of words. Source: GA22-6821, "Fixed-Point
//! Arithmetic" and "Logical Operations".
ghost use Rattle.std.specs.Prelude.{◌≡◌, ◌+◌, ◌<◌, pos};
ghost use Rattle.s360_model.specs.Arithmetic.{absolute_value, negative_absolute_value, logical_difference, logical_sum, signed_complement, signed_difference};
ghost use Rattle.s360_model.specs.Arithmetic.{signed_sum, word_of};
ghost use Rattle.s360_model.specs.ConditionCodes.{carry_code, order_code, sign_code, signed_code};
ghost use Rattle.s360_model.specs.Numbers.{low32, signed};

use crate::condition_code::{Cc, carry_code_of, order_code_of, sign_code_of, signed_code_of};
use crate::word::{Word, low_word, signed_of};

/// The word of an exact signed result, and its condition code: 3 where it overflows.
fn signed_result(exact: i64) -> (Word, Cc)
    ensures value { result.0 ≡ word_of exact }
    ensures code { result.1 ≡ signed_code exact }
{
    (low_word(exact), signed_code_of(i128::from(exact)))
}

/// The low 32 bits of an exact unsigned result, and its condition code, of the kind carry.
fn logical_result(exact: u64) -> (Word, Cc)
    ensures value { result.0 ≡ low32 exact }
    ensures code { result.1 ≡ carry_code exact }
{
    ((exact % 0x1_0000_0000) as u32, carry_code_of(exact))
}

/// The sum of two signed words, and its condition code: 3 where it overflows.
pub fn add_signed(a: Word, b: Word) -> (Word, Cc)
    ensures value { result.0 ≡ word_of (signed_sum a b) }
    ensures sum { result.0 ≡ low32 (a + b) }
    ensures code { result.1 ≡ signed_code (signed_sum a b) }
{
    signed_result(signed_of(a) + signed_of(b))
}

/// The first signed word minus the second, and its condition code: 3 where it overflows.
pub fn sub_signed(a: Word, b: Word) -> (Word, Cc)
    ensures value { result.0 ≡ word_of (signed_difference a b) }
    ensures code { result.1 ≡ signed_code (signed_difference a b) }
{
    signed_result(signed_of(a) - signed_of(b))
}

/// Zero minus a signed word, and its condition code: `80000000` stays and gives 3.
pub fn complement(word: Word) -> (Word, Cc)
    ensures value { result.0 ≡ word_of (signed_complement word) }
    ensures code { result.1 ≡ signed_code (signed_complement word) }
{
    signed_result(-signed_of(word))
}

/// The absolute value of a signed word, and its condition code: `80000000` stays and gives 3.
pub fn absolute(word: Word) -> (Word, Cc)
    ensures value { result.0 ≡ word_of (absolute_value word) }
    ensures code { result.1 ≡ signed_code (absolute_value word) }
{
    signed_result(signed_of(word).abs())
}

/// Zero minus the absolute value of a signed word, and its condition code, by its sign.
pub fn negative_absolute(word: Word) -> (Word, Cc)
    ensures value { result.0 ≡ word_of (negative_absolute_value word) }
    ensures code { result.1 ≡ sign_code (negative_absolute_value word) }
{
    let exact = -signed_of(word).abs();
    (low_word(exact), sign_code_of(i128::from(exact)))
}

/// The condition code of a signed word, by its sign.
pub fn test(word: Word) -> Cc
    ensures { result ≡ sign_code (signed word) }
{
    sign_code_of(i128::from(signed_of(word)))
}

/// The sum of two unsigned words, and its condition code, by its carry.
pub fn add_logical(a: Word, b: Word) -> (Word, Cc)
    ensures value { result.0 ≡ low32 (logical_sum a b) }
    ensures code { result.1 ≡ carry_code (logical_sum a b) }
{
    logical_result(u64::from(a) + u64::from(b))
}

/// The first unsigned word plus the ones' complement of the second plus one, and its condition
/// code, by its carry. Condition code 0 never arises.
pub fn sub_logical(a: Word, b: Word) -> (Word, Cc)
    ensures value { result.0 ≡ low32 (logical_difference a b) }
    ensures code { result.1 ≡ carry_code (logical_difference a b) }
    ensures not_zero { 0 < result.1 }
{
    logical_result(u64::from(a) + u64::from(!b) + 1)
}

/// The condition code of the order of two signed words.
pub fn compare_signed(a: Word, b: Word) -> Cc
    ensures { result ≡ order_code (signed a) (signed b) }
{
    order_code_of(signed_of(a), signed_of(b))
}

/// The condition code of the order of two unsigned words.
pub fn compare_logical(a: Word, b: Word) -> Cc
    ensures { result ≡ order_code (pos a) (pos b) }
{
    order_code_of(i64::from(a), i64::from(b))
}
