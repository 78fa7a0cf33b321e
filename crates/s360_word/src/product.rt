//! Products and quotients of signed words. Source: GA22-6821, "Fixed-Point Arithmetic", multiply
//! and divide.
ghost use Rattle.std.specs.Prelude.{◌≡◌};
ghost use Rattle.s360_model.specs.Pairs.{signed_pair};
ghost use Rattle.s360_model.specs.Products.{divided, division, product_words, signed_product};

use crate::word::{Word, is_in_word, low_word, signed_of, signed_pair_number, signed_pair_words};

/// The product of two signed words as a number.
fn product_of(a: Word, b: Word) -> i64
    ensures { result ≡ signed_product a b }
{
    signed_of(a) * signed_of(b)
}

/// The high and the low word of the 64-bit product of two signed words.
pub fn multiply(a: Word, b: Word) -> (Word, Word)
    ensures words { result ≡ product_words a b }
    ensures exact { signed_pair result.0 result.1 ≡ signed_product a b }
{
    signed_pair_words(product_of(a, b))
}

/// The words of the quotient and the remainder of two signed numbers; `None` where the divisor is
/// zero or the quotient does not fit a word.
fn divided_words(dividend: i64, divisor: i64) -> Option<(Word, Word)>
    ensures { result ≡ divided dividend divisor }
{
    let quotient = dividend.checked_div(divisor)?;
    if !is_in_word(quotient) {
        return None;
    }
    Some((low_word(quotient), low_word(dividend % divisor)))
}

/// The quotient of a signed pair of words by a signed word, rounded toward zero, and the remainder,
/// which has the sign of the dividend. `None` exactly where the divisor is zero or the quotient
/// does not fit a word.
pub fn divide(high: Word, low: Word, divisor: Word) -> Option<(Word, Word)>
    ensures { result ≡ division high low divisor }
{
    divided_words(signed_pair_number(high, low), signed_of(divisor))
}
