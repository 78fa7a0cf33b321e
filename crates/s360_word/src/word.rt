//! A word and a pair of words as the numbers that they stand for. Source: GA22-6821, "Fixed-Point
//! Arithmetic", data format.
ghost use Rattle.std.specs.Prelude.{◌≡◌};
ghost use Rattle.s360_model.specs.Arithmetic.{word_of};
ghost use Rattle.s360_model.specs.Numbers.{fits_word, signed};
ghost use Rattle.s360_model.specs.Pairs.{doubleword_of, pair_of, signed_pair, words_of_pair};

/// 32 bits, as the unsigned number that they stand for.
pub type Word = u32;

/// The signed number that a word stands for.
pub(crate) fn signed_of(word: Word) -> i64
    ensures { result ≡ signed word }
{
    i64::from(word.cast_signed())
}

/// The word of a whole number: its low 32 bits.
pub(crate) fn low_word(number: i64) -> Word
    ensures { result ≡ word_of number }
{
    (number.cast_unsigned() % 0x1_0000_0000) as u32
}

/// Whether a word can stand for a signed number.
pub(crate) fn is_in_word(number: i64) -> bool
    ensures { result ≡ fits_word number }
{
    i32::try_from(number).is_ok()
}

/// The unsigned number that a pair of words stands for.
pub(crate) fn pair_number(high: Word, low: Word) -> u64
    ensures { result ≡ pair_of high low }
{
    u64::from(high) * 0x1_0000_0000 + u64::from(low)
}

/// The signed number that a pair of words stands for.
pub(crate) fn signed_pair_number(high: Word, low: Word) -> i64
    ensures { result ≡ signed_pair high low }
{
    signed_of(high) * 0x1_0000_0000 + i64::from(low)
}

/// The high and the low word of a number of 64 bits.
pub(crate) fn pair_words(pair: u64) -> (Word, Word)
    ensures { result ≡ words_of_pair pair }
{
    ((pair / 0x1_0000_0000) as u32, (pair % 0x1_0000_0000) as u32)
}

/// The pair of words of a signed number.
pub(crate) fn signed_pair_words(number: i64) -> (Word, Word)
    ensures words { result ≡ words_of_pair (doubleword_of number) }
    ensures exact { signed_pair result.0 result.1 ≡ number }
{
    pair_words(number.cast_unsigned())
}
