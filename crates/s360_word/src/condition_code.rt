//! The condition code, which a contract sees as the number 0 to 3, and its kinds: each is a
//! function of exact numbers. Source: GA22-6821, "System Structure", program status word, and
//! "Fixed-Point Arithmetic" and "Logical Operations", condition code.
ghost use Rattle.std.specs.Prelude.{◌≡◌, ◌<◌};
ghost use Rattle.s360_model.specs.ConditionCodes.{bits_code, carry_code, order_code, sign_code, signed_code};
ghost use Rattle.s360_model.specs.Pairs.{signed_pair_code};

use crate::word::Word;
use std::marker::Model;

/// A condition code, 0 to 3.
#[derive(Clone, Copy, PartialEq, Eq)]
pub struct Cc(u8);

impl Model for Cc {
    ghost use Rattle.std.specs.Prelude.{ℕ, ◌<◌};

    ghost Value = { ℕ };

    ghost view = { λ c. c.0 };

    ghost invariant = { λ c. c.0 < 4 };

    ghost inverse = { λ n. record { 0 = n } };
}

impl Cc {
    /// The condition code of a number below 4.
    pub fn new(code: u8) -> Cc
        requires { code < 4 }
        ensures { result ≡ code }
    {
        Cc(code)
    }

    /// Its number, 0 to 3.
    pub fn code(self) -> u8
        ensures value { result ≡ self }
        ensures below { result < 4 }
    {
        self.0
    }
}

/// The condition code of two signed numbers: 0 equal, 1 the first is low, 2 the first is high.
pub(crate) fn order_code_of(first: i64, second: i64) -> Cc
    ensures { result ≡ order_code first second }
{
    if first < second {
        Cc::new(1)
    } else if second < first {
        Cc::new(2)
    } else {
        Cc::new(0)
    }
}

/// The condition code of a sign: 0 zero, 1 negative, 2 positive.
pub(crate) fn sign_code_of(exact: i128) -> Cc
    ensures { result ≡ sign_code exact }
{
    if exact < 0 {
        Cc::new(1)
    } else if exact > 0 {
        Cc::new(2)
    } else {
        Cc::new(0)
    }
}

/// The condition code of an exact signed result: that of its sign, or 3 where it is not the number
/// of a word.
pub(crate) fn signed_code_of(exact: i128) -> Cc
    ensures { result ≡ signed_code exact }
{
    match i32::try_from(exact) {
        Ok(_) => sign_code_of(exact),
        Err(_) => Cc::new(3),
    }
}

/// The condition code of an exact signed result: that of its sign, or 3 where it is not the number
/// of a pair of words.
pub(crate) fn signed_pair_code_of(exact: i128) -> Cc
    ensures { result ≡ signed_pair_code exact }
{
    match i64::try_from(exact) {
        Ok(_) => sign_code_of(exact),
        Err(_) => Cc::new(3),
    }
}

/// The condition code of an exact sum of unsigned words: 0 zero and 1 not zero without a carry out
/// of 32 bits, 2 zero and 3 not zero with one.
pub(crate) fn carry_code_of(exact: u64) -> Cc
    ensures { result ≡ carry_code exact }
{
    match (exact < 0x1_0000_0000, exact % 0x1_0000_0000 == 0) {
        (true, true) => Cc::new(0),
        (true, false) => Cc::new(1),
        (false, true) => Cc::new(2),
        (false, false) => Cc::new(3),
    }
}

/// The condition code of the bits of a result of `and`, `or` or `exclusive or`: 0 all zero, 1 not
/// all zero.
pub fn bits_condition(bits: Word) -> Cc
    ensures { result ≡ bits_code bits }
{
    if bits == 0 { Cc::new(0) } else { Cc::new(1) }
}
