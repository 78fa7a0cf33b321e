//! What instructions make of the values that they take. Source: gdb manual, "The GDB Agent Expression Mechanism",
//! "Bytecode Descriptions".
ghost use Rattle.std.specs.Prelude.{◌≡◌, ◌<◌, ◌≤◌, ◌%◌, ◌^◌, Err, MatchOption, MatchResult, Ok, pos};
ghost use Rattle.std.specs.Int.{int_div_euclid};
ghost use Rattle.s360_condition.specs.Values.{binary_value, no_quotient, sign_extended, signed, unary_value, unsigned};
ghost use Rattle.s360_condition.specs.declared.fault.EvaluationFault.TheVariants.{ShiftTooFar};

use crate::fault::EvaluationFault;
use crate::instruction::{Binary, Unary};

impl Binary {
    /// What it leaves of `a b`, of which `b` is the top.
    pub(crate) fn value(self, a: u64, b: u64) -> Result<u64, EvaluationFault>
        ensures { result ≡ binary_value self a b }
    {
        match self {
            Binary::Add => Ok(a.wrapping_add(b)),
            Binary::Sub => Ok(a.wrapping_sub(b)),
            Binary::Mul => Ok(a.wrapping_mul(b)),
            Binary::DivSigned => signed_value(b, a.cast_signed().checked_div(b.cast_signed())),
            Binary::RemSigned => signed_value(b, a.cast_signed().checked_rem(b.cast_signed())),
            Binary::DivUnsigned | Binary::RemUnsigned if b == 0 => {
                Err(EvaluationFault::DivisionByZero)
            }
            Binary::DivUnsigned => Ok(a / b),
            Binary::RemUnsigned => Ok(a % b),
            Binary::Lsh => Ok(a << shift_count(b)?),
            Binary::RshSigned => Ok(shifted_signed(a, shift_count(b)?)),
            Binary::RshUnsigned => Ok(a >> shift_count(b)?),
            Binary::BitAnd => Ok(a & b),
            Binary::BitOr => Ok(a | b),
            Binary::BitXor => Ok(a ^ b),
            Binary::Equal => Ok(u64::from(a == b)),
            Binary::LessSigned => Ok(u64::from(a.cast_signed() < b.cast_signed())),
            Binary::LessUnsigned => Ok(u64::from(a < b)),
        }
    }
}

/// The value of a quotient or a remainder of signed numbers, which there is none of for a divisor of zero, and if the
/// quotient is too large.
fn signed_value(divisor: u64, number: Option<i64>) -> Result<u64, EvaluationFault>
    ensures { MatchOption number (result ≡ Err (no_quotient divisor)) (λ n. result ≡ Ok (unsigned n)) }
{
    match number {
        Some(number) => Ok(number.cast_unsigned()),
        None if divisor == 0 => Err(EvaluationFault::DivisionByZero),
        None => Err(EvaluationFault::QuotientTooLarge),
    }
}

/// By how many bits is shifted: by less than 64.
fn shift_count(count: u64) -> Result<u32, EvaluationFault>
    ensures { MatchResult result (λ bits. (bits ≡ count) × (count < 64)) (λ fault. (64 ≤ count) × (fault ≡ ShiftTooFar)) }
{
    if count < 64 {
        Ok(count as u32)
    } else {
        Err(EvaluationFault::ShiftTooFar)
    }
}

/// A value shifted right by less than 64 bits, with copies of its top bit coming in.
fn shifted_signed(value: u64, count: u32) -> u64
    requires { count < 64 }
    ensures { result ≡ unsigned (int_div_euclid (signed value) (pos (2 ^ count))) }
{
    (value.cast_signed() >> count).cast_unsigned()
}

impl Unary {
    /// What it leaves of a value.
    pub(crate) fn value(self, a: u64) -> Result<u64, EvaluationFault>
        ensures { result ≡ unary_value self a }
    {
        match self {
            Unary::LogNot => Ok(u64::from(a == 0)),
            Unary::BitNot => Ok(!a),
            Unary::Ext(0) => Err(EvaluationFault::NoSignBit),
            Unary::Ext(n) if n < 64 => Ok(sign_extended(n, a)),
            Unary::ZeroExt(n) if n < 64 => Ok(a % power(n)),
            Unary::Ext(_) | Unary::ZeroExt(_) => Ok(a),
        }
    }
}

/// The low so many bits of a value as a signed number.
fn sign_extended(bits: u8, value: u64) -> u64
    requires { bits < 64 }
    ensures { result ≡ sign_extended bits (value % 2 ^ bits) }
{
    let power = power(bits);
    let low = value % power;
    if low < power / 2 {
        low
    } else {
        low + (u64::MAX - (power - 1))
    }
}

/// A power of two.
fn power(exponent: u8) -> u64
    requires { exponent < 64 }
    ensures value { result ≡ 2 ^ exponent }
    ensures some { 0 < result }
{
    2u64.pow(u32::from(exponent))
}
