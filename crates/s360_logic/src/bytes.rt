//! What a byte of the first operand becomes, and the condition code of the results. Source:
//! GA22-6821, "Logical Operations".
ghost use Rattle.std.specs.Prelude.{◌≡◌, nat_eq};
ghost use Rattle.std.specs.List.{list_all};
ghost use Rattle.s360_logic.specs.Bytes.{byte_result, code_of_bytes, combination_code};
ghost use Rattle.s360_logic.specs.Immediate.{immediate_access};

use crate::row::{ByteCombination, ImmediateRow};
use s360_store::Access;
use s360_word::Cc;

/// Whether each of the bytes is zero.
fn are_zero(bytes: &[u8]) -> bool
    ensures { result ≡ list_all (λ b. nat_eq b 0) bytes.now }
{
    bytes.iter().all(|byte| *byte == 0)
}

/// The condition code of result bytes: 0 all zero, 1 not all zero.
fn code_of_bytes(results: &[u8]) -> Option<Cc>
    ensures { result ≡ code_of_bytes results.now }
{
    if are_zero(results) {
        Some(Cc::new(0))
    } else {
        Some(Cc::new(1))
    }
}

impl ByteCombination {
    /// What a byte becomes with a byte of the second operand.
    pub(crate) fn of(self, first: u8, second: u8) -> u8
        ensures { result ≡ byte_result self first second }
    {
        match self {
            ByteCombination::Second => second,
            ByteCombination::LowHalf => first / 16 * 16 + second % 16,
            ByteCombination::HighHalf => second / 16 * 16 + first % 16,
            ByteCombination::BitwiseAnd => first & second,
            ByteCombination::BitwiseOr => first | second,
            ByteCombination::BitwiseExclusiveOr => first ^ second,
        }
    }

    /// The condition code that it sets by the result bytes, if it sets one.
    pub(crate) fn code(self, results: &[u8]) -> Option<Cc>
        ensures { result ≡ combination_code self results.now }
    {
        match self {
            ByteCombination::Second | ByteCombination::LowHalf | ByteCombination::HighHalf => None,
            ByteCombination::BitwiseAnd
            | ByteCombination::BitwiseOr
            | ByteCombination::BitwiseExclusiveOr => code_of_bytes(results),
        }
    }
}

impl ImmediateRow {
    /// What it does with the byte in storage.
    pub(crate) fn access(self) -> Access
        ensures { result ≡ immediate_access self }
    {
        match self {
            ImmediateRow::Combine(_) | ImmediateRow::TestAndSet => Access::Store,
            ImmediateRow::Compare | ImmediateRow::TestUnderMask => Access::Fetch,
        }
    }
}
