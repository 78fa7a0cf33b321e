//! The rows of the instruction table: what the operations of these chapters do. A row has what its
//! kind needs and no more, so that each kind is put by a call that knows no other. Source:
//! GA22-6821, "Fixed-Point Arithmetic", "Logical Operations" and "Branching".
ghost use Rattle.std.specs.Prelude.{◌≡◌};
ghost use Rattle.s360_fixed.specs.Rows.{on_halfword, on_word, row_of};

use crate::operation::Operation;
use crate::second_operand::{SecondOperand, Width};

/// What is made of R1 and a second operand.
#[derive(Clone, Copy, PartialEq, Eq)]
pub enum Combination {
    /// The second operand.
    Second,
    /// The low byte of the second operand in place of that of R1.
    InsertedCharacter,
    /// The second operand, which is tested.
    Tested,
    /// The second operand with the other sign.
    Complement,
    /// The second operand with a positive sign.
    Absolute,
    /// The second operand with a negative sign.
    NegativeAbsolute,
    /// The signed sum.
    Sum,
    /// The signed difference.
    Difference,
    /// The sum of unsigned words.
    LogicalSum,
    /// The difference of unsigned words.
    LogicalDifference,
    /// How the two compare as signed words.
    Comparison,
    /// How the two compare as unsigned words.
    LogicalComparison,
    /// The bits that are one in both.
    BitwiseAnd,
    /// The bits that are one in either.
    BitwiseOr,
    /// The bits that are one in just one of the two.
    BitwiseExclusiveOr,
    /// The low word of the signed product.
    LowProduct,
}

/// What is made of the pair R1, R1 + 1 and a second operand.
#[derive(Clone, Copy, PartialEq, Eq)]
pub enum PairCombination {
    /// The signed product of R1 + 1 and the second operand.
    Product,
    /// The remainder and the quotient of the pair by the second operand.
    Quotient,
}

/// A branch to an address.
#[derive(Clone, Copy, PartialEq, Eq)]
pub enum Branch {
    /// Where the mask R1 has a one for the condition code.
    OnCondition,
    /// With a link in R1.
    AndLink,
    /// Where R1 less one is not zero.
    OnCount,
}

/// A shift of R1 or of the pair R1, R1 + 1.
#[derive(Clone, Copy, PartialEq, Eq)]
pub enum Shift {
    /// Of all bits to the left.
    LeftLogical,
    /// Of all bits to the right.
    RightLogical,
    /// Of the bits past the sign to the left.
    Left,
    /// Of the bits past the sign to the right.
    Right,
}

/// When a branch on index is taken.
#[derive(Clone, Copy, PartialEq, Eq)]
pub enum IndexBranch {
    /// Where the sum is above the comparand.
    High,
    /// Where it is not.
    LowOrEqual,
}

/// What an operation does.
#[derive(Clone, Copy)]
pub enum OperationRow {
    /// R1 becomes something of it and the second operand, or the two are compared. In the format RX
    /// the second operand is where this says.
    Combine(SecondOperand, Combination),
    /// The pair becomes something of it and the second operand, which is a word.
    CombinePair(PairCombination),
    /// The program goes on elsewhere.
    Branch(Branch),
    /// So many low bytes of R1 are stored.
    StoreBytes(Width),
    /// Registers R1 up to R3 are stored, 15 followed by 0.
    StoreRegisters,
    /// Registers R1 up to R3 are loaded, 15 followed by 0.
    LoadRegisters,
    /// R1 is shifted.
    Shift(Shift),
    /// The pair is shifted.
    ShiftPair(Shift),
    /// R3 is added to R1, and the program may go on elsewhere.
    BranchOnIndex(IndexBranch),
}

/// A row of R1 and a word.
#[inline(always)]
fn on_word(combination: Combination) -> Option<OperationRow>
    ensures { result ≡ on_word combination }
{
    Some(OperationRow::Combine(SecondOperand::InStorage(Width::Word), combination))
}

/// A row of R1 and a halfword.
#[inline(always)]
fn on_halfword(combination: Combination) -> Option<OperationRow>
    ensures { result ≡ on_halfword combination }
{
    Some(OperationRow::Combine(SecondOperand::InStorage(Width::Halfword), combination))
}

impl Operation {
    /// The row of the operation, where it is one of these chapters.
    #[inline(always)]
    pub fn row(self) -> Option<OperationRow>
        ensures { result ≡ row_of self }
    {
        match self {
            Operation::Load => on_word(Combination::Second),
            Operation::LoadHalfword => on_halfword(Combination::Second),
            Operation::LoadAddress => Some(OperationRow::Combine(
                SecondOperand::Address,
                Combination::Second,
            )),
            Operation::InsertCharacter => Some(OperationRow::Combine(
                SecondOperand::InStorage(Width::Byte),
                Combination::InsertedCharacter,
            )),
            Operation::LoadAndTest => on_word(Combination::Tested),
            Operation::LoadComplement => on_word(Combination::Complement),
            Operation::LoadPositive => on_word(Combination::Absolute),
            Operation::LoadNegative => on_word(Combination::NegativeAbsolute),
            Operation::Add => on_word(Combination::Sum),
            Operation::AddHalfword => on_halfword(Combination::Sum),
            Operation::Subtract => on_word(Combination::Difference),
            Operation::SubtractHalfword => on_halfword(Combination::Difference),
            Operation::AddLogical => on_word(Combination::LogicalSum),
            Operation::SubtractLogical => on_word(Combination::LogicalDifference),
            Operation::Compare => on_word(Combination::Comparison),
            Operation::CompareHalfword => on_halfword(Combination::Comparison),
            Operation::CompareLogical => on_word(Combination::LogicalComparison),
            Operation::And => on_word(Combination::BitwiseAnd),
            Operation::Or => on_word(Combination::BitwiseOr),
            Operation::ExclusiveOr => on_word(Combination::BitwiseExclusiveOr),
            Operation::MultiplyHalfword => on_halfword(Combination::LowProduct),
            Operation::Multiply => Some(OperationRow::CombinePair(PairCombination::Product)),
            Operation::Divide => Some(OperationRow::CombinePair(PairCombination::Quotient)),
            Operation::Store => Some(OperationRow::StoreBytes(Width::Word)),
            Operation::StoreHalfword => Some(OperationRow::StoreBytes(Width::Halfword)),
            Operation::StoreCharacter => Some(OperationRow::StoreBytes(Width::Byte)),
            Operation::StoreMultiple => Some(OperationRow::StoreRegisters),
            Operation::LoadMultiple => Some(OperationRow::LoadRegisters),
            Operation::ShiftLeftSingleLogical => Some(OperationRow::Shift(Shift::LeftLogical)),
            Operation::ShiftRightSingleLogical => Some(OperationRow::Shift(Shift::RightLogical)),
            Operation::ShiftLeftSingle => Some(OperationRow::Shift(Shift::Left)),
            Operation::ShiftRightSingle => Some(OperationRow::Shift(Shift::Right)),
            Operation::ShiftLeftDoubleLogical => Some(OperationRow::ShiftPair(Shift::LeftLogical)),
            Operation::ShiftRightDoubleLogical => Some(OperationRow::ShiftPair(
                Shift::RightLogical,
            )),
            Operation::ShiftLeftDouble => Some(OperationRow::ShiftPair(Shift::Left)),
            Operation::ShiftRightDouble => Some(OperationRow::ShiftPair(Shift::Right)),
            Operation::BranchOnCondition => Some(OperationRow::Branch(Branch::OnCondition)),
            Operation::BranchAndLink => Some(OperationRow::Branch(Branch::AndLink)),
            Operation::BranchOnCount => Some(OperationRow::Branch(Branch::OnCount)),
            Operation::BranchOnIndexHigh => Some(OperationRow::BranchOnIndex(IndexBranch::High)),
            Operation::BranchOnIndexLowOrEqual => Some(OperationRow::BranchOnIndex(
                IndexBranch::LowOrEqual,
            )),
            _ => None,
        }
    }
}
