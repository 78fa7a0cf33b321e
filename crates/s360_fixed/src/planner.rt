//! What a fixed-point, branch or shift instruction makes, its puts, and its plan. Source: GA22-6821,
//! "Fixed-Point Arithmetic", "Logical Operations" and "Branching".
ghost use Rattle.std.specs.Prelude.{◌≡◌, [], IfOk, IfSome, IsSome, is_some};
ghost use Rattle.s360_fixed.specs.declared.second_operand.SecondOperand.TheVariants.{InStorage};
ghost use Rattle.s360_fixed.specs.declared.second_operand.Width.TheVariants.{Word};
ghost use Rattle.s360_fixed.specs.Fixed.{fixed_outcome, rr_outcome, rs_outcome, rx_outcome, with_operand};
ghost use Rattle.s360_fixed.specs.Outcomes.{combination_outcome, pair_outcome};
ghost use Rattle.s360_fixed.specs.Plans.{PlansOutcome, PutsNothing, PutsOutcome};

use crate::address::operand_address;
use crate::arithmetic::{put_combined, put_pair};
use crate::branching::{put_branch, put_branch_on_index, register_target};
use crate::ended::Ended;
use crate::form::Form;
use crate::load_store::{fetch, put_loads, put_register, put_stores};
use crate::program_code::ProgramCode;
use crate::registers::odd_partner;
use crate::row::{Combination, OperationRow, PairCombination};
use crate::second_operand::{SecondOperand, Width};
use crate::shifts::{put_pair_shift, put_shift};
use crate::view::View;
use s360_store::{Plan, Puts};
use s360_word::RegisterNumber;
use std::alloc::AllocError;

/// Puts what is made of R1 and a second operand in storage, or an address.
#[inline(always)]
pub fn put_combined_at<P: Puts>(
    view: &View,
    second: SecondOperand,
    combination: Combination,
    r1: RegisterNumber,
    address: u32,
    puts: &mut P,
) -> Result<Ended, AllocError>
    requires none { PutsNothing P.Puts puts.old view.now }
    ensures { IfOk result (PutsOutcome P.Puts puts.new view.now (with_operand second (combination_outcome combination) view.now r1 address)) }
{
    match fetch(view, second, address) {
        Ok(second) => put_combined(view, combination, r1, second, puts),
        Err(code) => Ok(Ended::Program(code)),
    }
}

/// Puts what is made of the pair and a word in storage. A register that is not even comes before what
/// the word meets.
pub fn put_pair_at<P: Puts>(
    view: &View,
    pair: PairCombination,
    r1: RegisterNumber,
    address: u32,
    puts: &mut P,
) -> Result<Ended, AllocError>
    requires none { PutsNothing P.Puts puts.old view.now }
    ensures { IfOk result (PutsOutcome P.Puts puts.new view.now (with_operand (InStorage Word) (pair_outcome pair) view.now r1 address)) }
{
    if odd_partner(r1).is_none() {
        return Ok(Ended::Program(ProgramCode::Specification));
    }
    match fetch(view, SecondOperand::InStorage(Width::Word), address) {
        Ok(second) => put_pair(view, pair, r1, second, puts),
        Err(code) => Ok(Ended::Program(code)),
    }
}

/// Puts a row in the format RR, which has it.
fn put_rr<P: Puts>(
    view: &View,
    row: OperationRow,
    r1: RegisterNumber,
    r2: RegisterNumber,
    puts: &mut P,
) -> Result<Ended, AllocError>
    requires has { IsSome (rr_outcome row) }
    requires none { PutsNothing P.Puts puts.old view.now }
    ensures { IfSome (rr_outcome row) (λ outcome. IfOk result (PutsOutcome P.Puts puts.new view.now (outcome view.now r1 r2))) }
{
    match row {
        OperationRow::Combine(_, combination) => {
            put_combined(view, combination, r1, view.register(r2), puts)
        }
        OperationRow::CombinePair(pair) => put_pair(view, pair, r1, view.register(r2), puts),
        OperationRow::Branch(branch) => put_branch(
            view,
            branch,
            r1,
            register_target(view, r2),
            puts,
        ),
        _ => unreachable!(),
    }
}

/// Puts a row in the format RX, which has it.
fn put_rx<P: Puts>(
    view: &View,
    row: OperationRow,
    r1: RegisterNumber,
    address: u32,
    puts: &mut P,
) -> Result<Ended, AllocError>
    requires has { IsSome (rx_outcome row) }
    requires none { PutsNothing P.Puts puts.old view.now }
    ensures { IfSome (rx_outcome row) (λ outcome. IfOk result (PutsOutcome P.Puts puts.new view.now (outcome view.now r1 address))) }
{
    match row {
        OperationRow::Combine(second, combination) => {
            put_combined_at(view, second, combination, r1, address, puts)
        }
        OperationRow::CombinePair(pair) => put_pair_at(view, pair, r1, address, puts),
        OperationRow::Branch(branch) => put_branch(view, branch, r1, Some(address), puts),
        OperationRow::StoreBytes(width) => put_register(view, width, r1, address, puts),
        _ => unreachable!(),
    }
}

/// Puts a row in the format RS, which has it.
fn put_rs<P: Puts>(
    view: &View,
    row: OperationRow,
    r1: RegisterNumber,
    r3: RegisterNumber,
    address: u32,
    puts: &mut P,
) -> Result<Ended, AllocError>
    requires has { IsSome (rs_outcome row) }
    requires none { PutsNothing P.Puts puts.old view.now }
    ensures { IfSome (rs_outcome row) (λ outcome. IfOk result (PutsOutcome P.Puts puts.new view.now (outcome view.now r1 r3 address))) }
{
    match row {
        OperationRow::StoreRegisters => put_stores(view, r1, r3, address, puts),
        OperationRow::LoadRegisters => put_loads(view, r1, r3, address, puts),
        OperationRow::Shift(shift) => put_shift(view, shift, r1, address, puts),
        OperationRow::ShiftPair(shift) => put_pair_shift(view, shift, r1, address, puts),
        OperationRow::BranchOnIndex(branch) => put_branch_on_index(
            view, branch, r1, r3, address, puts,
        ),
        _ => unreachable!(),
    }
}

/// Whether an instruction is one of these chapters.
pub fn is_fixed(form: &Form) -> bool
    ensures { result ≡ is_some (fixed_outcome form.now) }
{
    let row = match form {
        Form::Rr { operation, .. } | Form::Rx { operation, .. } | Form::Rs { operation, .. } => {
            operation.row()
        }
        Form::Si { .. } | Form::Ss { .. } => None,
    };
    match (form, row) {
        (
            Form::Rr { .. },
            Some(
                OperationRow::Combine(..) | OperationRow::CombinePair(_) | OperationRow::Branch(_),
            ),
        ) => true,
        (
            Form::Rx { .. },
            Some(
                OperationRow::Combine(..)
                | OperationRow::CombinePair(_)
                | OperationRow::Branch(_)
                | OperationRow::StoreBytes(_),
            ),
        ) => true,
        (
            Form::Rs { .. },
            Some(
                OperationRow::StoreRegisters
                | OperationRow::LoadRegisters
                | OperationRow::Shift(_)
                | OperationRow::ShiftPair(_)
                | OperationRow::BranchOnIndex(_),
            ),
        ) => true,
        _ => false,
    }
}

/// Puts a fixed-point, branch or shift instruction, and says how it ends.
pub fn put_fixed<P: Puts>(form: &Form, view: &View, puts: &mut P) -> Result<Ended, AllocError>
    requires fixed { IsSome (fixed_outcome form.now) }
    requires none { PutsNothing P.Puts puts.old view.now }
    ensures { IfSome (fixed_outcome form.now) (λ outcome. IfOk result (PutsOutcome P.Puts puts.new view.now (outcome view.now))) }
{
    match *form {
        Form::Rr { operation, r1, r2 } => { put_rr(view, operation.row().unwrap(), r1, r2, puts) }
        Form::Rx {
            operation,
            r1,
            x2,
            b2,
            d2,
        } => put_rx(
            view,
            operation.row().unwrap(),
            r1,
            operand_address(view, x2, b2, d2),
            puts,
        ),
        Form::Rs {
            operation,
            r1,
            r3,
            b2,
            d2,
        } => {
            let address = operand_address(view, RegisterNumber::new(0), b2, d2);
            put_rs(view, operation.row().unwrap(), r1, r3, address, puts)
        }
        Form::Si { .. } | Form::Ss { .. } => unreachable!(),
    }
}

/// Plans a fixed-point, branch or shift instruction: how it ends, and the values that it puts. Where
/// memory is wanting, the plan is to be dropped.
pub fn plan_fixed(form: &Form, view: &View, plan: &mut Plan) -> Result<Ended, AllocError>
    requires fixed { IsSome (fixed_outcome form.now) }
    requires empty { plan.old ≡ [] }
    ensures { IfSome (fixed_outcome form.now) (λ outcome. IfOk result (PlansOutcome view.now.core plan.new (outcome view.now))) }
{
    put_fixed(form, view, plan)
}
