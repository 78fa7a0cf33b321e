//! The formats of instructions: the operands that each has are read, and what its row makes of them is put. Source:
//! GA22-6821, "System Structure", program execution.
ghost use Rattle.std.specs.Prelude.{◌≤◌, IfOk, Some, length};
ghost use Rattle.s360_fixed.specs.Branching.{branch_outcome, index_outcome, register_target};
ghost use Rattle.s360_fixed.specs.declared.second_operand.SecondOperand.TheVariants.{InStorage};
ghost use Rattle.s360_fixed.specs.declared.second_operand.Width.TheVariants.{Word};
ghost use Rattle.s360_fixed.specs.Fixed.{with_operand, with_register};
ghost use Rattle.s360_fixed.specs.Outcomes.{combination_outcome, pair_outcome};
ghost use Rattle.s360_fixed.specs.Shifting.{pair_shift_outcome, shift_outcome};
ghost use Rattle.s360_fixed.specs.Plans.{PutsNothing, PutsOutcome};
ghost use Rattle.s360_fixed.specs.Storing.{store_outcome};
ghost use Rattle.s360_logic.specs.declared.row.ImmediateRow.TheVariants.{Combine};
ghost use Rattle.s360_logic.specs.declared.row.RegisterStatus.TheVariants.{StorageKey};
ghost use Rattle.s360_logic.specs.declared.row.StorageRow.TheVariants.{Combine as CombineBytes, Digits};
ghost use Rattle.s360_logic.specs.declared.row.StorageStatus.TheVariants.{InputOutput};
ghost use Rattle.s360_logic.specs.Converting.{conversion_outcome};
ghost use Rattle.s360_logic.specs.Logic.{in_rr, in_rs, in_rx, in_si, in_ss};
ghost use Rattle.s360_logic.specs.Immediate.{immediate_outcome};
ghost use Rattle.s360_logic.specs.Logic.{storage_outcome};
ghost use Rattle.s360_logic.specs.Status.{register_status_outcome, storage_status_outcome};

use crate::converting::put_conversion;
use crate::immediate::put_immediate;
use crate::logic::put_storage;
use crate::row::{
    ByteCombination, Conversion, DigitRow, ImmediateRow, KeyRow, RegisterStatus, StorageRow,
    StorageStatus,
};
use crate::status::{put_register_status, put_storage_status};
use s360_fixed::{
    Branch, Combination, Ended, IndexBranch, IoOperation, PairCombination, SecondOperand, Shift,
    View, Width, based_address, high_register, indexed_address, low_register, put_branch,
    put_branch_on_index, put_combined, put_combined_at, put_pair, put_pair_at, put_pair_shift,
    put_register, put_shift, register_target,
};
use s360_store::Puts;
use std::alloc::AllocError;

/// Puts what is made of R1 and of R2.
#[inline(always)]
pub(crate) fn put_rr<P: Puts>(
    combination: Combination,
    bytes: &[u8],
    view: &View,
    puts: &mut P,
) -> Result<Ended, AllocError>
    requires whole { 2 ≤ length bytes.now }
    requires none { PutsNothing P.Puts puts.old view.now }
    ensures { IfOk result (PutsOutcome P.Puts puts.new view.now (in_rr (with_register (combination_outcome combination)) bytes.now view.now)) }
{
    let second = view.register(low_register(bytes, 1));
    put_combined(view, combination, high_register(bytes, 1), second, puts)
}

/// Puts what is made of R1 and of the second operand of the format RX.
#[inline(always)]
pub(crate) fn put_rx<P: Puts>(
    second: SecondOperand,
    combination: Combination,
    bytes: &[u8],
    view: &View,
    puts: &mut P,
) -> Result<Ended, AllocError>
    requires whole { 4 ≤ length bytes.now }
    requires none { PutsNothing P.Puts puts.old view.now }
    ensures { IfOk result (PutsOutcome P.Puts puts.new view.now (in_rx (with_operand second (combination_outcome combination)) bytes.now view.now)) }
{
    let address = indexed_address(bytes, view);
    put_combined_at(
        view,
        second,
        combination,
        high_register(bytes, 1),
        address,
        puts,
    )
}

/// Puts what is made of the pair and of R2.
#[inline(always)]
pub(crate) fn put_pair_rr<P: Puts>(
    pair: PairCombination,
    bytes: &[u8],
    view: &View,
    puts: &mut P,
) -> Result<Ended, AllocError>
    requires whole { 2 ≤ length bytes.now }
    requires none { PutsNothing P.Puts puts.old view.now }
    ensures { IfOk result (PutsOutcome P.Puts puts.new view.now (in_rr (with_register (pair_outcome pair)) bytes.now view.now)) }
{
    put_pair(
        view,
        pair,
        high_register(bytes, 1),
        view.register(low_register(bytes, 1)),
        puts,
    )
}

/// Puts what is made of the pair and of a word in storage.
#[inline(always)]
pub(crate) fn put_pair_rx<P: Puts>(
    pair: PairCombination,
    bytes: &[u8],
    view: &View,
    puts: &mut P,
) -> Result<Ended, AllocError>
    requires whole { 4 ≤ length bytes.now }
    requires none { PutsNothing P.Puts puts.old view.now }
    ensures { IfOk result (PutsOutcome P.Puts puts.new view.now (in_rx (with_operand (InStorage Word) (pair_outcome pair)) bytes.now view.now)) }
{
    put_pair_at(
        view,
        pair,
        high_register(bytes, 1),
        indexed_address(bytes, view),
        puts,
    )
}

/// Puts a branch to the address in R2.
#[inline(always)]
pub(crate) fn put_branch_rr<P: Puts>(
    branch: Branch,
    bytes: &[u8],
    view: &View,
    puts: &mut P,
) -> Result<Ended, AllocError>
    requires whole { 2 ≤ length bytes.now }
    requires none { PutsNothing P.Puts puts.old view.now }
    ensures { IfOk result (PutsOutcome P.Puts puts.new view.now (in_rr (λ v r1 r2. branch_outcome branch v r1 (register_target v r2)) bytes.now view.now)) }
{
    let target = register_target(view, low_register(bytes, 1));
    put_branch(view, branch, high_register(bytes, 1), target, puts)
}

/// Puts a branch to an address of the format RX.
#[inline(always)]
pub(crate) fn put_branch_rx<P: Puts>(
    branch: Branch,
    bytes: &[u8],
    view: &View,
    puts: &mut P,
) -> Result<Ended, AllocError>
    requires whole { 4 ≤ length bytes.now }
    requires none { PutsNothing P.Puts puts.old view.now }
    ensures { IfOk result (PutsOutcome P.Puts puts.new view.now (in_rx (λ v r1 address. branch_outcome branch v r1 (Some address)) bytes.now view.now)) }
{
    let target = Some(indexed_address(bytes, view));
    put_branch(view, branch, high_register(bytes, 1), target, puts)
}

/// Puts a store of so many low bytes of R1.
#[inline(always)]
pub(crate) fn put_store_rx<P: Puts>(
    width: Width,
    bytes: &[u8],
    view: &View,
    puts: &mut P,
) -> Result<Ended, AllocError>
    requires whole { 4 ≤ length bytes.now }
    requires none { PutsNothing P.Puts puts.old view.now }
    ensures { IfOk result (PutsOutcome P.Puts puts.new view.now (in_rx (store_outcome width) bytes.now view.now)) }
{
    put_register(
        view,
        width,
        high_register(bytes, 1),
        indexed_address(bytes, view),
        puts,
    )
}

/// Puts a conversion of a word in R1.
#[inline(always)]
pub(crate) fn put_conversion_rx<P: Puts>(
    conversion: Conversion,
    bytes: &[u8],
    view: &View,
    puts: &mut P,
) -> Result<Ended, AllocError>
    requires whole { 4 ≤ length bytes.now }
    requires none { PutsNothing P.Puts puts.old view.now }
    ensures { IfOk result (PutsOutcome P.Puts puts.new view.now (in_rx (conversion_outcome conversion) bytes.now view.now)) }
{
    put_conversion(
        view,
        conversion,
        high_register(bytes, 1),
        indexed_address(bytes, view),
        puts,
    )
}

/// Puts a shift of R1 by the low six bits of the address.
#[inline(always)]
pub(crate) fn put_shift_rs<P: Puts>(
    shift: Shift,
    bytes: &[u8],
    view: &View,
    puts: &mut P,
) -> Result<Ended, AllocError>
    requires whole { 4 ≤ length bytes.now }
    requires none { PutsNothing P.Puts puts.old view.now }
    ensures { IfOk result (PutsOutcome P.Puts puts.new view.now (in_rs (λ v r1 r3. shift_outcome shift v r1) bytes.now view.now)) }
{
    let address = based_address(bytes, 2, view);
    put_shift(view, shift, high_register(bytes, 1), address, puts)
}

/// Puts a shift of the pair by the low six bits of the address.
#[inline(always)]
pub(crate) fn put_pair_shift_rs<P: Puts>(
    shift: Shift,
    bytes: &[u8],
    view: &View,
    puts: &mut P,
) -> Result<Ended, AllocError>
    requires whole { 4 ≤ length bytes.now }
    requires none { PutsNothing P.Puts puts.old view.now }
    ensures { IfOk result (PutsOutcome P.Puts puts.new view.now (in_rs (λ v r1 r3. pair_shift_outcome shift v r1) bytes.now view.now)) }
{
    let address = based_address(bytes, 2, view);
    put_pair_shift(view, shift, high_register(bytes, 1), address, puts)
}

/// Puts a branch on the sum of R1 and R3.
#[inline(always)]
pub(crate) fn put_branch_rs<P: Puts>(
    branch: IndexBranch,
    bytes: &[u8],
    view: &View,
    puts: &mut P,
) -> Result<Ended, AllocError>
    requires whole { 4 ≤ length bytes.now }
    requires none { PutsNothing P.Puts puts.old view.now }
    ensures { IfOk result (PutsOutcome P.Puts puts.new view.now (in_rs (index_outcome branch) bytes.now view.now)) }
{
    let address = based_address(bytes, 2, view);
    put_branch_on_index(
        view,
        branch,
        high_register(bytes, 1),
        low_register(bytes, 1),
        address,
        puts,
    )
}

/// Puts a row of a byte in storage and the byte of the instruction.
#[inline(always)]
pub(crate) fn put_si<P: Puts>(
    row: ImmediateRow,
    bytes: &[u8],
    view: &View,
    puts: &mut P,
) -> Result<Ended, AllocError>
    requires whole { 4 ≤ length bytes.now }
    requires none { PutsNothing P.Puts puts.old view.now }
    ensures { IfOk result (PutsOutcome P.Puts puts.new view.now (in_si (immediate_outcome row) bytes.now view.now)) }
{
    put_immediate(view, row, bytes[1], based_address(bytes, 2, view), puts)
}

/// Puts a row that switches status by an operand in storage, or of one of the channels.
#[inline(always)]
pub(crate) fn put_status_si<P: Puts>(
    row: StorageStatus,
    bytes: &[u8],
    view: &View,
    puts: &mut P,
) -> Result<Ended, AllocError>
    requires whole { 4 ≤ length bytes.now }
    requires none { PutsNothing P.Puts puts.old view.now }
    ensures { IfOk result (PutsOutcome P.Puts puts.new view.now (in_si (λ v i2. storage_status_outcome row v) bytes.now view.now)) }
{
    put_storage_status(view, row, based_address(bytes, 2, view), puts)
}

/// Puts a row that switches status by registers.
#[inline(always)]
pub(crate) fn put_status_rr<P: Puts>(
    row: RegisterStatus,
    bytes: &[u8],
    view: &View,
    puts: &mut P,
) -> Result<Ended, AllocError>
    requires whole { 2 ≤ length bytes.now }
    requires none { PutsNothing P.Puts puts.old view.now }
    ensures { IfOk result (PutsOutcome P.Puts puts.new view.now (in_rr (register_status_outcome row) bytes.now view.now)) }
{
    put_register_status(
        view,
        row,
        high_register(bytes, 1),
        low_register(bytes, 1),
        puts,
    )
}

/// Puts a row of two operands in storage.
#[inline(always)]
pub(crate) fn put_ss<P: Puts>(
    row: StorageRow,
    bytes: &[u8],
    view: &View,
    puts: &mut P,
) -> Result<Ended, AllocError>
    requires whole { 6 ≤ length bytes.now }
    requires none { PutsNothing P.Puts puts.old view.now }
    ensures { IfOk result (PutsOutcome P.Puts puts.new view.now (in_ss (storage_outcome row) bytes.now view.now)) }
{
    let (first, second) = (based_address(bytes, 2, view), based_address(bytes, 4, view));
    put_storage(view, row, bytes[1], first, second, puts)
}

/// Puts what is made of a byte in storage and the byte of the instruction.
#[inline(always)]
pub(crate) fn put_byte_si<P: Puts>(
    combination: ByteCombination,
    bytes: &[u8],
    view: &View,
    puts: &mut P,
) -> Result<Ended, AllocError>
    requires whole { 4 ≤ length bytes.now }
    requires none { PutsNothing P.Puts puts.old view.now }
    ensures { IfOk result (PutsOutcome P.Puts puts.new view.now (in_si (immediate_outcome (Combine combination)) bytes.now view.now)) }
{
    put_si(ImmediateRow::Combine(combination), bytes, view, puts)
}

/// Puts what the channels do to a unit.
#[inline(always)]
pub(crate) fn put_io_si<P: Puts>(
    operation: IoOperation,
    bytes: &[u8],
    view: &View,
    puts: &mut P,
) -> Result<Ended, AllocError>
    requires whole { 4 ≤ length bytes.now }
    requires none { PutsNothing P.Puts puts.old view.now }
    ensures { IfOk result (PutsOutcome P.Puts puts.new view.now (in_si (λ v i2. storage_status_outcome (InputOutput operation) v) bytes.now view.now)) }
{
    put_status_si(StorageStatus::InputOutput(operation), bytes, view, puts)
}

/// Puts a row of a storage key.
#[inline(always)]
pub(crate) fn put_key_rr<P: Puts>(
    row: KeyRow,
    bytes: &[u8],
    view: &View,
    puts: &mut P,
) -> Result<Ended, AllocError>
    requires whole { 2 ≤ length bytes.now }
    requires none { PutsNothing P.Puts puts.old view.now }
    ensures { IfOk result (PutsOutcome P.Puts puts.new view.now (in_rr (register_status_outcome (StorageKey row)) bytes.now view.now)) }
{
    put_status_rr(RegisterStatus::StorageKey(row), bytes, view, puts)
}

/// Puts what is made of the bytes of two operands in storage.
#[inline(always)]
pub(crate) fn put_bytes_ss<P: Puts>(
    combination: ByteCombination,
    bytes: &[u8],
    view: &View,
    puts: &mut P,
) -> Result<Ended, AllocError>
    requires whole { 6 ≤ length bytes.now }
    requires none { PutsNothing P.Puts puts.old view.now }
    ensures { IfOk result (PutsOutcome P.Puts puts.new view.now (in_ss (storage_outcome (CombineBytes combination)) bytes.now view.now)) }
{
    put_ss(StorageRow::Combine(combination), bytes, view, puts)
}

/// Puts what is made of the digits of two operands in storage.
#[inline(always)]
pub(crate) fn put_digits_ss<P: Puts>(
    row: DigitRow,
    bytes: &[u8],
    view: &View,
    puts: &mut P,
) -> Result<Ended, AllocError>
    requires whole { 6 ≤ length bytes.now }
    requires none { PutsNothing P.Puts puts.old view.now }
    ensures { IfOk result (PutsOutcome P.Puts puts.new view.now (in_ss (storage_outcome (Digits row)) bytes.now view.now)) }
{
    put_ss(StorageRow::Digits(row), bytes, view, puts)
}
