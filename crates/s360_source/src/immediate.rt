//! Instructions on a byte in storage and the byte of the instruction. Source: GA22-6821, "Logical Operations".
ghost use Rattle.std.specs.Prelude.{◌≡◌, ℕ, OnOk};
ghost use Rattle.s360_logic.specs.Immediate.{immediate_access};
ghost use Rattle.s360_machine.specs.Machine.{seen};
ghost use Rattle.s360_footprint.specs.LeftToRightRows.{sets_code};
ghost use Rattle.s360_footprint.specs.OperandReadings.{profile_of};
ghost use Rattle.s360_footprint.specs.StatusRows.{immediate_made, immediate_row};
ghost use Rattle.s360_source.specs.Walks.{combined_walk, walked};

use crate::access::push_conditions;
use crate::altering::{Altered, push_altered};
use crate::location::Location;
use crate::part::Part;
use crate::question::Question;
use s360_logic::{ByteCombination, ImmediateRow};
use s360_machine::Machine;
use s360_store::{Access, Place};
use std::alloc::AllocError;

/// Whether a combination of bytes sets the condition code.
pub(crate) fn sets_code(combination: ByteCombination) -> bool
    ensures { result ≡ sets_code combination }
{
    matches!(
        combination,
        ByteCombination::BitwiseAnd
            | ByteCombination::BitwiseOr
            | ByteCombination::BitwiseExclusiveOr
    )
}

/// Whether the byte is stored.
fn immediate_access(row: ImmediateRow) -> Access
    ensures { result ≡ immediate_access row }
{
    match row {
        ImmediateRow::Combine(_) | ImmediateRow::TestAndSet => Access::Store,
        ImmediateRow::Compare | ImmediateRow::TestUnderMask => Access::Fetch,
    }
}

/// Walks over a combination that is done. A byte that is moved is that of the instruction.
fn push_combined_byte(
    question: Question,
    found: &mut Vec<Place>,
    combination: ByteCombination,
    address: Location,
) -> Result<(), AllocError>
    ensures { OnOk result (found.new.items ≡ combined_walk question combination address found.old.items) }
{
    let byte = Place::Byte(address.number());
    let parts = [Part::Place(byte)];
    let used = &parts[..];
    let none = &used[..0];
    let sources = if combination == ByteCombination::Second {
        none
    } else {
        used
    };
    question.store(found, byte, sources)?;
    question.store_psw(found, if sets_code(combination) { used } else { none })
}

/// Walks over an instruction that is done.
fn push_immediate_made(
    question: Question,
    found: &mut Vec<Place>,
    machine: &Machine,
    row: ImmediateRow,
    address: Location,
) -> Result<(), AllocError>
    ensures { (i2 : ℕ) → (next : ℕ) → OnOk result (found.new.items ≡ walked question (immediate_made row i2 address next)
        (seen machine.now.whole) found.old.items) }
{
    let byte = Place::Byte(address.number());
    let used = [Part::Place(byte)];
    match row {
        ImmediateRow::Combine(combination) => {
            push_combined_byte(question, found, combination, address)?;
            Ok(())
        }
        ImmediateRow::Compare | ImmediateRow::TestUnderMask => {
            let altered = Altered {
                overflow: &[],
                registers: &[],
                words: &[],
                code: &used,
            };
            push_altered(question, found, machine, &altered)?;
            Ok(())
        }
        ImmediateRow::TestAndSet => {
            question.store(found, byte, &[])?;
            question.store_psw(found, &used)?;
            Ok(())
        }
    }
}

/// Walks over an instruction on a byte in storage and the byte of the instruction.
pub(crate) fn push_immediate(
    question: Question,
    found: &mut Vec<Place>,
    machine: &Machine,
    row: ImmediateRow,
    address: Location,
) -> Result<(), AllocError>
    ensures { (i2 : ℕ) → (next : ℕ) → OnOk result (found.new.items ≡ walked question (immediate_row (profile_of machine.now.whole.core) row i2 address next)
        (seen machine.now.whole) found.old.items) }
{
    let kind = immediate_access(row);
    match push_conditions(question, found, machine, address, 1, 1, kind)? {
        Some(_) => Ok(()),
        None => {
            push_immediate_made(question, found, machine, row, address)?;
            Ok(())
        }
    }
}
