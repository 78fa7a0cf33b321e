//! Rows of a byte in storage and the byte of the instruction. Source: GA22-6821, "Logical
//! Operations".
ghost use Rattle.std.specs.Prelude.{◌≡◌, ◌<◌, IfOk, length};
ghost use Rattle.s360_fixed.specs.Plans.{PutsNothing, PutsOutcome};
ghost use Rattle.s360_logic.specs.Bytes.{completed_with, with_byte};
ghost use Rattle.s360_logic.specs.Immediate.{immediate_outcome, mask_code};

use crate::condition::put_code;
use crate::field::Field;
use crate::first_operand::FirstOperand;
use crate::row::ImmediateRow;
use s360_fixed::{Ended, View, operand_exception};
use s360_store::{Access, Puts};
use s360_word::{Cc, Word, compare_logical};
use std::alloc::AllocError;

/// The condition code of the bits of a byte that a mask selects.
fn mask_condition(byte: u8, mask: u8) -> Cc
    ensures { result ≡ mask_code byte mask }
{
    let selected = byte & mask;
    if selected == 0 {
        Cc::new(0)
    } else if selected == mask {
        Cc::new(3)
    } else {
        Cc::new(1)
    }
}

/// Puts a byte at an address inside storage, and a condition code if one is set.
fn put_byte<P: Puts>(
    view: &View,
    address: u32,
    byte: u8,
    code: Option<Cc>,
    puts: &mut P,
) -> Result<Ended, AllocError>
    requires inside { address < length view.now.core.storage.bytes }
    requires none { PutsNothing P.Puts puts.old view.now }
    ensures { IfOk result (PutsOutcome P.Puts puts.new view.now (completed_with view.now code (with_byte address byte view.now.core.storage))) }
{
    let mut operand = FirstOperand::new(view.storage(), Field { address, count: 1 });
    operand.set(0, byte);
    operand.put(view, code, puts)
}

/// Puts a row of a byte in storage and the byte of the instruction.
pub(crate) fn put_immediate<P: Puts>(
    view: &View,
    row: ImmediateRow,
    i2: u8,
    address: u32,
    puts: &mut P,
) -> Result<Ended, AllocError>
    requires none { PutsNothing P.Puts puts.old view.now }
    ensures { IfOk result (PutsOutcome P.Puts puts.new view.now (immediate_outcome row view.now i2 address)) }
{
    if let Some(code) = operand_exception(view, address, 1, 1, row.access()) {
        return Ok(Ended::Program(code));
    }
    let byte = view.storage().byte(address);
    match row {
        ImmediateRow::Combine(combination) => {
            let result = combination.of(byte, i2);
            put_byte(view, address, result, combination.code(&[result]), puts)
        }
        ImmediateRow::TestAndSet => {
            let leftmost = Some(Cc::new(byte / 128));
            put_byte(view, address, 0xFF, leftmost, puts)
        }
        ImmediateRow::Compare => {
            put_code(
                view,
                compare_logical(Word::from(byte), Word::from(i2)),
                puts,
            )
        }
        ImmediateRow::TestUnderMask => put_code(view, mask_condition(byte, i2), puts),
    }
}
