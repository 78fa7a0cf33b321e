//! Rows of two operands in storage, each with its length, a byte of the result after another from
//! right to left. Source: GA22-6821, "Decimal Arithmetic", MOVE WITH OFFSET, PACK and UNPACK.
ghost use Rattle.std.specs.Prelude.{◌≡◌, ◌≤◌, ◌<◌, ◌+◌, IfOk, length};
ghost use Rattle.s360_fixed.specs.Plans.{PutsNothing, PutsOutcome};
ghost use Rattle.s360_logic.specs.Operands.{stored_in};
ghost use Rattle.s360_logic.specs.Operands.{next_byte};
ghost use Rattle.s360_logic.specs.RightToLeft.{byte_from_right, digits, digits_outcome, digits_stored, exchanged, zone_of};

use crate::field::{Field, fields_exception};
use crate::first_operand::FirstOperand;
use crate::row::DigitRow;
use s360_fixed::{Ended, View};
use s360_psw::Psw;
use s360_store::{Access, Puts};
use std::alloc::AllocError;

/// A byte of the result, and the byte of the second operand that is held for the next.
#[derive(Clone, Copy)]
struct NextByte {
    byte: u8,
    held: u8,
}

/// Two digits as a byte.
fn digits(high: u8, low: u8) -> u8
    ensures { result ≡ digits high low }
{
    high % 16 * 16 + low % 16
}

/// A byte with its digits exchanged.
fn exchanged(byte: u8) -> u8
    ensures { result ≡ exchanged byte }
{
    digits(byte, byte / 16)
}

/// The byte of an operand at `i`, counted from 0 at the right; zero past its end.
fn byte_from_right(storage: &FirstOperand, field: Field, i: u32) -> u8
    requires inside { field.address + field.count ≤ length storage.now.storage.bytes }
    requires small { length storage.now.storage.bytes ≤ 1048576 }
    ensures { result ≡ byte_from_right field (stored_in storage.now) i }
{
    if i < field.count {
        storage.byte(field.address + field.count - 1 - i)
    } else {
        0
    }
}

/// The zone of an unpacked digit.
fn zone_of(psw: Psw) -> u8
    ensures zone { result ≡ zone_of psw }
{
    if psw.ascii_mode() { 5 } else { 15 }
}

/// The byte of the result at `i`, counted from 0 at the right.
fn next_byte(
    row: DigitRow,
    zone: u8,
    storage: &FirstOperand,
    second: Field,
    i: u32,
    held: u8,
) -> NextByte
    requires inside { second.address + second.count ≤ length storage.now.storage.bytes }
    requires small { length storage.now.storage.bytes ≤ 1048576 }
    requires few { i < 256 }
    ensures { result ≡ next_byte row zone second i held (stored_in storage.now) }
{
    match row {
        DigitRow::MoveWithOffset => {
            let fetched = byte_from_right(storage, second, i);
            NextByte {
                byte: digits(fetched, held / 16),
                held: fetched,
            }
        }
        DigitRow::Pack | DigitRow::Unpack if i == 0 => NextByte {
            byte: exchanged(byte_from_right(storage, second, 0)),
            held,
        },
        DigitRow::Pack => {
            let low = byte_from_right(storage, second, 2 * i - 1);
            let high = byte_from_right(storage, second, 2 * i);
            NextByte {
                byte: digits(high, low),
                held,
            }
        }
        DigitRow::Unpack if i % 2 == 1 => {
            let fetched = byte_from_right(storage, second, (i + 1) / 2);
            NextByte {
                byte: digits(zone, fetched),
                held: fetched,
            }
        }
        DigitRow::Unpack => NextByte {
            byte: digits(zone, held / 16),
            held,
        },
    }
}

/// Makes the bytes of the operand, which is the first, of the digits of the second.
fn make_digits(row: DigitRow, zone: u8, operand: &mut FirstOperand, first: Field, second: Field)
    requires inside { second.address + second.count ≤ length operand.old.storage.bytes }
    requires some { 0 < first.count }
    requires address { operand.old.address ≡ first.address }
    requires count { length operand.old.bytes ≡ first.count }
    ensures stored { stored_in operand.new ≡ digits_stored (record { row = row; zone = zone; first = first; second = second }) (stored_in operand.old) }
    ensures storage { operand.new.storage ≡ operand.old.storage }
{
    let count = operand.len();
    let mut held = digits(byte_from_right(operand, first, 0), 0);
    for i in 0..count {
        let next = next_byte(row, zone, operand, second, i, held);
        operand.set(count - 1 - i, next.byte);
        held = next.held;
    }
}

/// Puts a row of digits.
pub(crate) fn put_digits<P: Puts>(
    view: &View,
    row: DigitRow,
    first: Field,
    second: Field,
    puts: &mut P,
) -> Result<Ended, AllocError>
    requires some { 0 < first.count }
    requires few { first.count ≤ 16 }
    requires none { PutsNothing P.Puts puts.old view.now }
    ensures { IfOk result (PutsOutcome P.Puts puts.new view.now (digits_outcome row view.now first second)) }
{
    if let Some(code) = fields_exception(view, Access::Store, first, second) {
        return Ok(Ended::Program(code));
    }
    let mut operand = FirstOperand::new(view.storage(), first);
    make_digits(row, zone_of(view.psw()), &mut operand, first, second);
    operand.put(view, None, puts)
}
