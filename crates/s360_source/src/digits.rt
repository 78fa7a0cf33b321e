//! MOVE WITH OFFSET, PACK and UNPACK: bytes that are made and stored from right to left, and what was stored is seen by later
//! fetches. Source: GA22-6821, "Decimal Arithmetic".
ghost use Rattle.std.specs.Prelude.{◌≡◌, ◌++◌, ◌<◌, ◌≤◌, ◌+◌, ◌/◌, ◌%◌, nat_eq, if◌then◌else◌, ℕ, OnOk};
ghost use Rattle.s360_store.specs.declared.place.Place.TheVariants.{Byte};
ghost use Rattle.s360_logic.specs.RightToLeft.{address_from_right, first_user};
ghost use Rattle.s360_machine.specs.Machine.{Machine as SeenMachine, seen};
ghost use Rattle.s360_footprint.specs.DigitRows.{byte_before, digit_stores, digits_row, source_read};
ghost use Rattle.s360_footprint.specs.OperandReadings.{profile_of};
ghost use Rattle.s360_footprint.specs.Readings.{places_read};
ghost use Rattle.s360_source.specs.Fields.{digit_places, field_of, operands_of};
ghost use Rattle.s360_source.specs.Walks.{walked, with_store, with_stores_of};

use crate::fields::{Operand, push_fields};
use crate::location::Location;
use crate::question::Question;
use s360_logic::DigitRow;
use s360_machine::Machine;
use s360_store::{Access, Place};
use std::alloc::AllocError;

/// Two operands, of which the first is made of digits.
#[derive(Clone, Copy)]
struct Digits {
    row: DigitRow,
    first: Operand,
    second: Operand,
}

/// The address of the byte of an operand at `i`, counted from 0 at the right.
fn from_right(operand: Operand, i: u32) -> u32
    requires { i < operand.count }
    ensures { result ≡ address_from_right (field_of operand) i }
{
    operand.address.number() + u32::from(operand.count) - 1 - i
}

/// Which byte of the result is the first that needs the byte of the second operand at `j`.
fn first_user(row: DigitRow, j: u32) -> u32
    requires { j < 32 }
    ensures { result ≡ first_user row j }
{
    match row {
        DigitRow::MoveWithOffset => j,
        DigitRow::Pack => (j + 1) / 2,
        DigitRow::Unpack => (2 * j).saturating_sub(1),
    }
}

/// Which byte of the second operand has the digit of the byte of an unpacked result at `i`.
fn unpacked_from(i: u32) -> u32
    requires { i < 16 }
    ensures { result ≡ (if nat_eq (i % 2) 1 then (i + 1) / 2 else i / 2) }
{
    if i % 2 == 1 { (i + 1) / 2 } else { i / 2 }
}

impl Digits {
    /// Adds what the byte at an address is made of after so many bytes of the result were stored.
    #[cycle(digits)]
    fn push_stored(
        &self,
        found: &mut Vec<Place>,
        stored: u32,
        address: u32,
    ) -> Result<(), AllocError>
        requires inside { stored ≤ self.now.first.count }
        requires first { self.now.first.count ≤ 16 }
        requires second { self.now.second.count ≤ 16 }
        ensures { (m : SeenMachine) → OnOk result (found.new.items ≡ found.old.items ++ places_read (byte_before
            (operands_of self.now) stored stored address) m) }
    {
        if stored == 0 {
            found.push(Place::Byte(address))?;
            return Ok(());
        }
        let last = stored - 1;
        if from_right(self.first, last) == address {
            self.push_made(found, last)?;
            return Ok(());
        }
        self.push_stored(found, last, address)
    }

    /// Adds what the byte of the result at `i` is made of.
    #[cycle(digits)]
    fn push_made(&self, found: &mut Vec<Place>, i: u32) -> Result<(), AllocError>
        requires inside { i < self.now.first.count }
        requires first { self.now.first.count ≤ 16 }
        requires second { self.now.second.count ≤ 16 }
        ensures { (m : SeenMachine) → OnOk result (found.new.items ≡ found.old.items ++ digit_places self.now i m) }
    {
        match self.row {
            DigitRow::MoveWithOffset if i == 0 => {
                self.push_source(found, 0, 0)?;
                found.push(Place::Byte(from_right(self.first, 0)))?;
                Ok(())
            }
            DigitRow::MoveWithOffset => {
                self.push_source(found, i, i)?;
                self.push_source(found, i, i - 1)
            }
            DigitRow::Pack if i == 0 => self.push_source(found, 0, 0),
            DigitRow::Pack => {
                self.push_source(found, i, 2 * i)?;
                self.push_source(found, i, 2 * i - 1)
            }
            DigitRow::Unpack if i == 0 => self.push_source(found, 0, 0),
            DigitRow::Unpack => {
                found.push(Place::Psw)?;
                self.push_source(found, i, unpacked_from(i))?;
                Ok(())
            }
        }
    }

    /// Adds what the byte of the second operand at `j` is made of as the byte of the result at `i` takes it.
    #[cycle(digits)]
    fn push_source(&self, found: &mut Vec<Place>, i: u32, j: u32) -> Result<(), AllocError>
        requires inside { i < self.now.first.count }
        requires first { self.now.first.count ≤ 16 }
        requires second { self.now.second.count ≤ 16 }
        ensures { (m : SeenMachine) → OnOk result (found.new.items ≡ found.old.items ++
            places_read (source_read (operands_of self.now) (byte_before (operands_of self.now) i) j) m) }
    {
        if j >= u32::from(self.second.count) {
            return Ok(());
        }
        let address = from_right(self.second, j);
        let user = first_user(self.row, j);
        if user < i {
            self.push_stored(found, user, address)?;
            return Ok(());
        }
        self.push_stored(found, i, address)?;
        Ok(())
    }

    /// Follows the store of the byte of the result at `i`.
    fn push_store(
        &self,
        question: Question,
        found: &mut Vec<Place>,
        i: u32,
    ) -> Result<(), AllocError>
        requires inside { i < self.now.first.count }
        requires first { self.now.first.count ≤ 16 }
        requires second { self.now.second.count ≤ 16 }
        ensures { (m : SeenMachine) → OnOk result (found.new.items ≡ with_store question (Byte (address_from_right (field_of self.now.first) i))
            (digit_places self.now i m) found.old.items) }
    {
        let byte = Place::Byte(from_right(self.first, i));
        if question.is_of(byte) {
            found.clear();
            self.push_made(found, i)?;
            return Ok(());
        }
        question.store(found, byte, &[])?;
        Ok(())
    }

    /// Follows the stores of the result.
    fn push_stores(&self, question: Question, found: &mut Vec<Place>) -> Result<(), AllocError>
        requires first { self.now.first.count ≤ 16 }
        requires second { self.now.second.count ≤ 16 }
        ensures { (m : SeenMachine) → OnOk result (found.new.items ≡ with_stores_of question m
            (digit_stores (operands_of self.now) self.now.first.count) found.old.items) }
    {
        for i in 0..u32::from(self.first.count) {
            self.push_store(question, found, i)?;
        }
        Ok(())
    }
}

/// Walks over an instruction on digits with this length field.
pub(crate) fn push_digits(
    question: Question,
    found: &mut Vec<Place>,
    machine: &Machine,
    row: DigitRow,
    first: &Operand,
    second: &Operand,
) -> Result<(), AllocError>
    requires first { first.now.count ≤ 16 }
    requires second { second.now.count ≤ 16 }
    ensures { (next : ℕ) → OnOk result (found.new.items ≡ walked question (digits_row (profile_of machine.now.whole.core) row (field_of first.now)
        (field_of second.now) next)
        (seen machine.now.whole) found.old.items) }
{
    let digits = Digits {
        row,
        first: *first,
        second: *second,
    };
    match push_fields(question, found, machine, Access::Store, first, second)? {
        Some(_) => Ok(()),
        None => {
            digits.push_stores(question, found)?;
            question.store_psw(found, &[])?;
            Ok(())
        }
    }
}
