//! Instructions that store bytes of a register. Source: GA22-6821, "Fixed-Point Arithmetic" and "Logical Operations".
ghost use Rattle.std.specs.Prelude.{◌≡◌, ◌<◌, ℕ, List, OnOk};
ghost use Rattle.s360_fixed.specs.Operands.{bytes_of_width};
ghost use Rattle.s360_machine.specs.Machine.{seen};
ghost use Rattle.s360_footprint.specs.OperandReadings.{profile_of};
ghost use Rattle.s360_footprint.specs.Readings.{Reading, places_read};
ghost use Rattle.s360_footprint.specs.StoringRows.{bytes_row, store_row};
ghost use Rattle.s360_source.specs.Parts.{places_of_parts};
ghost use Rattle.s360_source.specs.Walks.{store_walk, walked};

use crate::access::push_conditions;
use crate::location::Location;
use crate::part::Part;
use crate::question::Question;
use s360_fixed::Width;
use s360_machine::Machine;
use s360_store::{Access, Place};
use s360_word::RegisterNumber;
use std::alloc::AllocError;

/// The number of bytes of an operand.
pub(crate) fn bytes_of(width: Width) -> u16
    ensures bytes { result ≡ bytes_of_width width }
    ensures some { 0 < result }
{
    match width {
        Width::Byte => 1,
        Width::Halfword => 2,
        Width::Word => 4,
    }
}

/// Walks over an instruction that is completed with stores into so many bytes, made of these parts.
fn push_stored_bytes(
    question: Question,
    found: &mut Vec<Place>,
    address: Location,
    count: u16,
    parts: &[Part],
) -> Result<(), AllocError>
    ensures { OnOk result (found.new.items ≡ store_walk question address count (places_of_parts parts.now) found.old.items) }
{
    question.store_bytes(found, address, count, parts)?;
    question.store_psw(found, &[])
}

/// Walks over an instruction that stores so many bytes on the boundary of their number, made of these parts.
pub(crate) fn push_bytes_row(
    question: Question,
    found: &mut Vec<Place>,
    machine: &Machine,
    address: Location,
    count: u16,
    parts: &[Part],
) -> Result<(), AllocError>
    requires { 0 < count }
    ensures { (bytes : Reading (List ℕ)) → (next : ℕ) → places_read bytes (seen machine.now.whole) ≡ places_of_parts parts.now
        → OnOk result (found.new.items ≡ walked question (bytes_row (profile_of machine.now.whole.core) bytes count address next)
        (seen machine.now.whole) found.old.items) }
{
    match push_conditions(
        question,
        found,
        machine,
        address,
        count,
        count,
        Access::Store,
    )? {
        Some(_) => Ok(()),
        None => {
            push_stored_bytes(question, found, address, count, parts)?;
            Ok(())
        }
    }
}

/// Walks over a store of so many low bytes of R1.
pub(crate) fn push_store(
    question: Question,
    found: &mut Vec<Place>,
    machine: &Machine,
    width: Width,
    r1: RegisterNumber,
    address: Location,
) -> Result<(), AllocError>
    ensures { (next : ℕ) → OnOk result (found.new.items ≡ walked question (store_row (profile_of machine.now.whole.core) width r1 address next)
        (seen machine.now.whole) found.old.items) }
{
    push_bytes_row(
        question,
        found,
        machine,
        address,
        bytes_of(width),
        &[Part::register(r1)],
    )?;
    Ok(())
}
