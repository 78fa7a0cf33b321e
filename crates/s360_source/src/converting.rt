//! Conversions between a word in a register and a packed decimal number in storage. Source: GA22-6821, "Fixed-Point
//! Arithmetic", CONVERT TO BINARY and CONVERT TO DECIMAL.
ghost use Rattle.std.specs.Prelude.{◌≡◌, ◌≤◌, ◌+◌, ℕ, OnOk, is_some, length};
ghost use Rattle.s360_model.specs.{Packed.packed_value, Storage.doubleword_at};
ghost use Rattle.s360_logic.specs.declared.row.Conversion.TheVariants.{ToBinary};
ghost use Rattle.s360_machine.specs.Machine.{seen};
ghost use Rattle.s360_footprint.specs.OperandReadings.{profile_of};
ghost use Rattle.s360_footprint.specs.StatusRows.{conversion_row};
ghost use Rattle.s360_source.specs.Walks.{walked};

use crate::access::push_conditions;
use crate::location::Location;
use crate::part::Part;
use crate::question::Question;
use crate::storing::push_bytes_row;
use s360_logic::Conversion;
use s360_machine::Machine;
use s360_store::{Access, Place};
use s360_word::{PackedFault, RegisterNumber, from_packed};
use std::alloc::AllocError;

/// Whether the doubleword at an address is a packed decimal number.
fn is_packed(machine: &Machine, address: Location) -> bool
    requires { address + 8 ≤ length machine.now.whole.core.storage.bytes }
    ensures { result ≡ is_some (packed_value (doubleword_at machine.now.whole.core.storage.bytes address)) }
{
    !matches!(
        from_packed(machine.storage().double(address.number())),
        Err(PackedFault::BadDigit)
    )
}

/// Walks over a conversion to binary.
fn push_binary(
    question: Question,
    found: &mut Vec<Place>,
    machine: &Machine,
    r1: RegisterNumber,
    address: Location,
) -> Result<(), AllocError>
    ensures { (next : ℕ) → OnOk result (found.new.items ≡ walked question (conversion_row (profile_of machine.now.whole.core) ToBinary r1 address next)
        (seen machine.now.whole) found.old.items) }
{
    match push_conditions(question, found, machine, address, 8, 8, Access::Fetch)? {
        Some(_) => Ok(()),
        None => {
            let number = [Part::Bytes(address, 8)];
            question.decide(found, &number)?;
            if !is_packed(machine, address) {
                return Ok(());
            }
            question.store(found, Place::Register(r1.number()), &number)?;
            question.store_psw(found, &[])?;
            Ok(())
        }
    }
}

/// Walks over a conversion.
pub(crate) fn push_conversion(
    question: Question,
    found: &mut Vec<Place>,
    machine: &Machine,
    conversion: Conversion,
    r1: RegisterNumber,
    address: Location,
) -> Result<(), AllocError>
    ensures { (next : ℕ) → OnOk result (found.new.items ≡ walked question (conversion_row (profile_of machine.now.whole.core) conversion r1 address next)
        (seen machine.now.whole) found.old.items) }
{
    match conversion {
        Conversion::ToBinary => {
            push_binary(question, found, machine, r1, address)?;
            Ok(())
        }
        Conversion::ToDecimal => {
            let parts = [Part::Place(Place::Psw), Part::register(r1)];
            push_bytes_row(question, found, machine, address, 8, &parts)?;
            Ok(())
        }
    }
}
