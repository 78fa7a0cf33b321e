//! Instructions that make something of R1 and a second operand, which is in a register or in storage, or is an address. Source:
//! GA22-6821, "Fixed-Point Arithmetic" and "Logical Operations".
ghost use Rattle.std.specs.Prelude.{◌≡◌, ℕ, IfNone, IfOk, OnOk};
ghost use Rattle.s360_fixed.specs.ProgramCodes.{program_code};
ghost use Rattle.s360_machine.specs.Machine.{seen};
ghost use Rattle.s360_footprint.specs.OperandReadings.{Profile, address_read, profile_of, second_operand_read};
ghost use Rattle.s360_footprint.specs.Readings.{places_read, run};
ghost use Rattle.s360_footprint.specs.RegisterRows.{combination_row};
ghost use Rattle.s360_source.specs.Seconds.{IsInside, IsOfWord, part_of, second_reading};
ghost use Rattle.s360_source.specs.Walks.{walked, with_decided};

use crate::access::push_conditions;
use crate::combination::push_combination;
use crate::location::Location;
use crate::part::Part;
use crate::question::Question;
use crate::storing::bytes_of;
use s360_fixed::{Combination, ProgramCode, SecondOperand, Width};
use s360_machine::Machine;
use s360_store::{Access, Place};
use s360_word::{RegisterNumber, Word};
use std::alloc::AllocError;

/// A second operand.
#[derive(Clone, Copy)]
pub(crate) enum Second {
    /// The word in a register.
    Register(RegisterNumber),
    /// So many bytes in storage.
    Storage(Width, Location),
    /// The address that index, base and displacement make.
    Address(RegisterNumber, RegisterNumber, u16),
}

impl Second {
    /// The one of the format RX, whose address is made of index, base and displacement.
    pub(crate) fn indexed(
        second: SecondOperand,
        address: Location,
        index: RegisterNumber,
        base: RegisterNumber,
        displacement: u16,
    ) -> Second
        ensures { (p : Profile) → second_reading p result ≡ second_operand_read p second (address_read index base displacement) address }
    {
        match second {
            SecondOperand::InStorage(width) => Second::Storage(width, address),
            SecondOperand::Address => Second::Address(index, base, displacement),
        }
    }

    /// What it is made of.
    pub(crate) fn part(&self) -> Part
        ensures { result ≡ part_of self.now }
    {
        match *self {
            Second::Register(register) => Part::register(register),
            Second::Storage(width, address) => Part::Bytes(address, bytes_of(width)),
            Second::Address(index, base, _) => Part::Address(index, base),
        }
    }

    /// Walks over its conditions, and returns what keeps it from being used.
    #[tactic(auto, using(crate::proofs::WalkLemmas::decided_none))]
    pub(crate) fn push_conditions(
        &self,
        question: Question,
        found: &mut Vec<Place>,
        machine: &Machine,
    ) -> Result<Option<ProgramCode>, AllocError>
        ensures code { IfOk result (λ code. code ≡ program_code (run (second_reading (profile_of machine.now.whole.core) self.now).conditions
            (seen machine.now.whole))) }
        ensures read { OnOk result (found.new.items ≡ with_decided question
            (places_read (second_reading (profile_of machine.now.whole.core) self.now).conditions (seen machine.now.whole)) found.old.items) }
        ensures inside { IfOk result (λ code. IfNone code (IsInside machine.now.whole.core self.now)) }
    {
        match *self {
            Second::Storage(width, address) => {
                let count = bytes_of(width);
                push_conditions(
                    question,
                    found,
                    machine,
                    address,
                    count,
                    count,
                    Access::Fetch,
                )
            }
            Second::Register(_) | Second::Address(..) => Ok(None),
        }
    }

    /// The word that it is, if it can be used.
    pub(crate) fn word(&self, machine: &Machine) -> Word
        requires word { IsOfWord self.now }
        requires inside { IsInside machine.now.whole.core self.now }
        ensures { result ≡ run (second_reading (profile_of machine.now.whole.core) self.now).value (seen machine.now.whole) }
    {
        match *self {
            Second::Register(register) => machine.register(register),
            Second::Storage(_, address) => machine.storage().word(address.number()),
            Second::Address(..) => unreachable!(),
        }
    }
}

/// Walks over a combination of R1 and a second operand.
pub(crate) fn push_combined(
    question: Question,
    found: &mut Vec<Place>,
    machine: &Machine,
    combination: Combination,
    r1: RegisterNumber,
    second: &Second,
) -> Result<(), AllocError>
    ensures { (next : ℕ) → OnOk result (found.new.items ≡ walked question
        (combination_row combination r1 (second_reading (profile_of machine.now.whole.core) second.now) next) (seen machine.now.whole) found.old.items) }
{
    let part = second.part();
    match second.push_conditions(question, found, machine)? {
        Some(_) => Ok(()),
        None => {
            push_combination(question, found, machine, combination, r1, part)?;
            Ok(())
        }
    }
}
