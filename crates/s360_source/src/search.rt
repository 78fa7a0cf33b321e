//! TRANSLATE AND TEST: a search for a byte that selects a function byte that is not zero. Source: GA22-6821, "Logical
//! Operations".
ghost use Rattle.std.specs.Prelude.{◌≡◌, ◌++◌, ◌∷◌, ℕ, IfOk, OnOk, is_some};
ghost use Rattle.s360_model.specs.Psw.{protection_key_of};
ghost use Rattle.s360_machine.specs.Machine.{seen};
ghost use Rattle.s360_footprint.specs.LeftToRightRows.{search_met, search_read, searched_row, translate_and_test_row};
ghost use Rattle.s360_footprint.specs.OperandReadings.{profile_of};
ghost use Rattle.s360_footprint.specs.Readings.{places_read, run};
ghost use Rattle.s360_source.specs.Walks.{found_walk, walked, with_decided, with_store};

use crate::access::keys_looked_at;
use crate::fields::check;
use crate::left_to_right::{byte_at, function_address};
use crate::location::Location;
use crate::part::Part;
use crate::question::Question;
use crate::translating::push_function_met;
use s360_fixed::ProgramCode;
use s360_machine::Machine;
use s360_store::{Access, Checked, Place};
use std::alloc::AllocError;

/// A search of the bytes of an operand.
#[derive(Clone, Copy)]
struct Search {
    first: Location,
    table: Location,
    count: u16,
}

impl Search {
    /// Walks over the fetches of the function bytes up to the one that is not zero, and returns what they meet.
    fn push_met(
        &self,
        question: Question,
        found: &mut Vec<Place>,
        machine: &Machine,
    ) -> Result<Checked, AllocError>
        ensures met { IfOk result (λ met. met ≡ run (search_met (profile_of machine.now.whole.core) self.now.table
            (protection_key_of machine.now.whole.core.psw) self.now.first 0 self.now.count) (seen machine.now.whole)) }
        ensures read { OnOk result (found.new.items ≡ with_decided question (places_read (search_met (profile_of machine.now.whole.core) self.now.table
            (protection_key_of machine.now.whole.core.psw) self.now.first 0 self.now.count) (seen machine.now.whole)) found.old.items) }
    {
        let mut met = Checked::Clear;
        for i in 0..u32::from(self.count) {
            let at = self.first.number() + i;
            let one = push_function_met(question, found, machine, self.table, at)?;
            let selected = function_address(machine, self.table, at).number();
            question.decide(found, &[Part::Place(Place::Byte(selected))])?;
            met = met.and(one);
            if byte_at(machine.storage(), selected) != 0 {
                return Ok(met);
            }
        }
        Ok(met)
    }

    /// Adds the bytes up to the one whose function byte is not zero, each with that.
    fn push_places(&self, found: &mut Vec<Place>, machine: &Machine) -> Result<(), AllocError>
        ensures { OnOk result (found.new.items ≡ found.old.items ++
            places_read (search_read self.now.table self.now.first 0 self.now.count) (seen machine.now.whole)) }
    {
        for i in 0..u32::from(self.count) {
            let at = self.first.number() + i;
            let selected = function_address(machine, self.table, at).number();
            found.push(Place::Byte(at))?;
            found.push(Place::Byte(selected))?;
            if byte_at(machine.storage(), selected) != 0 {
                return Ok(());
            }
        }
        Ok(())
    }

    /// Whether a byte is found.
    fn is_found(&self, machine: &Machine) -> bool
        ensures { result ≡ is_some (run (search_read self.now.table self.now.first 0 self.now.count) (seen machine.now.whole)) }
    {
        for i in 0..u32::from(self.count) {
            let at = self.first.number() + i;
            let selected = function_address(machine, self.table, at).number();
            if byte_at(machine.storage(), selected) != 0 {
                return true;
            }
        }
        false
    }

    /// Follows a store into a place, whose value is made of it and of what the search reads.
    fn push_store(
        &self,
        question: Question,
        found: &mut Vec<Place>,
        machine: &Machine,
        place: Place,
    ) -> Result<(), AllocError>
        ensures { OnOk result (found.new.items ≡ with_store question place (place ∷
            places_read (search_read self.now.table self.now.first 0 self.now.count) (seen machine.now.whole)) found.old.items) }
    {
        question.store(found, place, &[Part::Place(place)])?;
        if question.is_of(place) {
            self.push_places(found, machine)?;
            return Ok(());
        }
        Ok(())
    }

    /// Adds what the search reads, which decides what the instruction does.
    fn push_decided(
        &self,
        question: Question,
        found: &mut Vec<Place>,
        machine: &Machine,
    ) -> Result<(), AllocError>
        ensures { OnOk result (found.new.items ≡ with_decided question
            (places_read (search_read self.now.table self.now.first 0 self.now.count) (seen machine.now.whole)) found.old.items) }
    {
        match question {
            Question::Deciders => self.push_places(found, machine),
            Question::Stored | Question::Sources(_) => Ok(()),
        }
    }

    /// Follows the stores of registers 1 and 2, if a byte is found.
    fn push_registers(
        &self,
        question: Question,
        found: &mut Vec<Place>,
        machine: &Machine,
    ) -> Result<(), AllocError>
        ensures { OnOk result (found.new.items ≡ found_walk question (is_some (run (search_read self.now.table self.now.first 0 self.now.count)
            (seen machine.now.whole))) (places_read (search_read self.now.table self.now.first 0 self.now.count) (seen machine.now.whole)) found.old.items) }
    {
        if !self.is_found(machine) {
            return Ok(());
        }
        self.push_store(question, found, machine, Place::Register(1))?;
        self.push_store(question, found, machine, Place::Register(2))
    }

    /// Walks over a search that is done.
    fn push_searched(
        &self,
        question: Question,
        found: &mut Vec<Place>,
        machine: &Machine,
    ) -> Result<(), AllocError>
        ensures { (next : ℕ) → OnOk result (found.new.items ≡ walked question
            (searched_row self.now.first self.now.table self.now.count next) (seen machine.now.whole) found.old.items) }
    {
        self.push_decided(question, found, machine)?;
        question.decide(found, &[Part::Place(Place::Psw)])?;
        self.push_registers(question, found, machine)?;
        self.push_store(question, found, machine, Place::Psw)?;
        Ok(())
    }
}

/// Walks over a search of so many bytes.
pub(crate) fn push_translate_and_test(
    question: Question,
    found: &mut Vec<Place>,
    machine: &Machine,
    first: Location,
    table: Location,
    count: u16,
) -> Result<(), AllocError>
    ensures { (next : ℕ) → OnOk result (found.new.items ≡ walked question (translate_and_test_row (profile_of machine.now.whole.core) first table count next)
        (seen machine.now.whole) found.old.items) }
{
    let search = Search {
        first,
        table,
        count,
    };
    let keys = keys_looked_at(machine, first, count, Access::Fetch);
    question.decide(found, &[Part::Place(Place::Psw), keys])?;
    let met = check(machine, first, count, Access::Fetch);
    let functions = search.push_met(question, found, machine)?;
    match ProgramCode::of_access(met.and(functions)) {
        Some(_) => Ok(()),
        None => {
            search.push_searched(question, found, machine)?;
            Ok(())
        }
    }
}
