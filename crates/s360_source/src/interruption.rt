//! An interruption, and what it follows. Source: GA22-6821, "Interruptions".
ghost use Rattle.std.specs.Prelude.{◌≡◌, ◌++◌, OnOk, flat_map};
ghost use Rattle.s360_machine.specs.Machine.{Machine as Machines, seen};
ghost use Rattle.s360_source.specs.EventWalks.{decided_before, interrupted_walk, interruption_walk, stores_before};
ghost use Rattle.s360_source.specs.Walks.{sources_by, with_decided, with_stores_of};

use crate::instruction::push_instruction;
use crate::location::Location;
use crate::part::Part;
use crate::question::Question;
use s360_machine::{ConfiguredUnit, Machine};
use s360_psw::Class;
use s360_store::Place;
use std::alloc::AllocError;

/// The address of the channel status word.
pub(crate) const CSW: u32 = 64;

/// What an interruption follows.
#[derive(Clone, Copy)]
pub(crate) enum Before {
    /// The instruction at the instruction address.
    Instruction,
    /// The store of the status word of a unit that interrupts.
    Status(ConfiguredUnit),
}

/// Walks over the store of the status word of a unit, by how it stands.
fn push_status(
    question: Question,
    found: &mut Vec<Place>,
    unit: ConfiguredUnit,
) -> Result<(), AllocError>
    ensures { (m : Machines) → OnOk result (found.new.items ≡ with_stores_of question m (stores_before m (Before.Status unit))
        (with_decided question (decided_before m (Before.Status unit)) found.old.items)) }
{
    question.decide(found, &[Part::state(unit)])?;
    question.store_bytes(found, Location::new(CSW), 8, &[Part::state(unit)])?;
    question.store_itself(found, Place::UnitState(unit.unit()))
}

impl Before {
    /// Walks over it.
    fn push(
        self,
        question: Question,
        found: &mut Vec<Place>,
        machine: &Machine,
    ) -> Result<(), AllocError>
        ensures { OnOk result (found.new.items ≡ with_stores_of question (seen machine.now.whole) (stores_before (seen machine.now.whole) self)
            (with_decided question (decided_before (seen machine.now.whole) self) found.old.items)) }
    {
        match self {
            Before::Instruction => push_instruction(question, found, machine),
            Before::Status(unit) => {
                push_status(question, found, unit)?;
                Ok(())
            }
        }
    }
}

/// Walks over an interruption of a class, which stores the PSW and loads another.
pub(crate) fn push_interruption(
    question: Question,
    found: &mut Vec<Place>,
    class: Class,
) -> Result<(), AllocError>
    ensures { OnOk result (found.new.items ≡ interruption_walk question class found.old.items) }
{
    let old = Location::new(class.old_location());
    let new = Location::new(class.new_location());
    question.store_bytes(found, old, 8, &[Part::Place(Place::Psw)])?;
    question.store(found, Place::Psw, &[Part::Bytes(new, 8)])
}

/// Adds the sources of places, as what an interruption follows made what stands there.
fn push_sources_before(
    found: &mut Vec<Place>,
    machine: &Machine,
    before: Before,
    places: &[Place],
) -> Result<(), AllocError>
    ensures { OnOk result (found.new.items ≡ found.old.items
        ++ flat_map (sources_by (seen machine.now.whole) (stores_before (seen machine.now.whole) before)) places.now) }
{
    for place in places {
        let mut sources = Vec::new(*found.allocator());
        sources.push(*place)?;
        before.push(Question::Sources(*place), &mut sources, machine)?;
        found.extend_from_slice(sources.as_slice())?;
    }
    Ok(())
}

/// Walks over an interruption with what it follows. The sources of a place are followed back through both.
pub(crate) fn push_interrupted(
    question: Question,
    found: &mut Vec<Place>,
    machine: &Machine,
    before: Before,
    class: Class,
) -> Result<(), AllocError>
    ensures { OnOk result (found.new.items ≡ interrupted_walk question (seen machine.now.whole) (stores_before (seen machine.now.whole) before) class
        (with_decided question (decided_before (seen machine.now.whole) before) found.old.items)) }
{
    match question {
        Question::Deciders | Question::Stored => {
            before.push(question, found, machine)?;
            push_interruption(question, found, class)?;
            Ok(())
        }
        Question::Sources(place) => {
            let mut between = Vec::new(*found.allocator());
            between.push(place)?;
            push_interruption(question, &mut between, class)?;
            found.clear();
            push_sources_before(found, machine, before, between.as_slice())?;
            Ok(())
        }
    }
}
