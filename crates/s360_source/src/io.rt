//! An input/output instruction. Source: GA22-6821, "Input/Output Operations", START I/O, TEST I/O, HALT I/O and TEST CHANNEL.
ghost use Rattle.std.specs.Prelude.{◌≡◌, ◌++◌, OnOk, is_some};
ghost use Rattle.s360_model.specs.Storage.{word_at};
ghost use Rattle.s360_channel.specs.{IoInstructions.caw_location, Words.caw_of};
ghost use Rattle.s360_channel.specs.ConfiguredUnits.{active_beside, control_of};
ghost use Rattle.s360_machine.specs.Machine.{Machine as Machines, seen};
ghost use Rattle.s360_footprint.specs.InstructionRows.{InstructionEnd};
ghost use Rattle.s360_footprint.specs.IoRows.{csw_stores, halt_read, io_result_read, io_row, of_unit, start_read, start_with_read};
ghost use Rattle.s360_footprint.specs.IoRows.{unit_and_address_word, unit_stores};
ghost use Rattle.s360_footprint.specs.OperandReadings.{profile_of};
ghost use Rattle.s360_footprint.specs.Readings.{places_read};
ghost use Rattle.s360_source.specs.EventWalks.{is_unavailable, other_tape, state_places, units_named};
ghost use Rattle.s360_source.specs.Parts.{places_of_part};
ghost use Rattle.s360_source.specs.Walks.{walked, with_decided, with_stores_of};

use crate::channel::state_of;
use crate::channel_word::words_of;
use crate::interruption::CSW;
use crate::location::Location;
use crate::part::Part;
use crate::question::Question;
use s360_channel::{Caw, CswStore, Program, Progress, UnitAfter, UnitState};
use s360_fixed::IoOperation;
use s360_machine::{ConfiguredUnit, Machine};
use s360_store::{LEAST_SIZE, Place};
use s360_word::Unit;
use std::alloc::AllocError;

/// The address of bits 32 to 47 of the channel status word.
const STATUS: u32 = 68;

/// The address of the channel address word.
const CAW: u32 = 72;

/// The selector channel.
const SELECTOR: u16 = 1;

/// The other tape.
fn other_tape(unit: ConfiguredUnit) -> Option<ConfiguredUnit>
    ensures { result ≡ other_tape unit }
{
    match unit {
        ConfiguredUnit::Tape0 => Some(ConfiguredUnit::Tape1),
        ConfiguredUnit::Tape1 => Some(ConfiguredUnit::Tape0),
        _ => None,
    }
}

/// The other tape, if it is active.
fn active_beside(machine: &Machine, unit: ConfiguredUnit) -> Option<ConfiguredUnit>
    ensures { result ≡ active_beside machine.now.whole.units unit }
{
    let other = other_tape(unit)?;
    if state_of(machine, other).is_active() {
        Some(other)
    } else {
        None
    }
}

/// Walks over how a unit stands, if there is one.
fn push_state(
    question: Question,
    found: &mut Vec<Place>,
    unit: Option<ConfiguredUnit>,
) -> Result<(), AllocError>
    ensures { OnOk result (found.new.items ≡ with_decided question (state_places unit) found.old.items) }
{
    match unit {
        Some(unit) => question.decide(found, &[Part::state(unit)]),
        None => question.decide(found, &[]),
    }
}

/// Walks over the unit that an instruction names, if there is one, and the other tape.
fn push_units(
    question: Question,
    found: &mut Vec<Place>,
    unit: Option<ConfiguredUnit>,
) -> Result<(), AllocError>
    ensures { OnOk result (found.new.items ≡ with_decided question (units_named unit) found.old.items) }
{
    match unit {
        Some(unit) => {
            push_state(question, found, Some(unit))?;
            push_state(question, found, other_tape(unit))
        }
        None => push_state(question, found, None),
    }
}

/// The words that START I/O looks at after the channel address word: the first of the program, if that can begin.
fn first_words(machine: &Machine) -> (Part, Part)
    ensures { (u : ConfiguredUnit) → places_of_part result.0 ++ places_of_part result.1 ≡ places_read (start_with_read (profile_of machine.now.whole.core) u
        (caw_of (word_at machine.now.whole.core.storage.bytes caw_location))) (seen machine.now.whole) }
{
    let storage = machine.storage();
    // So the permanent locations are inside storage.
    prove!(storage.size() >= LEAST_SIZE);
    let caw = Caw::from_word(storage.word(CAW));
    if !caw.is_whole() {
        return (Part::none(), Part::none());
    }
    let program = Program {
        key: caw.key,
        address: caw.address,
        progress: Progress::First,
    };
    words_of(machine, &program)
}

/// Whether a unit, or its channel, has something to do or to tell.
fn is_unavailable(machine: &Machine, unit: ConfiguredUnit) -> bool
    ensures { result ≡ is_unavailable (active_beside machine.now.whole.units unit) (control_of machine.now.whole.units unit) }
{
    let state = state_of(machine, unit);
    state.is_active()
        || state.is_waiting()
        || active_beside(machine, unit).is_some()
        || machine.attention(unit.unit())
}

/// Walks over what START I/O looks at: the channel address word and the first word of the program, if the unit is available.
fn push_start(
    question: Question,
    found: &mut Vec<Place>,
    machine: &Machine,
    unit: Option<ConfiguredUnit>,
) -> Result<(), AllocError>
    ensures { OnOk result (found.new.items ≡ with_decided question (places_read
        (of_unit (λ u c other. start_read (profile_of machine.now.whole.core) (is_some other) u c) unit) (seen machine.now.whole)) found.old.items) }
{
    push_units(question, found, unit)?;
    match unit {
        Some(unit) => {
            if is_unavailable(machine, unit) {
                return Ok(());
            }
            let (word, target) = first_words(machine);
            let address_word = Part::Bytes(Location::new(CAW), 4);
            question.decide(found, &[address_word, word, target])?;
            Ok(())
        }
        None => Ok(()),
    }
}

/// Walks over what HALT I/O looks at: the other tape again, if it is active and the unit is not.
fn push_halt(
    question: Question,
    found: &mut Vec<Place>,
    machine: &Machine,
    unit: Option<ConfiguredUnit>,
) -> Result<(), AllocError>
    ensures { OnOk result (found.new.items ≡ with_decided question (places_read (of_unit halt_read unit) (seen machine.now.whole)) found.old.items) }
{
    push_units(question, found, unit)?;
    match unit {
        Some(unit) => {
            if state_of(machine, unit).is_active() {
                return Ok(());
            }
            push_state(question, found, active_beside(machine, unit))
        }
        None => Ok(()),
    }
}

/// Walks over what the channels look at for an instruction.
fn push_io_deciders(
    question: Question,
    found: &mut Vec<Place>,
    machine: &Machine,
    operation: IoOperation,
    unit: Unit,
) -> Result<(), AllocError>
    ensures { OnOk result (found.new.items ≡ with_decided question
        (places_read (io_result_read (profile_of machine.now.whole.core) operation unit) (seen machine.now.whole)) found.old.items) }
{
    let named = ConfiguredUnit::at(unit);
    match operation {
        IoOperation::Start => push_start(question, found, machine, named),
        IoOperation::Test => push_units(question, found, named),
        IoOperation::Halt => push_halt(question, found, machine, named),
        IoOperation::TestChannel if unit.address() / 0x100 == SELECTOR => {
            push_units(question, found, Some(ConfiguredUnit::Tape0))
        }
        IoOperation::TestChannel => Ok(()),
    }
}

/// Walks over what is stored of the channel status word, made of how the unit stands, and of the channel address word.
fn push_csw(
    question: Question,
    found: &mut Vec<Place>,
    stores: &CswStore,
    unit: Unit,
) -> Result<(), AllocError>
    ensures { (m : Machines) → OnOk result (found.new.items ≡ with_stores_of question m (csw_stores stores.now (unit_and_address_word unit)) found.old.items) }
{
    let address_word = Part::Bytes(Location::new(CAW), 4);
    let parts = [Part::Place(Place::UnitState(unit)), address_word];
    match stores {
        CswStore::Nothing => Ok(()),
        CswStore::Status(..) => question.store_bytes(found, Location::new(STATUS), 2, &parts),
        CswStore::Csw(_) => question.store_bytes(found, Location::new(CSW), 8, &parts),
    }
}

/// Walks over the unit that does not stay as it is, if there is one.
fn push_unit_after(
    question: Question,
    found: &mut Vec<Place>,
    after: &Option<UnitAfter>,
) -> Result<(), AllocError>
    ensures { (m : Machines) → OnOk result (found.new.items ≡ with_stores_of question m (unit_stores after.now) found.old.items) }
{
    match after {
        Some(after) => question.store_itself(found, Place::UnitState(after.unit.unit())),
        None => Ok(()),
    }
}

/// Walks over an instruction that the channels do, by the address of the unit that it names.
pub(crate) fn push_io(
    question: Question,
    found: &mut Vec<Place>,
    machine: &Machine,
    operation: IoOperation,
    unit: Unit,
) -> Result<(), AllocError>
    ensures { (e : InstructionEnd) → OnOk result (found.new.items ≡ walked question (io_row (profile_of machine.now.whole.core) operation unit e)
        (seen machine.now.whole) found.old.items) }
{
    push_io_deciders(question, found, machine, operation, unit)?;
    let done = machine.io_result(operation, unit);
    push_csw(question, found, &done.stores, unit)?;
    question.store_psw(found, &[])?;
    push_unit_after(question, found, &done.unit)?;
    Ok(())
}
