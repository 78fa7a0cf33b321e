//! A tick of the timer, a key of the operator, and a patch. Source: GA22-6821, "System Structure", interval timer, and "System
//! Control Panel".
ghost use Rattle.std.specs.Prelude.{◌≡◌, ◌<◌, ◌^◌, Option, [], OnOk};
ghost use Rattle.s360_machine.specs.declared.{event.Event.Event, run_state.RunState.RunState};
ghost use Rattle.s360_machine.specs.Machine.{Machine as Machines, seen};
ghost use Rattle.s360_footprint.specs.OperandReadings.{profile_of};
ghost use Rattle.s360_footprint.specs.OperatorRows.{key_stores, patch_stores, reset_stores};
ghost use Rattle.s360_footprint.specs.TimerRows.{tick_row};
ghost use Rattle.s360_source.specs.EventWalks.{AreAddressed, IsAddressed};
ghost use Rattle.s360_source.specs.Walks.{walked, with_bytes, with_stores_of};

use crate::location::Location;
use crate::part::Part;
use crate::question::Question;
use s360_machine::{ConfiguredUnit, Key, Machine, Patch};
use s360_store::{BLOCK_SIZE, Place};
use std::alloc::AllocError;

/// The address of the timer.
const TIMER: u32 = 80;

/// Walks over a tick.
pub(crate) fn push_tick(
    question: Question,
    found: &mut Vec<Place>,
    machine: &Machine,
) -> Result<(), AllocError>
    ensures { OnOk result (found.new.items ≡ walked question tick_row (seen machine.now.whole) found.old.items) }
{
    question.decide(found, &[Part::Place(Place::Run)])?;
    if !machine.run().is_operating() {
        return Ok(());
    }
    let timer = Location::new(TIMER);
    question.store_bytes(found, timer, 4, &[Part::Bytes(timer, 4)])?;
    let parts = [Part::Place(Place::External), Part::Bytes(timer, 4)];
    question.store(found, Place::External, &parts)?;
    Ok(())
}

/// Walks over a reset, of which nothing is made of what stood there.
fn push_reset(question: Question, found: &mut Vec<Place>) -> Result<(), AllocError>
    ensures { (m : Machines) → (r : RunState) → (loading : Option ConfiguredUnit) → OnOk result (found.new.items ≡ with_stores_of question m
        (reset_stores r loading) found.old.items) }
{
    let places = [
        Place::Run,
        Place::External,
        Place::UnitState(ConfiguredUnit::Reader.unit()),
        Place::UnitState(ConfiguredUnit::Punch.unit()),
        Place::UnitState(ConfiguredUnit::Printer.unit()),
        Place::UnitState(ConfiguredUnit::Console.unit()),
        Place::UnitState(ConfiguredUnit::Tape0.unit()),
        Place::UnitState(ConfiguredUnit::Tape1.unit()),
    ];
    question.store_each(found, &places, &[])
}

/// Walks over a key. What else it alters is made of itself and of what comes from outside.
pub(crate) fn push_key(
    question: Question,
    found: &mut Vec<Place>,
    machine: &Machine,
    key: &Key,
) -> Result<(), AllocError>
    ensures { OnOk result (found.new.items ≡ with_stores_of question (seen machine.now.whole) (key_stores key.now) found.old.items) }
{
    match key {
        Key::Reset | Key::Load(_) => {
            push_reset(question, found)?;
            Ok(())
        }
        Key::Start | Key::Stop => question.store_itself(found, Place::Run),
        Key::Interrupt => question.store_itself(found, Place::External),
        Key::EndOfFile => {
            question.store_itself(found, Place::UnitMedia(ConfiguredUnit::Reader.unit()))
        }
        Key::Request => {
            question.store_itself(found, Place::UnitState(ConfiguredUnit::Console.unit()))
        }
        Key::Enter(_) => {
            question.store_itself(found, Place::UnitMedia(ConfiguredUnit::Console.unit()))
        }
    }
}

/// Walks over stores into so many bytes that come from outside.
fn push_outside(
    question: Question,
    found: &mut Vec<Place>,
    at: u32,
    count: usize,
) -> Result<(), AllocError>
    requires addressed { AreAddressed question at count }
    requires few { count < 2 ^ 63 }
    ensures { OnOk result (found.new.items ≡ with_bytes question at count [] found.old.items) }
{
    for i in 0..count {
        if let Ok(address) = u32::try_from(u64::from(at) + i as u64) {
            question.store(found, Place::Byte(address), &[])?;
        }
    }
    Ok(())
}

/// Walks over a patch.
pub(crate) fn push_patch(
    question: Question,
    found: &mut Vec<Place>,
    machine: &Machine,
    patch: &Patch,
) -> Result<(), AllocError>
    requires { IsAddressed question (Event.Patch patch.now) }
    ensures { OnOk result (found.new.items ≡ with_stores_of question (seen machine.now.whole)
        (patch_stores (profile_of machine.now.whole.core) patch.now) found.old.items) }
{
    match patch {
        Patch::Bytes { at, bytes } => {
            push_outside(question, found, *at, bytes.as_slice().len())?;
            Ok(())
        }
        Patch::Register(register, _) => {
            question.store(found, Place::Register(register.number()), &[])
        }
        Patch::StorageKey { at, .. } => question.store_itself(found, Place::Key(*at / BLOCK_SIZE)),
        Patch::FetchBit { at, .. } if machine.storage().fetch_protection() => {
            question.store_itself(found, Place::Key(*at / BLOCK_SIZE))
        }
        Patch::FetchBit { .. } => Ok(()),
        Patch::Psw(_) => question.store(found, Place::Psw, &[]),
    }
}
