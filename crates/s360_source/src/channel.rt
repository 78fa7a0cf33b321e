//! A channel event of a unit. Source: GA22-6821, "Input/Output Operations", execution of input/output operations.
ghost use Rattle.std.specs.Prelude.{◌≡◌, IfOk, OnOk, Some};
ghost use Rattle.s360_channel.specs.ConfiguredUnits.{control_of, unit_at};
ghost use Rattle.s360_channel.specs.declared.unit_state.UnitState.TheVariants.{Active};
ghost use Rattle.s360_machine.specs.Machine.{seen};
ghost use Rattle.s360_footprint.specs.LoadingRows.{channel_event_row, channel_row};
ghost use Rattle.s360_footprint.specs.OperandReadings.{profile_of};
ghost use Rattle.s360_source.specs.Channels.{channel_walk, device_stores, word_sources, word_stores, word_walk};
ghost use Rattle.s360_source.specs.Footprints.{IsWordIn, IsWordOf};
ghost use Rattle.s360_source.specs.Parts.{places_of_parts};
ghost use Rattle.s360_source.specs.Walks.{walked};

use crate::channel_word::{ChannelWord, executed_at, words_of};
use crate::loading::push_end_of_loading;
use crate::location::Location;
use crate::part::Part;
use crate::question::Question;
use s360_channel::{Program, UnitState};
use s360_machine::{ConfiguredUnit, Machine};
use s360_store::Place;
use s360_word::Unit;
use std::alloc::{AllocError, Global};

impl ChannelWord {
    /// What it makes is made of these.
    fn sources(&self) -> [Part; 3]
        ensures { places_of_parts result ≡ word_sources self.now }
    {
        [
            Part::state(self.unit),
            Part::media(self.unit),
            self.moved.fetched,
        ]
    }

    /// Follows the store of the device, if its command ends there.
    fn store_device(&self, question: Question, found: &mut Vec<Place>) -> Result<(), AllocError>
        ensures { OnOk result (found.new.items ≡ device_stores question self.now found.old.items) }
    {
        if !self.moved.ends {
            return Ok(());
        }
        let [state, media, fetched] = self.sources();
        let sources = [Part::media(self.unit), state, media, fetched];
        question.store(found, Place::UnitMedia(self.unit.unit()), &sources)
    }

    /// Follows its stores: the bytes of an input, the device, and how the unit stands, for which the words are looked at again.
    fn store(&self, question: Question, found: &mut Vec<Place>) -> Result<(), AllocError>
        ensures { OnOk result (found.new.items ≡ word_stores question self.now found.old.items) }
    {
        let stored = self.moved.stored;
        let sources = self.sources();
        question.store_bytes(found, stored.address, stored.count, &sources)?;
        self.store_device(question, found)?;
        let (word, target) = (self.word, self.target);
        let [state, media, fetched] = sources;
        let before = Part::state(self.unit);
        let sources = [before, word, target, state, media, fetched];
        question.store(found, Place::UnitState(self.unit.unit()), &sources)
    }

    /// Walks over it, and over the address of its unit that is stored if it ends loading.
    pub(crate) fn push(&self, question: Question, found: &mut Vec<Place>) -> Result<(), AllocError>
        ensures { OnOk result (found.new.items ≡ word_walk question self.now found.old.items) }
    {
        let (word, target, keys) = (self.word, self.target, self.moved.keys);
        let state = Part::state(self.unit);
        let (before, after) = (Part::media(self.unit), Part::media(self.unit));
        question.decide(found, &[word, target, before, keys, state, after])?;
        self.store(question, found)?;
        question.decide(found, &[Part::Place(Place::Run)])?;
        let count = if self.loads { 2 } else { 0 };
        question.store_bytes(found, Location::new(2), count, &[])
    }
}

/// What the channel does for a unit.
pub(crate) fn state_of(machine: &Machine, unit: ConfiguredUnit) -> &UnitState
    ensures { result.now ≡ (control_of machine.now.whole.units unit).state }
{
    match machine.unit(unit.unit()) {
        Some(state) => state,
        None => unreachable!(),
    }
}

/// Walks over a word, and over the end of loading if it ends that.
fn push_word(
    question: Question,
    found: &mut Vec<Place>,
    word: &ChannelWord,
) -> Result<(), AllocError>
    ensures { OnOk result (found.new.items ≡ channel_walk question word.now found.old.items) }
{
    word.push(question, found)?;
    if word.loads {
        push_end_of_loading(question, found, word)?;
    }
    Ok(())
}

/// The word with which a unit's program goes on.
fn channel_word(
    alloc: Global,
    machine: &Machine,
    unit: ConfiguredUnit,
    program: &Program,
) -> Result<ChannelWord, AllocError>
    requires active { (control_of machine.now.whole.units unit).state ≡ Active program.now }
    ensures { IfOk result (λ word. IsWordIn (seen machine.now.whole) unit (Active program.now) (Some word)) }
{
    let (moved, loads) = executed_at(alloc, machine, unit, program)?;
    let (word, target) = words_of(machine, program);
    Ok(ChannelWord {
        unit,
        word,
        target,
        moved,
        loads,
    })
}

/// The word that a channel event of the unit at an address executes, if there is such a unit and it executes a program.
pub(crate) fn word_at_hand(
    alloc: Global,
    machine: &Machine,
    unit: Unit,
) -> Result<Option<ChannelWord>, AllocError>
    ensures { IfOk result (λ word. IsWordOf (seen machine.now.whole) (unit_at unit.0) word) }
{
    let Some(unit) = ConfiguredUnit::at(unit) else {
        return Ok(None);
    };
    match state_of(machine, unit) {
        UnitState::Active(program) => Ok(Some(channel_word(alloc, machine, unit, program)?)),
        UnitState::Idle | UnitState::Waiting(_) => Ok(None),
    }
}

/// Walks over a channel event of a unit, which executes the word at hand if the unit executes a program.
fn push_unit_event(
    question: Question,
    found: &mut Vec<Place>,
    machine: &Machine,
    unit: ConfiguredUnit,
    word: Option<ChannelWord>,
) -> Result<(), AllocError>
    requires word { IsWordIn (seen machine.now.whole) unit (control_of machine.now.whole.units unit).state word }
    ensures { OnOk result (found.new.items ≡ walked question (channel_row (profile_of machine.now.whole.core) unit) (seen machine.now.whole) found.old.items) }
{
    question.decide(found, &[Part::state(unit)])?;
    match (state_of(machine, unit), word) {
        (UnitState::Active(_), Some(word)) => {
            push_word(question, found, &word)?;
            Ok(())
        }
        (UnitState::Active(_), None) => unreachable!(),
        (UnitState::Idle | UnitState::Waiting(_), _) => Ok(()),
    }
}

/// Walks over a channel event of the unit at an address, with the word at hand. Nothing happens if there is none.
pub(crate) fn push_channel_event(
    question: Question,
    found: &mut Vec<Place>,
    machine: &Machine,
    unit: Unit,
    word: Option<ChannelWord>,
) -> Result<(), AllocError>
    requires word { IsWordOf (seen machine.now.whole) (unit_at unit.0) word }
    ensures { OnOk result (found.new.items ≡ walked question (channel_event_row (profile_of machine.now.whole.core) unit)
        (seen machine.now.whole) found.old.items) }
{
    match ConfiguredUnit::at(unit) {
        Some(unit) => {
            push_unit_event(question, found, machine, unit, word)?;
            Ok(())
        }
        None => Ok(()),
    }
}
