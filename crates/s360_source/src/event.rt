//! An event of the machine: its deciders, the places that it stores into, and the sources of a place.
ghost use Rattle.std.specs.Prelude.{◌≡◌, IfOk, OnOk, is_some};
ghost use Rattle.s360_machine.specs.Machine.{seen};
ghost use Rattle.s360_footprint.specs.EventRows.{deciders, row_in, sources, stored};
ghost use Rattle.s360_source.specs.Answers.{is_of_unit};
ghost use Rattle.s360_source.specs.EventWalks.{IsAddressed, IsBegun};
ghost use Rattle.s360_source.specs.Footprints.{IsAtHand};
ghost use Rattle.s360_source.specs.Walks.{walked};
ghost use Rattle.s360_source.specs.declared.question.Question.TheVariants.{Stored};

use crate::channel::{push_channel_event, word_at_hand};
use crate::channel_word::ChannelWord;
use crate::cpu::push_cpu;
use crate::operator::{push_key, push_patch, push_tick};
use crate::question::Question;
use s360_machine::{ConfiguredUnit, Event, Machine};
use s360_store::Place;
use std::alloc::{AllocError, Global};
use std::marker::Model;

/// An event in the machine that meets it, of which something is asked. The machine is only read. What the word of a channel does is
/// found out once, whatever is asked of it.
#[derive(Drop)]
pub struct Footprint<'a> {
    machine: &'a Machine,
    event: &'a Event,
    word: Option<ChannelWord>,
}

impl<'a> Model for Footprint<'a> {
    ghost use Rattle.s360_machine.specs.Machine.{seen};
    ghost use Rattle.s360_source.specs.Footprints.{Footprint as EventMet, IsAtHand};

    ghost Value = { EventMet };

    ghost view = { λ f. record { machine = seen f.machine.now.whole; event = f.event.now } };

    ghost invariant = { λ f. IsAtHand (seen f.machine.now.whole) f.event.now f.word };
}

/// The word that a channel event executes, if it executes one.
fn word_of(
    alloc: Global,
    machine: &Machine,
    event: &Event,
) -> Result<Option<ChannelWord>, AllocError>
    ensures { IfOk result (λ word. IsAtHand (seen machine.now.whole) event.now word) }
{
    match event {
        Event::Channel(unit) => word_at_hand(alloc, machine, *unit),
        Event::Cpu | Event::Tick | Event::Key(_) | Event::Patch(_) => Ok(None),
    }
}

/// Whether a place is no device of a unit that the machine lacks.
fn is_of_unit(place: Place) -> bool
    ensures { result ≡ is_of_unit place }
{
    match place {
        Place::UnitMedia(unit) => ConfiguredUnit::at(unit).is_some(),
        _ => true,
    }
}

impl<'a> Footprint<'a> {
    /// That of an event in a machine. The one error is want of memory.
    pub fn new(
        alloc: Global,
        machine: &'a Machine,
        event: &'a Event,
    ) -> Result<Footprint<'a>, AllocError>
        ensures { IfOk result (λ met. met ≡ record { machine = seen machine.now.whole; event = event.now }) }
    {
        let word = word_of(alloc, machine, event)?;
        Ok(Footprint {
            machine,
            event,
            word,
        })
    }

    /// The machine that meets the event.
    pub fn machine(&self) -> &'a Machine
        ensures { seen result.now.whole ≡ self.now.machine }
    {
        self.machine
    }

    /// The event.
    pub fn event(&self) -> &'a Event
        ensures { result.now ≡ self.now.event }
    {
        self.event
    }

    /// Walks over the event.
    fn push(&self, question: Question, found: &mut Vec<Place>) -> Result<(), AllocError>
        requires begun { IsBegun question found.old.items }
        requires addressed { IsAddressed question self.now.event }
        ensures { OnOk result (found.new.items ≡ walked question (row_in self.now.machine self.now.event) self.now.machine found.old.items) }
    {
        let machine = self.machine;
        match self.event {
            Event::Cpu => push_cpu(question, found, machine)?,
            Event::Channel(unit) => push_channel_event(question, found, machine, *unit, self.word)?,
            Event::Tick => push_tick(question, found, machine)?,
            Event::Key(key) => push_key(question, found, machine, key)?,
            Event::Patch(patch) => push_patch(question, found, machine, patch)?,
        }
        Ok(())
    }

    /// The places that what stands at a place after the event was made of, as they stood before it. What comes from outside is made of
    /// nothing. A place may be found more than once, and where the event alters nothing more places may be found than that place
    /// itself. The one error is want of memory.
    pub fn sources(&self, alloc: Global, place: Place) -> Result<Vec<Place>, AllocError>
        ensures { IfOk result (λ found. found.items ≡ sources self.now.machine self.now.event place) }
    {
        let mut found = Vec::new(alloc);
        found.push(place)?;
        if !is_of_unit(place) {
            return Ok(found);
        }
        self.push(Question::Sources(place), &mut found)?;
        Ok(found)
    }

    /// The places that the shape of the event comes from: what the event does, and where, but not the values that it moves. In a
    /// machine of that size and profile that has the same at each of them the event has the same shape. What an operator does comes
    /// from outside, and so from no place. A place may be found more than once. The one error is want of memory.
    pub fn deciders(&self, alloc: Global) -> Result<Vec<Place>, AllocError>
        ensures { IfOk result (λ found. found.items ≡ deciders self.now.machine self.now.event) }
    {
        let mut found = Vec::new(alloc);
        self.push(Question::Deciders, &mut found)?;
        Ok(found)
    }

    /// The places that the event stores into, whether or not their values alter. A place may be found more than once. The one error
    /// is want of memory.
    pub fn stored(&self, alloc: Global) -> Result<Vec<Place>, AllocError>
        requires addressed { IsAddressed Stored self.now.event }
        ensures { IfOk result (λ found. found.items ≡ stored self.now.machine self.now.event) }
    {
        let mut found = Vec::new(alloc);
        self.push(Question::Stored, &mut found)?;
        Ok(found)
    }
}
