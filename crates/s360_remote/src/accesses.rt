//! The bytes that an event reads or stores, for watches that wait for that. Source: gdb manual, "Setting Watchpoints".
ghost use Rattle.std.specs.Prelude.{◌≡◌, ◌++◌, not, IfOk, OnOk, flat_map};
ghost use Rattle.std.specs.List.{filter};
ghost use Rattle.s360_machine.specs.Machine.{seen};
ghost use Rattle.s360_footprint.specs.EventRows.{sources};
ghost use Rattle.s360_inquiry.specs.Stores.{stored_by};
ghost use Rattle.s360_remote.specs.Accesses.{accesses_next, accesses_of, has_place, is_accessed, is_fetched, is_within, places_read};

use s360_inquiry::{fetched_bytes, stored_by};
use s360_journal::Session;
use s360_machine::{Event, Machine};
use s360_packet::Watchpoint;
use s360_source::Footprint;
use s360_store::Place;
use std::alloc::{AllocError, Global};
use std::marker::Model;

/// The places that an event reads, but for the instruction that it fetches, and those that it stores into.
#[derive(Drop)]
pub struct Accesses {
    read: Vec<Place>,
    stored: Vec<Place>,
}

impl Model for Accesses {
    ghost use Rattle.s360_remote.specs.Accesses.{Accesses as ReadAndStored};

    ghost Value = { ReadAndStored };

    ghost view = { λ x. record { read = x.read.items; stored = x.stored.items } };
}

/// Whether a place is a byte of the instruction at an address.
fn is_within(machine: &Machine, first: u32, place: Place) -> bool
    ensures { result ≡ is_within (seen machine.now.whole) first place }
{
    match place {
        Place::Byte(at) => {
            let storage = machine.storage();
            first < storage.size()
                && first <= at
                && ((at - first) as usize) < fetched_bytes(storage, first).len()
        }
        _ => false,
    }
}

/// Whether a place is a byte of the instruction that an event fetches.
fn is_fetched(machine: &Machine, event: &Event, place: Place) -> bool
    ensures { result ≡ is_fetched (seen machine.now.whole) event.now place }
{
    match event {
        Event::Cpu => is_within(machine, machine.psw().instruction_address(), place),
        Event::Channel(_) | Event::Tick | Event::Key(_) | Event::Patch(_) => false,
    }
}

/// Adds what values are made of that an event puts at places.
fn push_sources(
    read: &mut Vec<Place>,
    footprint: &Footprint<'_>,
    places: &[Place],
) -> Result<(), AllocError>
    ensures { OnOk result (read.new.items ≡ read.old.items ++ flat_map (sources footprint.now.machine footprint.now.event) places.now) }
{
    for place in places {
        let sources = footprint.sources(*read.allocator(), *place)?;
        read.extend_from_slice(sources.as_slice())?;
    }
    Ok(())
}

/// The places that an event reads, which stores into these.
fn places_read(
    alloc: Global,
    footprint: &Footprint<'_>,
    stored: &[Place],
) -> Result<Vec<Place>, AllocError>
    requires { stored.now ≡ stored_by footprint.now.machine footprint.now.event }
    ensures { IfOk result (λ read. read.items ≡ places_read footprint.now.machine footprint.now.event) }
{
    let mut read = footprint.deciders(alloc)?;
    push_sources(&mut read, footprint, stored)?;
    read.retain(|place| !is_fetched(footprint.machine(), footprint.event(), *place));
    Ok(read)
}

impl Accesses {
    /// Those of the next event of the record. The one error is want of memory.
    #[tactic(auto, unfolding(crate::specs::Accesses::accesses_of))]
    pub(crate) fn next(alloc: Global, session: &Session) -> Result<Accesses, AllocError>
        ensures { IfOk result (λ x. x ≡ accesses_next session.now) }
    {
        let event = session.next_event()?;
        let footprint = Footprint::new(alloc, session.machine(), &event)?;
        let stored = stored_by(alloc, &footprint)?;
        let read = places_read(alloc, &footprint, stored.as_slice())?;
        Ok(Accesses { read, stored })
    }

    /// Whether a byte is accessed as a watch waits for. A watch that waits for writes is met by what they alter.
    pub(crate) fn has(&self, watchpoint: Watchpoint, at: u32) -> bool
        ensures { result ≡ is_accessed self.now watchpoint at }
    {
        match watchpoint {
            Watchpoint::Write => false,
            Watchpoint::Read => has_place(self.read.as_slice(), at),
            Watchpoint::Access => {
                has_place(self.read.as_slice(), at) || has_place(self.stored.as_slice(), at)
            }
        }
    }
}

/// Whether a byte is one of some places.
fn has_place(places: &[Place], at: u32) -> bool
    ensures { result ≡ has_place places.now at }
{
    places.iter().any(|place| place.is(Place::Byte(at)))
}
