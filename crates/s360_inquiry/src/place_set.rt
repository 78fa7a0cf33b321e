//! Places in their order, each once: those that an event makes an extent of, and those that decide the event.
ghost use Rattle.std.specs.Prelude.{◌≡◌, [], IfOk, OnOk};
ghost use Rattle.s360_machine.specs.Machine.{seen};
ghost use Rattle.s360_inquiry.specs.Causes.{places_before, places_deciding, with_places};

use crate::extent::{Extent, places_of};
use s360_machine::{Event, Machine};
use s360_source::Footprint;
use s360_store::Place;
use std::alloc::{AllocError, Global};
use std::collections::BTreeSet;

/// The places that an event makes those of an extent of, each once.
#[tactic(auto, unfolding(crate::specs::Causes::places_before))]
pub(crate) fn places_before(
    alloc: Global,
    machine: &Machine,
    event: &Event,
    extent: Extent,
) -> Result<Vec<Place>, AllocError>
    ensures { IfOk result (λ places. places.items ≡ places_before (seen machine.now.whole) event.now extent) }
{
    let mut places = BTreeSet::new(alloc);
    let footprint = Footprint::new(alloc, machine, event)?;
    for place in places_of(alloc, extent)?.iter() {
        let sources = footprint.sources(alloc, *place)?;
        insert_each(&mut places, sources.as_slice())?;
    }
    list_of(alloc, &places)
}

/// The places that an event is decided by, each once.
#[tactic(auto, unfolding(crate::specs::Causes::places_deciding))]
pub(crate) fn places_deciding(
    alloc: Global,
    machine: &Machine,
    event: &Event,
) -> Result<Vec<Place>, AllocError>
    ensures { IfOk result (λ places. places.items ≡ places_deciding (seen machine.now.whole) event.now) }
{
    let deciders = Footprint::new(alloc, machine, event)?.deciders(alloc)?;
    in_order(alloc, deciders.as_slice())
}

/// Places in their order, each once. The one error is want of memory.
pub fn in_order(alloc: Global, places: &[Place]) -> Result<Vec<Place>, AllocError>
    ensures { IfOk result (λ ordered. ordered.items ≡ with_places [] places.now) }
{
    let mut set = BTreeSet::new(alloc);
    insert_each(&mut set, places)?;
    list_of(alloc, &set)
}

/// Adds places, each once.
pub(crate) fn insert_each(places: &mut BTreeSet<Place>, more: &[Place]) -> Result<(), AllocError>
    ensures { OnOk result (places.new.keys ≡ with_places places.old.keys more.now) }
{
    for place in more {
        places.insert(*place)?;
    }
    Ok(())
}

/// Places as a list.
pub(crate) fn list_of(alloc: Global, places: &BTreeSet<Place>) -> Result<Vec<Place>, AllocError>
    ensures { IfOk result (λ list. list.items ≡ places.now.keys) }
{
    places.iter().copied().collect(alloc)
}
