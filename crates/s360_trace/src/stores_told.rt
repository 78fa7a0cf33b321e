//! The places that an event stores into, as lines: each with its value before and after, and with what that was made of.
ghost use Rattle.std.specs.Prelude.{◌≡◌, ◌++◌, IfOk, OnOk, map};
ghost use Rattle.std.specs.List.{flat_map};
ghost use Rattle.s360_machine.specs.Machine.{seen};
ghost use Rattle.s360_language.specs.Values.{value_words};
ghost use Rattle.s360_trace.specs.StoresTold.{field, lines_of, store_line, store_met, stores_met};

use crate::field_texts::field_text;
use crate::sources_told::sources_words;
use s360_inquiry::{in_order, stored_by};
use s360_language::{push_place, push_value};
use s360_machine::{Event, Machine};
use s360_source::Footprint;
use s360_store::Place;
use s360_text::Text;
use std::alloc::{AllocError, Global};

/// A place that an event stores into, its value in the machine that meets the event, and what the value after it is made of,
/// both in words after a blank.
#[derive(Drop)]
pub(crate) struct Store {
    place: Place,
    before: Text,
    sources: Text,
}

/// A place that an event stores into.
fn store_met(alloc: Global, footprint: &Footprint<'_>, place: Place) -> Result<Store, AllocError>
    ensures { IfOk result (λ store. store ≡ store_met footprint.now.machine footprint.now.event place) }
{
    let mut before = field_text(alloc)?;
    push_value(&mut before, footprint.machine(), place)?;
    let sources = sources_words(alloc, footprint, place)?;
    Ok(Store {
        place,
        before,
        sources,
    })
}

/// An event's stores where it meets the machine, in the order of their places, each once.
#[tactic(auto, unfolding(crate::specs::StoresTold::stores_met))]
pub(crate) fn stores_met(
    alloc: Global,
    machine: &Machine,
    event: &Event,
) -> Result<Vec<Store>, AllocError>
    ensures { IfOk result (λ stores. stores.items ≡ stores_met (seen machine.now.whole) event.now) }
{
    let footprint = Footprint::new(alloc, machine, event)?;
    let stored = stored_by(alloc, &footprint)?;
    let places = in_order(alloc, stored.as_slice())?;
    let mut stores = Vec::new(alloc);
    for place in places.iter() {
        stores.push(store_met(alloc, &footprint, *place)?)?;
    }
    Ok(stores)
}

/// Adds words after a comma in place of the blank before them.
fn push_field(text: &mut Text, words: &[u8]) -> Result<(), AllocError>
    ensures { OnOk result (text.new ≡ text.old ++ field words.now) }
{
    text.push_text(",")?;
    match words {
        [_, words @ ..] => text.push_bytes(words),
        [] => Ok(()),
    }
}

/// Adds the value that a place has.
fn push_value_field(text: &mut Text, machine: &Machine, place: Place) -> Result<(), AllocError>
    ensures { OnOk result (text.new ≡ text.old ++ field (value_words (seen machine.now.whole) place)) }
{
    let mut value = field_text(text.alloc())?;
    push_value(&mut value, machine, place)?;
    push_field(text, value.as_bytes())
}

/// Adds the line of a store, behind these fields of its event, in the machine after that.
fn push_store(
    text: &mut Text,
    event: &[u8],
    machine: &Machine,
    store: &Store,
) -> Result<(), AllocError>
    ensures { OnOk result (text.new ≡ text.old ++ store_line event.now (seen machine.now.whole) store.now) }
{
    text.push_bytes(event)?;
    text.push_text(",")?;
    push_place(text, store.place)?;
    push_field(text, store.before.as_bytes())?;
    push_value_field(text, machine, store.place)?;
    push_field(text, store.sources.as_bytes())?;
    text.push_text("\n")?;
    Ok(())
}

/// Adds the lines of an event's stores, or one line if it has none.
pub(crate) fn push_lines(
    text: &mut Text,
    event: &[u8],
    machine: &Machine,
    stores: &[Store],
) -> Result<(), AllocError>
    ensures { OnOk result (text.new ≡ text.old ++ lines_of event.now (seen machine.now.whole) stores.now) }
{
    if stores.is_empty() {
        text.push_bytes(event)?;
        return text.push_text(",,,,\n");
    }
    for store in stores {
        push_store(text, event, machine, store)?;
    }
    Ok(())
}
