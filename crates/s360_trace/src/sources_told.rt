//! The places that a value was made of, as a field of a line: in their order, each once, successive bytes together.
ghost use Rattle.std.specs.Prelude.{◌≡◌, ◌++◌, IfOk, OnOk};
ghost use Rattle.std.specs.List.{flat_map};
ghost use Rattle.s360_trace.specs.SourcesTold.{blank_and_name, sources_words};

use crate::field_texts::field_text;
use s360_inquiry::{Extent, in_order, push_extent, runs_of};
use s360_source::Footprint;
use s360_store::Place;
use s360_text::Text;
use std::alloc::{AllocError, Global};

/// Adds the names of runs, each after a blank.
fn push_names(text: &mut Text, runs: &[Extent]) -> Result<(), AllocError>
    ensures { OnOk result (text.new ≡ text.old ++ flat_map blank_and_name runs.now) }
{
    for run in runs {
        push_name(text, *run)?;
    }
    Ok(())
}

/// Adds the name of a run after a blank.
fn push_name(text: &mut Text, run: Extent) -> Result<(), AllocError>
    ensures { OnOk result (text.new ≡ text.old ++ blank_and_name run) }
{
    text.push_text(" ")?;
    push_extent(text, run)
}

/// The names of the places that an event makes the value of a place of, each after a blank.
#[tactic(auto, unfolding(crate::specs::SourcesTold::sources_words))]
pub(crate) fn sources_words(
    alloc: Global,
    footprint: &Footprint<'_>,
    place: Place,
) -> Result<Text, AllocError>
    ensures { IfOk result (λ text. text ≡ sources_words footprint.now.machine footprint.now.event place) }
{
    let found = footprint.sources(alloc, place)?;
    let places = in_order(alloc, found.as_slice())?;
    let runs = runs_of(alloc, places.as_slice())?;
    let mut text = field_text(alloc)?;
    push_names(&mut text, runs.as_slice())?;
    Ok(text)
}
