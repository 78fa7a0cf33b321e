//! How many changes altered places.
ghost use Rattle.std.specs.Prelude.{◌≡◌, [], IfOk, OnOk, flat_map};
ghost use Rattle.s360_inquiry.specs.Counts.{count_of_changes, count_text, numbers_of, with_numbers};
ghost use Rattle.s360_inquiry.specs.Extents.{places_of_extent};

use crate::extent::{Extent, places_of};
use s360_journal::Session;
use s360_text::Text;
use std::alloc::{AllocError, Global};
use std::collections::BTreeSet;

/// Adds numbers, each once.
fn insert_each(numbers: &mut BTreeSet<u32>, more: &[u32]) -> Result<(), AllocError>
    ensures { OnOk result (numbers.new.keys ≡ with_numbers numbers.old.keys more.now) }
{
    for number in more {
        numbers.insert(*number)?;
    }
    Ok(())
}

/// The numbers of the changes of an extent, each once.
fn numbers_of(
    alloc: Global,
    recording: &Session,
    extent: Extent,
) -> Result<BTreeSet<u32>, AllocError>
    ensures { IfOk result (λ numbers. numbers.keys ≡ with_numbers [] (flat_map (numbers_of recording.now) (places_of_extent extent))) }
{
    let mut numbers = BTreeSet::new(alloc);
    for place in places_of(alloc, extent)?.iter() {
        insert_each(&mut numbers, recording.changes_of(*place))?;
    }
    Ok(numbers)
}

/// How many changes altered an extent.
fn count_of_changes(alloc: Global, recording: &Session, extent: Extent) -> Result<usize, AllocError>
    ensures { IfOk result (λ count. count ≡ count_of_changes recording.now extent) }
{
    match extent {
        Extent::Place(place) => Ok(recording.changes_of(place).len()),
        extent => Ok(numbers_of(alloc, recording, extent)?.len()),
    }
}

/// Tells how many changes altered an extent.
pub(crate) fn answer_count(
    alloc: Global,
    recording: &Session,
    extent: Extent,
) -> Result<Text, AllocError>
    ensures { IfOk result (λ text. text ≡ count_text recording.now extent) }
{
    let count = count_of_changes(alloc, recording, extent)?;
    let mut text = Text::new(alloc);
    text.push_counted("changes ", count as u64)?;
    text.push_text("\n")?;
    Ok(text)
}
