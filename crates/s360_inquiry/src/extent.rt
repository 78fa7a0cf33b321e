//! Places that are told together: successive bytes, or a place alone.
ghost use Rattle.std.specs.Prelude.{◌≡◌, ◌+◌, ◌-◌, ◌++◌, IfOk, OnOk, reverse};
ghost use Rattle.s360_store.specs.Spans.{byte_places};
ghost use Rattle.s360_machine.specs.Machine.{seen};
ghost use Rattle.s360_inquiry.specs.Extents.{extent_name, extent_of, extent_with, extent_words, first_place, is_in, last_place};
ghost use Rattle.s360_inquiry.specs.Extents.{places_of_extent, run_words_of, runs_of, same_extent, with_run};

use s360_language::{push_digits, push_place, push_value};
use s360_machine::Machine;
use s360_store::{Place, Storage};
use s360_text::Text;
use std::alloc::{AllocError, Global};

/// So many bytes of a run are shown.
const BYTES_SHOWN: u64 = 16;

/// Places that are told together.
#[derive(Clone, Copy, PartialEq, Eq)]
pub enum Extent {
    /// The bytes of storage from one address to another.
    Bytes { first: u32, last: u32 },
    /// A place that is no byte.
    Place(Place),
}

impl Extent {
    /// The extent of a place alone.
    pub fn of(place: Place) -> Extent
        ensures { result ≡ extent_of place }
    {
        match place {
            Place::Byte(at) => Extent::Bytes {
                first: at,
                last: at,
            },
            place => Extent::Place(place),
        }
    }

    /// Whether both are one.
    pub(crate) fn is(self, other: Extent) -> bool
        ensures { result ≡ same_extent self other }
    {
        match (self, other) {
            (
                Extent::Bytes { first, last },
                Extent::Bytes {
                    first: begin,
                    last: end,
                },
            ) => first == begin && last == end,
            (Extent::Place(one), Extent::Place(other)) => one.is(other),
            _ => false,
        }
    }

    /// Whether a place is one of it.
    pub(crate) fn has(self, place: Place) -> bool
        ensures { result ≡ is_in self place }
    {
        match (self, place) {
            (Extent::Bytes { first, last }, Place::Byte(at)) => first <= at && at <= last,
            (Extent::Place(one), place) => one.is(place),
            _ => false,
        }
    }

    /// Its first place.
    pub(crate) fn first(self) -> Place
        ensures { result ≡ first_place self }
    {
        match self {
            Extent::Bytes { first, .. } => Place::Byte(first),
            Extent::Place(place) => place,
        }
    }

    /// Its last place.
    pub(crate) fn last(self) -> Place
        ensures { result ≡ last_place self }
    {
        match self {
            Extent::Bytes { last, .. } => Place::Byte(last),
            Extent::Place(place) => place,
        }
    }
}

/// The places of an extent.
pub(crate) fn places_of(alloc: Global, extent: Extent) -> Result<Vec<Place>, AllocError>
    ensures { IfOk result (λ places. places.items ≡ places_of_extent extent) }
{
    let mut places = Vec::new(alloc);
    match extent {
        Extent::Bytes { first, last } => push_bytes(&mut places, first, last)?,
        Extent::Place(place) => places.push(place)?,
    }
    Ok(places)
}

/// Adds the bytes from one address to another.
fn push_bytes(places: &mut Vec<Place>, first: u32, last: u32) -> Result<(), AllocError>
    ensures { OnOk result (places.new.items ≡ places.old.items ++ byte_places first (last + 1 - first)) }
{
    let count = (u64::from(last) + 1).saturating_sub(u64::from(first));
    for index in 0..count {
        let at = u64::from(first) + index;
        places.push(Place::Byte(at as u32))?;
    }
    Ok(())
}

/// A byte together with the run that begins behind it.
pub(crate) fn extent_with(place: Place, next: Extent) -> Option<Extent>
    ensures { result ≡ extent_with place next }
{
    match (place, next) {
        (Place::Byte(at), Extent::Bytes { first, last }) if at.checked_add(1) == Some(first) => {
            Some(Extent::Bytes { first: at, last })
        }
        _ => None,
    }
}

/// Puts a place before runs, which are listed from the last one on.
fn put_before(runs: &mut Vec<Extent>, place: Place) -> Result<(), AllocError>
    ensures { OnOk result (reverse runs.new.items ≡ with_run place (reverse runs.old.items)) }
{
    let Some(next) = runs.pop() else {
        runs.push(Extent::of(place))?;
        return Ok(());
    };
    match extent_with(place, next) {
        Some(run) => runs.push(run)?,
        None => {
            runs.push(next)?;
            runs.push(Extent::of(place))?;
        }
    }
    Ok(())
}

/// Places as extents, in their order: successive bytes are one. The one error is want of memory.
pub fn runs_of(alloc: Global, places: &[Place]) -> Result<Vec<Extent>, AllocError>
    ensures { IfOk result (λ runs. runs.items ≡ runs_of places.now) }
{
    let mut runs = Vec::new(alloc);
    for index in (0..places.len()).rev() {
        put_before(&mut runs, places[index])?;
    }
    runs.reverse();
    Ok(runs)
}

/// Adds the name of an extent: of several bytes the first address and the last.
pub fn push_extent(text: &mut Text, extent: Extent) -> Result<(), AllocError>
    ensures { OnOk result (text.new ≡ text.old ++ extent_name extent) }
{
    push_place(text, extent.first())?;
    if let Extent::Bytes { first, last } = extent {
        if first < last {
            text.push_text("-")?;
            text.push_hex(u64::from(last), 6)?;
        }
    }
    Ok(())
}

/// Adds the value of an extent after a blank: of several bytes the first sixteen; nothing of places that the machine lacks.
pub(crate) fn push_words(
    text: &mut Text,
    machine: &Machine,
    extent: Extent,
) -> Result<(), AllocError>
    ensures { OnOk result (text.new ≡ text.old ++ extent_words (seen machine.now.whole) extent) }
{
    match extent {
        Extent::Bytes { first, last } => push_run(text, machine.storage(), first, last),
        Extent::Place(place) => push_value(text, machine, place),
    }
}

/// Adds the first sixteen of the bytes from one address to another, after a blank.
fn push_run(text: &mut Text, storage: &Storage, first: u32, last: u32) -> Result<(), AllocError>
    ensures { OnOk result (text.new ≡ text.old ++ run_words_of storage.now first last) }
{
    if first >= storage.size() {
        return Ok(());
    }
    let shown = u64::from(first) + BYTES_SHOWN;
    let end = (u64::from(last) + 1)
        .min(shown)
        .min(u64::from(storage.size())) as u32;
    text.push_text(" ")?;
    push_digits(text, storage.bytes(first, end.saturating_sub(first)))?;
    if shown < u64::from(last) + 1 {
        text.push_text("..")?;
    }
    Ok(())
}
