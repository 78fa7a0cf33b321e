//! Spans of places, by which many are named without a list of each.
ghost use Rattle.std.specs.Prelude.{◌≡◌, ◌<◌, length, slice_get, Some};
ghost use Rattle.s360_store.specs.Spans.{IsSpan, places_of_span};

use crate::place::Place;

/// Places that follow each other: one, or those of successive bytes of storage.
#[derive(Clone, Copy)]
pub enum Span {
    /// A place.
    Place(Place),
    /// The places of so many bytes from an address on, at least one.
    Bytes { address: u32, count: u32 },
}

impl Default for Span {
    fn default() -> Span {
        Span::Place(Place::default())
    }
}

impl Span {
    /// The number of places.
    pub fn len(self) -> u32
        ensures { result ≡ length (places_of_span self) }
    {
        match self {
            Span::Place(_) => 1,
            Span::Bytes { count, .. } => count,
        }
    }

    /// The place at `i`, counted from 0.
    pub fn place(self, i: u32) -> Place
        requires span { IsSpan self }
        requires inside { i < length (places_of_span self) }
        ensures { slice_get (places_of_span self) i ≡ Some result }
    {
        match self {
            Span::Place(place) => place,
            Span::Bytes { address, .. } => Place::Byte(address + i),
        }
    }
}
