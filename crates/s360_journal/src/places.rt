//! The places of a report.
//!
//! They stand as spans, so that a report of many bytes in one run is as short as that of one. Two
//! spans stand within the value, so that the report of a plain instruction takes no memory.
ghost use Rattle.std.specs.Prelude.{◌≡◌, ◌≢◌, ◌↔◌, [], ◌-◌, length, slice_get, IfOk, IfSome, IsTrue, OnErr};
ghost use Rattle.s360_machine.specs.Change.{places_of_change};
ghost use Rattle.s360_machine.specs.ChangeSpans.{spans_of};
ghost use Rattle.s360_store.specs.Spans.{AreSpans, places_of_spans};
ghost use Rattle.s360_journal.specs.SpanLists.{spans_listed};

use crate::indexing::PSW;
use s360_machine::{ChangeSpans, Packed, SpansWithin};
use s360_store::{Place, Span};
use std::alloc::{AllocError, Global};
use std::marker::Model;

/// Spans, in their order.
#[derive(Drop)]
enum SpanList {
    /// Those of a change that stands within its row, as most do.
    Within(SpansWithin),
    /// Any number.
    Apart(Vec<Span>),
}

/// Places in their order, each once, which a contract sees as a list.
pub struct Places {
    spans: SpanList,
    /// The number of places.
    count: u32,
}

impl Drop for Places {
    fn drop(self) {
        let Places { spans: _, count: _ } = self;
    }
}

impl Model for Places {
    ghost use Rattle.std.specs.Prelude.{List};
    ghost use Rattle.s360_store.specs.declared.place.Place.{Place};
    ghost use Rattle.s360_store.specs.Spans.{places_of_spans};
    ghost use Rattle.s360_journal.specs.Places.{ArePlaces};
    ghost use Rattle.s360_journal.specs.SpanLists.{spans_listed};

    ghost Value = { List Place };

    ghost view = { λ p. places_of_spans (spans_listed p.spans) };

    ghost invariant = { λ p. ArePlaces (spans_listed p.spans) p.count };
}

/// The place at `i` of spans, counted from 0, if there are so many.
fn place_at(spans: &[Span], i: u32) -> Option<Place>
    requires { AreSpans spans.now }
    ensures { result ≡ slice_get (places_of_spans spans.now) i }
{
    let mut left = i;
    for span in spans {
        if left < span.len() {
            return Some(span.place(left));
        }
        left -= span.len();
    }
    None
}

impl SpanList {
    /// The spans of a change.
    #[inline(always)]
    fn of(alloc: Global, spans: ChangeSpans<'_>) -> Result<SpanList, AllocError>
        ensures { IfOk result (λ list. spans_listed list ≡ spans_of spans.entry) }
    {
        match spans {
            ChangeSpans::Within(spans) => Ok(SpanList::Within(spans)),
            ChangeSpans::Apart(apart) => Ok(SpanList::Apart(apart.collect(alloc)?)),
        }
    }

    /// The place at `i`, counted from 0, if there are so many.
    fn place(&self, i: u32) -> Option<Place>
        requires { AreSpans (spans_listed self.now) }
        ensures { result ≡ slice_get (places_of_spans (spans_listed self.now)) i }
    {
        match self {
            SpanList::Within(SpansWithin::Nothing) => None,
            SpanList::Within(SpansWithin::Psw) => place_at(&[PSW], i),
            SpanList::Within(SpansWithin::Register(register)) => {
                let register = Span::Place(Place::Register(*register));
                place_at(&[PSW, register], i)
            }
            SpanList::Within(SpansWithin::Bytes { address, count }) => {
                let (address, count) = (*address, *count);
                place_at(&[PSW, Span::Bytes { address, count }], i)
            }
            SpanList::Apart(spans) => place_at(spans, i),
        }
    }
}

impl Places {
    /// The places of the last of the changes, if there is one. Where there are none it takes no memory.
    #[inline(always)]
    pub(crate) fn of_last(alloc: Global, changes: &Packed) -> Result<Places, AllocError>
        ensures places { IfOk result (λ places. IfSome (slice_get changes.now (length changes.now - 1)) (λ x. places ≡ places_of_change x)) }
        ensures memory { OnErr result (IfSome (slice_get changes.now (length changes.now - 1)) (λ x. places_of_change x ≢ [])) }
    {
        let number = changes.len();
        let count = if number == 0 { 0 } else { changes.last_count() };
        if count == 0 {
            let spans = SpanList::Within(SpansWithin::Nothing);
            return Ok(Places { spans, count });
        }
        let spans = SpanList::of(alloc, changes.last_spans())?;
        Ok(Places { spans, count })
    }

    /// The number of places.
    pub fn len(&self) -> u32
        ensures { result ≡ length self.now }
    {
        self.count
    }

    /// Whether there is none.
    pub fn is_empty(&self) -> bool
        ensures { IsTrue result ↔ (self.now ≡ []) }
    {
        self.count == 0
    }

    /// The place at `i`, counted from 0, if there are so many.
    pub fn get(&self, i: u32) -> Option<Place>
        ensures { result ≡ slice_get self.now i }
    {
        self.spans.place(i)
    }
}
