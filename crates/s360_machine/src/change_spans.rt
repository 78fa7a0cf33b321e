//! The places of a change as spans, of which a change of many bytes in one run has few.
ghost use Rattle.std.specs.Prelude.{◌≡◌, ◌++◌, map};
ghost use Rattle.std.specs.Option.{option_copied};
ghost use Rattle.s360_store.specs.Spans.{span_of_item};
ghost use Rattle.s360_machine.specs.ChangeSpans.{spans_apart, spans_beside};

use crate::beside::Beside;
use s360_store::{Item, Span};

/// The places of a change that stands within its row.
#[derive(Clone, Copy)]
pub enum SpansWithin {
    /// None.
    Nothing,
    /// The PSW.
    Psw,
    /// The PSW and a general register, by its number.
    Register(u8),
    /// The PSW and so many bytes from an address on, at least one.
    Bytes { address: u32, count: u32 },
}

/// The places of a change as spans, in their order.
#[derive(Clone, Copy)]
pub enum ChangeSpans<'a> {
    /// Those of a change that stands within its row, as most do.
    Within(SpansWithin),
    /// Those of what stands apart from the rows.
    Apart(SpansApart<'a>),
}

/// The spans that are left of what stands apart from the rows, in their order.
#[derive(Clone, Copy)]
pub struct SpansApart<'a> {
    /// Single cells and runs, each of which is a span.
    items: &'a [Item],
    beside: Option<&'a Beside>,
    /// So many places beside the core are past.
    past: usize,
}

impl<'a> SpansApart<'a> {
    /// Of these parts.
    pub(crate) fn of(items: &'a [Item], beside: Option<&'a Beside>) -> SpansApart<'a>
        ensures { spans_apart result ≡ map (λ i. span_of_item i) items.now ++ spans_beside (option_copied beside.entry) 0 }
    {
        SpansApart {
            items,
            beside,
            past: 0,
        }
    }
}

impl Iterator for SpansApart<'_> {
    ghost use Rattle.std.specs.Iterator.{YieldsFirst, item_count};
    ghost use Rattle.s360_machine.specs.ChangeSpans.{spans_apart};

    type Item = Span;

    ghost next_gives = { YieldsFirst spans_apart };

    ghost remaining = { item_count spans_apart };

    fn next(&mut self) -> Option<Span> {
        if let Some((item, others)) = self.items.split_first() {
            self.items = others;
            return Some(item.span());
        }
        let places = self.beside?.places();
        let place = *places.get(self.past)?;
        self.past += 1;
        Some(Span::Place(place))
    }
}
