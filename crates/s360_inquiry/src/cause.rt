//! What a value was made of: places with where their values come from, of which successive bytes of one origin are told together.
ghost use Rattle.std.specs.Prelude.{◌≡◌, ◌++◌, IfOk, OnOk, reverse};
ghost use Rattle.s360_inquiry.specs.Origins.{cause_items, cause_of, cause_words, causes_from, joined, with_source};

use crate::extent::{Extent, extent_with, push_extent};
use crate::origin::{Origin, push_origin};
use s360_store::Place;
use s360_text::Text;
use std::alloc::{AllocError, Global};

/// A place, and where its value comes from.
#[derive(Clone, Copy)]
pub(crate) struct Sourced {
    pub(crate) place: Place,
    pub(crate) origin: Origin,
}

/// An extent, and where its value comes from.
#[derive(Clone, Copy)]
pub(crate) struct Cause {
    pub(crate) extent: Extent,
    pub(crate) origin: Origin,
}

/// A place as a cause.
fn cause_of(source: Sourced) -> Cause
    ensures { result ≡ cause_of source }
{
    Cause {
        extent: Extent::of(source.place),
        origin: source.origin,
    }
}

/// A byte with the run that begins behind it, if they go together.
fn joined(source: Sourced, next: Cause) -> Option<Extent>
    ensures { result ≡ joined source next }
{
    if source.origin.is(next.origin) {
        extent_with(source.place, next.extent)
    } else {
        None
    }
}

/// Puts a place before causes, which are listed from the last one on.
fn put_before(causes: &mut Vec<Cause>, source: Sourced) -> Result<(), AllocError>
    ensures { OnOk result (reverse causes.new.items ≡ with_source source (reverse causes.old.items)) }
{
    let Some(next) = causes.pop() else {
        causes.push(cause_of(source))?;
        return Ok(());
    };
    match joined(source, next) {
        Some(extent) => causes.push(Cause {
            extent,
            origin: source.origin,
        })?,
        None => {
            causes.push(next)?;
            causes.push(cause_of(source))?;
        }
    }
    Ok(())
}

/// The causes of some places, in their order.
pub(crate) fn causes_from(alloc: Global, sources: &[Sourced]) -> Result<Vec<Cause>, AllocError>
    ensures { IfOk result (λ causes. causes.items ≡ causes_from sources.now) }
{
    let mut causes = Vec::new(alloc);
    for index in (0..sources.len()).rev() {
        put_before(&mut causes, sources[index])?;
    }
    causes.reverse();
    Ok(causes)
}

/// A cause in words, behind others.
fn item_of(alloc: Global, behind: &str, cause: Cause) -> Result<Text, AllocError>
    ensures { IfOk result (λ item. item ≡ behind.now ++ cause_words cause) }
{
    let mut item = Text::new(alloc);
    item.push_text(behind)?;
    push_extent(&mut item, cause.extent)?;
    push_origin(&mut item, cause.origin)?;
    Ok(item)
}

/// Causes in words.
pub(crate) fn cause_items(alloc: Global, causes: &[Cause]) -> Result<Vec<Text>, AllocError>
    ensures { IfOk result (λ items. items.items ≡ cause_items causes.now) }
{
    let mut items = Vec::new(alloc);
    for cause in causes {
        let behind = if items.is_empty() { " of " } else { ", " };
        items.push(item_of(alloc, behind, *cause)?)?;
    }
    Ok(items)
}
