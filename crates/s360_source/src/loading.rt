//! The end of initial program loading, which follows the word that ends it. Source: GA22-6821, "System Control Panel", initial program
//! loading.
ghost use Rattle.std.specs.Prelude.{◌≡◌, ◌++◌, OnOk};
ghost use Rattle.s360_source.specs.Channels.{followed_back, loading_walk};
ghost use Rattle.s360_source.specs.Parts.{places_of_parts};
ghost use Rattle.s360_source.specs.Walks.{with_store};

use crate::channel_word::ChannelWord;
use crate::location::Location;
use crate::part::{Part, push_parts};
use crate::question::Question;
use s360_store::Place;
use std::alloc::AllocError;

/// Adds the sources of places, as a word made what stands there.
fn push_before(
    found: &mut Vec<Place>,
    word: &ChannelWord,
    places: &[Place],
) -> Result<(), AllocError>
    ensures { OnOk result (found.new.items ≡ found.old.items ++ followed_back word.now places.now) }
{
    for place in places {
        let mut sources = Vec::new(*found.allocator());
        sources.push(*place)?;
        word.push(Question::Sources(*place), &mut sources)?;
        found.extend_from_slice(sources.as_slice())?;
    }
    Ok(())
}

/// Follows a store after a word of what is made of these parts, which are followed back through the word.
fn store_after(
    question: Question,
    found: &mut Vec<Place>,
    word: &ChannelWord,
    place: Place,
    parts: &[Part],
) -> Result<(), AllocError>
    ensures { OnOk result (found.new.items ≡ with_store question place (followed_back word.now (places_of_parts parts.now)) found.old.items) }
{
    match question {
        Question::Sources(asked) if place.is(asked) => {
            let mut between = Vec::new(*found.allocator());
            push_parts(&mut between, parts)?;
            found.clear();
            push_before(found, word, between.as_slice())?;
            Ok(())
        }
        _ => {
            question.store(found, place, &[])?;
            Ok(())
        }
    }
}

/// Walks over the end of loading: the PSW is loaded, the machine operates, and the unit is idle.
pub(crate) fn push_end_of_loading(
    question: Question,
    found: &mut Vec<Place>,
    word: &ChannelWord,
) -> Result<(), AllocError>
    ensures { OnOk result (found.new.items ≡ loading_walk question word.now found.old.items) }
{
    let psw = Part::Bytes(Location::new(0), 8);
    store_after(question, found, word, Place::Psw, &[psw])?;
    question.store(found, Place::Run, &[])?;
    let state = Place::UnitState(word.unit.unit());
    store_after(question, found, word, state, &[Part::state(word.unit)])
}
