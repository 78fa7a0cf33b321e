//! What is asked of a row, and how what is found grows by what the row reads and stores.
ghost use Rattle.std.specs.Prelude.{◌≡◌, [], ◌∷◌, OnOk};
ghost use Rattle.s360_source.specs.Parts.{places_of_parts};
ghost use Rattle.s360_source.specs.Walks.{is_of, is_one_of, with_bytes, with_decided, with_each, with_store};

use crate::location::Location;
use crate::part::{Part, push_parts};
use s360_store::Place;
use std::alloc::AllocError;

/// What is asked of a row.
#[derive(Clone, Copy)]
pub enum Question {
    /// The places that decide what the event does.
    Deciders,
    /// The places that it stores into.
    Stored,
    /// The places that what stands at this place afterwards is made of.
    Sources(Place),
}

impl Question {
    /// Adds places that are read to know what the event does.
    pub(crate) fn decide(self, found: &mut Vec<Place>, parts: &[Part]) -> Result<(), AllocError>
        ensures { OnOk result (found.new.items ≡ with_decided self (places_of_parts parts.now) found.old.items) }
    {
        match self {
            Question::Deciders => push_parts(found, parts),
            Question::Stored | Question::Sources(_) => Ok(()),
        }
    }

    /// Whether it asks for the sources of a place.
    pub(crate) fn is_of(self, place: Place) -> bool
        ensures { result ≡ is_of self place }
    {
        match self {
            Question::Sources(asked) => place.is(asked),
            Question::Deciders | Question::Stored => false,
        }
    }

    /// Follows a store into a place, whose value is made of these parts.
    pub(crate) fn store(
        self,
        found: &mut Vec<Place>,
        place: Place,
        parts: &[Part],
    ) -> Result<(), AllocError>
        ensures { OnOk result (found.new.items ≡ with_store self place (places_of_parts parts.now) found.old.items) }
    {
        match self {
            Question::Deciders => Ok(()),
            Question::Stored => {
                found.push(place)?;
                Ok(())
            }
            Question::Sources(asked) => {
                if place.is(asked) {
                    found.clear();
                    return push_parts(found, parts);
                }
                Ok(())
            }
        }
    }

    /// Follows a store into a place that is made of itself.
    pub(crate) fn store_itself(self, found: &mut Vec<Place>, place: Place) -> Result<(), AllocError>
        ensures { OnOk result (found.new.items ≡ with_store self place (place ∷ []) found.old.items) }
    {
        self.store(found, place, &[Part::Place(place)])
    }

    /// Follows a store of the PSW, which is made of itself and of these parts.
    pub(crate) fn store_psw(self, found: &mut Vec<Place>, parts: &[Part]) -> Result<(), AllocError>
        ensures { OnOk result (found.new.items ≡ with_store self Place.Psw (Place.Psw ∷ places_of_parts parts.now) found.old.items) }
    {
        match self {
            Question::Sources(asked) if Place::Psw.is(asked) => {
                found.clear();
                found.push(Place::Psw)?;
                push_parts(found, parts)
            }
            _ => self.store(found, Place::Psw, parts),
        }
    }

    /// Follows stores into each of some places, made of these parts.
    pub(crate) fn store_each(
        self,
        found: &mut Vec<Place>,
        places: &[Place],
        parts: &[Part],
    ) -> Result<(), AllocError>
        ensures { OnOk result (found.new.items ≡ with_each self places.now (places_of_parts parts.now) found.old.items) }
    {
        for place in places {
            self.store(found, *place, parts)?;
        }
        Ok(())
    }

    /// Follows stores into so many bytes from an address on, each made of these parts.
    pub(crate) fn store_bytes(
        self,
        found: &mut Vec<Place>,
        address: Location,
        count: u16,
        parts: &[Part],
    ) -> Result<(), AllocError>
        ensures { OnOk result (found.new.items ≡ with_bytes self address count (places_of_parts parts.now) found.old.items) }
    {
        let count = u32::from(count);
        if let Question::Sources(asked) = self {
            // So what one byte is made of is not looked for at each.
            if is_one_of(asked, address.number(), count) {
                found.clear();
                push_parts(found, parts)?;
                return Ok(());
            }
            return Ok(());
        }
        for i in 0..count {
            self.store(found, Place::Byte(address.number() + i), parts)?;
        }
        Ok(())
    }
}

/// Whether a place is one of so many bytes from an address on.
fn is_one_of(place: Place, address: u32, count: u32) -> bool
    ensures { result ≡ is_one_of place address count }
{
    match place {
        Place::Byte(at) => address <= at && at - address < count,
        _ => false,
    }
}
