//! What an event alters, ready to be exchanged with the machine.
ghost use Rattle.std.specs.Prelude.{◌≡◌, ◌<◌, [], length, slice_get, true, Some};
ghost use Rattle.std.specs.Option.{option_copied};
ghost use Rattle.s360_store.specs.Cells.{AllFit};
ghost use Rattle.s360_store.specs.CoreChanges.{cells_of_change};
ghost use Rattle.s360_machine.specs.Change.{places_of_change};
ghost use Rattle.s360_machine.specs.Changes.{change_of, change_of_core};

use crate::beside::Beside;
use crate::media::MediaChange;
use s360_store::{CoreChange, Place};
use std::alloc::Global;
use std::marker::Model;

/// The places that an event alters, in their order, each with the value that stands there while the
/// change is not made, or no longer: those of the core, then those of the control part, and then
/// those of the units.
pub struct Changes {
    pub(crate) core: CoreChange,
    pub(crate) beside: Beside,
}

impl Drop for Changes {
    fn drop(self) {
        let Changes { core: _, beside: _ } = self;
    }
}

impl Model for Changes {
    ghost use Rattle.std.specs.Prelude.{true};
    ghost use Rattle.s360_store.specs.Cells.{AllFit};
    ghost use Rattle.s360_store.specs.CoreChanges.{cells_of_change};
    ghost use Rattle.s360_machine.specs.Change.{Change};
    ghost use Rattle.s360_machine.specs.Changes.{change_of};

    ghost Value = { Change };

    ghost view = { λ c. change_of (cells_of_change c.core) c.beside };

    ghost invariant = { λ c. AllFit true (cells_of_change c.core) };
}

impl Changes {
    /// No change. It takes no memory.
    pub fn new(alloc: Global) -> Changes
        ensures { result ≡ change_of_core [] }
    {
        Changes {
            core: CoreChange::new(alloc),
            beside: Beside::nothing(),
        }
    }

    /// What it alters of the media, if it alters any.
    #[inline(always)]
    pub(crate) fn media(&self) -> Option<&MediaChange>
        ensures { option_copied result ≡ self.now.media }
    {
        self.beside.media.as_ref()
    }

    /// The number of places.
    pub fn len(&self) -> u32
        ensures { result ≡ length (places_of_change self.now) }
    {
        self.core.len() + self.beside.places().len() as u32
    }

    /// The place at `i`, counted from 0.
    pub fn place(&self, i: u32) -> Place
        requires { i < length (places_of_change self.now) }
        ensures { slice_get (places_of_change self.now) i ≡ Some result }
    {
        if i < self.core.len() {
            return self.core.place(i);
        }
        let places = self.beside.places();
        places[(i - self.core.len()) as usize]
    }
}
