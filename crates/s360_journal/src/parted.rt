//! A list in two parts: the items that stand, and those that come next.
ghost use Rattle.std.specs.Option.{option_copied, option_to_list};
ghost use Rattle.std.specs.Prelude.{◌≡◌, ◌≢◌, ◌<◌, ◌≤◌, ◌+◌, ◌++◌, ◌∷◌, [], None, OnOk, drop, length, reverse, slice_get, take};

use std::alloc::{AllocError, Global};
use std::marker::Model;

/// Items, the first of which stand. A contract sees both parts, and how many items there is memory for.
#[derive(Drop)]
pub(crate) struct Parted<T> {
    items: Vec<T>,
    /// So many of them stand.
    standing: usize,
}

impl<T> Model for Parted<T> {
    ghost use Rattle.std.specs.Option.{option_copied, option_to_list};
    ghost use Rattle.std.specs.Prelude.{◌≤◌, drop, length, reverse, take, vec_capacity};
    ghost use Rattle.s360_journal.specs.Parts.{Parts};

    ghost Value = { Parts T };

    ghost view = { λ p. record { past = reverse (take p.standing p.items.items); next = drop p.standing p.items.items; room = vec_capacity p.items } };

    ghost invariant = { λ p. p.standing ≤ length p.items.items };
}

impl<T> Parted<T> {
    /// No item. It takes no memory.
    pub(crate) fn new(alloc: Global) -> Parted<T>
        ensures past { result.past ≡ [] }
        ensures next { result.next ≡ [] }
    {
        Parted {
            items: Vec::new(alloc),
            standing: 0,
        }
    }

    /// The number of items that stand.
    pub(crate) fn standing(&self) -> usize
        ensures { result ≡ length self.now.past }
    {
        self.standing
    }

    /// The number of items that come next.
    #[inline(always)]
    pub(crate) fn next_len(&self) -> usize
        ensures { result ≡ length self.now.next }
    {
        self.items.len() - self.standing
    }

    /// The number of all items.
    pub(crate) fn len(&self) -> usize
        ensures { result ≡ length self.now.past + length self.now.next }
    {
        self.items.len()
    }

    /// These items, so many of which stand.
    pub(crate) fn with(items: Vec<T>, standing: usize) -> Parted<T>
        requires { standing ≤ length items.items }
        ensures past { result.past ≡ reverse (take standing items.items) }
        ensures next { result.next ≡ drop standing items.items }
    {
        Parted { items, standing }
    }

    /// All items in their order.
    pub(crate) fn items(&self) -> &Vec<T>
        ensures past { reverse (take (length self.now.past) result.now.items) ≡ self.now.past }
        ensures next { drop (length self.now.past) result.now.items ≡ self.now.next }
        ensures within { length self.now.past ≤ length result.now.items }
    {
        &self.items
    }

    /// The newest of the items that stand.
    pub(crate) fn last(&self) -> Option<&T>
        ensures { option_copied result ≡ slice_get self.now.past 0 }
    {
        if self.standing == 0 {
            return None;
        }
        self.items.get(self.standing - 1)
    }

    /// The first of those that come next.
    pub(crate) fn first(&self) -> Option<&T>
        ensures { option_copied result ≡ slice_get self.now.next 0 }
    {
        self.items.get(self.standing)
    }

    /// Takes memory for one more that stands.
    #[inline(always)]
    pub(crate) fn reserve(&mut self) -> Result<(), AllocError>
        ensures past { self.new.past ≡ self.old.past }
        ensures next { self.new.next ≡ self.old.next }
        ensures ok { OnOk result (length self.new.past < self.new.room) }
    {
        self.items.reserve(1)
    }

    /// The newest of those that stand comes next.
    pub(crate) fn back(&mut self)
        requires { self.old.past ≢ [] }
        ensures { self.new ≡ record self.old { past = drop 1 self.old.past; next = take 1 self.old.past ++ self.old.next } }
    {
        self.standing -= 1;
    }

    /// The first of those that come next stands.
    pub(crate) fn on(&mut self)
        requires { self.old.next ≢ [] }
        ensures { self.new ≡ record self.old { past = take 1 self.old.next ++ self.old.past; next = drop 1 self.old.next } }
    {
        self.standing += 1;
    }

    /// Puts an item after those that stand, for which there is memory, where none comes next.
    #[inline(always)]
    pub(crate) fn push(&mut self, item: T)
        requires room { length self.old.past < self.old.room }
        requires last { self.old.next ≡ [] }
        ensures { self.new ≡ record self.old { past = item ∷ self.old.past } }
    {
        self.items.push_reserved(item);
        self.standing += 1;
    }
}

impl<T: Drop> Parted<T> {
    /// Drops all that come next.
    pub(crate) fn cut(&mut self)
        ensures { self.new ≡ record self.old { next = [] } }
    {
        self.items.truncate(self.standing);
    }

    /// Takes the newest of those that stand out, and drops all that come next.
    pub(crate) fn take_last(&mut self) -> Option<T>
        ensures past { self.old.past ≡ option_to_list result ++ self.new.past }
        ensures next { self.new.next ≡ [] }
        ensures none { result ≡ None → self.old.past ≡ [] }
    {
        self.items.truncate(self.standing);
        let item = self.items.pop();
        self.standing = self.items.len();
        item
    }
}
