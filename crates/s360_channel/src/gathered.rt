//! The bytes that the words of an output gather under chain data. Source: GA22-6821, "Input/Output
//! Operations", chaining of data.
ghost use Rattle.std.specs.Prelude.{◌≡◌, ◌<◌, ◌+◌, ◌^◌, [], ◌++◌, IfOk, length, reverse};
ghost use Rattle.std.specs.Option.{option_copied, option_map_or};
ghost use Rattle.s360_channel.specs.Gathered.{bytes_of, left_of, part_of, word_count};

use std::alloc::{AllocError, Global};
use std::marker::Model;
use std::rc::Rc;

/// Bytes that are gathered word by word, which a contract sees as a list. A word shares those of the words
/// before it with the states of its unit that had them, so that it costs what it adds.
#[derive(Drop)]
pub struct Gathered {
    parts: Rc<Parts>,
    count: usize,
}

impl Model for Gathered {
    ghost use Rattle.std.specs.Prelude.{◌≡◌, ℕ, List, length};
    ghost use Rattle.s360_channel.specs.Gathered.{bytes_of};

    ghost Value = { List ℕ };

    ghost view = { λ g. bytes_of g.parts.value };

    ghost invariant = { λ g. g.count ≡ length (bytes_of g.parts.value) };
}

/// What a word has gathered, after what the words before it have.
enum Parts {
    First(Vec<u8>),
    After(Rc<Parts>, Vec<u8>),
}

// A derived `drop` would call itself for each word, and a record can have 65,535 of them.
impl Drop for Parts {
    fn drop(mut self) {
        loop {
            match self {
                Parts::First(_) => return,
                Parts::After(before, _) => match Rc::into_inner(before) {
                    Some(parts) => self = parts,
                    None => return,
                },
            }
        }
    }
}

impl Parts {
    /// The bytes of the last word.
    fn part(&self) -> &[u8]
        ensures { result.now ≡ part_of self.now }
    {
        match self {
            Parts::First(bytes) | Parts::After(_, bytes) => bytes.as_slice(),
        }
    }

    /// What the words before it have gathered, if there are any.
    fn before(&self) -> Option<&Parts>
        ensures bytes { option_map_or bytes_of (option_copied result) [] ++ part_of self.now ≡ bytes_of self.now }
        ensures fewer { option_map_or word_count (option_copied result) 0 < word_count self.now }
    {
        match self {
            Parts::First(_) => None,
            Parts::After(before, _) => Some(before),
        }
    }
}

/// Gathered bytes from the last to the first.
#[derive(Drop)]
struct Backward<'a> {
    before: Option<&'a Parts>,
    part: &'a [u8],
}

impl<'a> Backward<'a> {
    fn of(parts: &'a Parts) -> Backward<'a>
        ensures left { left_of result ≡ reverse (bytes_of parts.now) }
        ensures fewer { option_map_or word_count (option_copied result.before) 0 < word_count parts.now }
    {
        Backward {
            before: parts.before(),
            part: parts.part(),
        }
    }
}

impl Iterator for Backward<'_> {
    ghost use Rattle.std.specs.Iterator.{YieldsFirst, item_count};
    ghost use Rattle.s360_channel.specs.Gathered.{left_of};

    type Item = u8;

    ghost next_gives = { YieldsFirst left_of };

    ghost remaining = { item_count left_of };

    fn next(&mut self) -> Option<u8> {
        loop {
            if let Some((last, others)) = self.part.split_last() {
                self.part = others;
                return Some(*last);
            }
            *self = Backward::of(self.before?);
        }
    }
}

/// The same bytes, which are shared.
impl Clone for Gathered {
    ghost use Rattle.std.specs.Prelude.{◌≡◌};

    ghost is_clone = { λ gathered copied. copied ≡ gathered };

    fn clone(&self) -> Result<Gathered, AllocError> {
        let parts = self.parts.clone()?;
        Ok(Gathered {
            parts,
            count: self.count,
        })
    }
}

impl Gathered {
    /// The bytes of a first word.
    pub(crate) fn first(alloc: Global, bytes: Vec<u8>) -> Result<Gathered, AllocError>
        ensures { IfOk result (λ gathered. gathered ≡ bytes.items) }
    {
        let count = bytes.len();
        let parts = Rc::new(alloc, Parts::First(bytes))?;
        Ok(Gathered { parts, count })
    }

    /// These bytes with those of one more word.
    pub(crate) fn followed_by(&self, alloc: Global, bytes: Vec<u8>) -> Result<Gathered, AllocError>
        requires fits { length self.now + length bytes.items < 2 ^ 64 }
        ensures { IfOk result (λ gathered. gathered ≡ self.now ++ bytes.items) }
    {
        let count = self.count + bytes.len();
        let before = self.parts.clone()?;
        let parts = Rc::new(alloc, Parts::After(before, bytes))?;
        Ok(Gathered { parts, count })
    }

    /// How many they are.
    pub fn count(&self) -> usize
        ensures { result ≡ length self.now }
    {
        self.count
    }

    /// The bytes from the last to the first.
    fn backward(&self) -> Backward<'_>
        ensures { left_of result ≡ reverse self.now }
    {
        Backward::of(&self.parts)
    }

    /// The bytes in memory of their own.
    pub fn to_vec(&self, alloc: Global) -> Result<Vec<u8>, AllocError>
        ensures { IfOk result (λ bytes. bytes.items ≡ self.now) }
    {
        let mut bytes: Vec<u8> = self.backward().collect(alloc)?;
        bytes.reverse();
        Ok(bytes)
    }
}

impl PartialEq for Gathered {
    ghost use Rattle.std.specs.Prelude.{bytes_eq};
    ghost use Rattle.std.specs.Cmp.Rules.{comparing};
    ghost use Rattle.std.proofs.Common.{rules};

    ghost eq = { λ a b. bytes_eq a b };

    ghost laws = { Prim.search (comparing, rules) };

    fn eq(&self, other: &Gathered) -> bool {
        if self.count != other.count {
            return false;
        }
        let (mut ours, mut theirs) = (self.backward(), other.backward());
        loop {
            match (ours.next(), theirs.next()) {
                (Some(one), Some(another)) if one == another => {}
                (None, None) => return true,
                _ => return false,
            }
        }
    }
}

impl Eq for Gathered {
    ghost use Rattle.std.specs.Cmp.Rules.{comparing};
    ghost use Rattle.std.proofs.Common.{rules};

    ghost laws = { Prim.search (comparing, rules) };
}
