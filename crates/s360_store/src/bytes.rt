//! Bytes in their order, as patches, texts and channel programs have them.
ghost use Rattle.std.specs.Prelude.{◌≡◌, ◌≤◌, ◌+◌, ◌++◌, IsOk, OnErr, OnOk, length, vec_capacity, vec_len};

use std::alloc::AllocError;
use std::marker::Model;

/// So few bytes are copied one by one: to copy them at once would be a call.
const FEW: usize = 8;

/// Bytes in their order, which a contract sees as a list.
#[derive(Debug, Drop)]
pub struct Bytes {
    items: Vec<u8>,
}

impl Model for Bytes {
    ghost use Rattle.std.specs.Prelude.{List, ℕ};

    ghost Value = { List ℕ };

    ghost view = { λ b. b.items.items };
}

impl Clone for Bytes {
    ghost use Rattle.std.specs.Prelude.{◌≡◌};

    ghost is_clone = { λ bytes copied. copied ≡ bytes };

    fn clone(&self) -> Result<Bytes, AllocError> {
        let items = Vec::from_slice(*self.items.allocator(), self.as_slice())?;
        Ok(Bytes::new(items))
    }
}

impl Bytes {
    /// The bytes of a vector. It takes no memory.
    pub fn new(items: Vec<u8>) -> Bytes
        ensures { result ≡ items.items }
    {
        Bytes { items }
    }

    /// The bytes.
    pub fn as_slice(&self) -> &[u8]
        ensures { result.now ≡ self.now }
    {
        self.items.as_slice()
    }

    /// The bytes as a vector. It takes no memory.
    pub fn into_vec(self) -> Vec<u8>
        ensures { result.items ≡ self }
    {
        self.items
    }
}

impl PartialEq for Bytes {
    ghost use Rattle.std.specs.Prelude.{bytes_eq};
    ghost use Rattle.std.specs.Cmp.Rules.{comparing};
    ghost use Rattle.std.proofs.Common.{rules};

    ghost eq = { λ a b. bytes_eq a b };

    ghost laws = { Prim.search (comparing, rules) };

    fn eq(&self, other: &Bytes) -> bool {
        self.as_slice() == other.as_slice()
    }
}

impl Eq for Bytes {
    ghost use Rattle.std.specs.Cmp.Rules.{comparing};
    ghost use Rattle.std.proofs.Common.{rules};

    ghost laws = { Prim.search (comparing, rules) };
}

/// Adds bytes at the end of a list. Want of memory leaves the list as it was.
#[inline(always)]
pub fn append_bytes(list: &mut Vec<u8>, bytes: &[u8]) -> Result<(), AllocError>
    ensures ok { OnOk result (list.new.items ≡ list.old.items ++ bytes.now) }
    ensures err { OnErr result (list.new.items ≡ list.old.items) }
    ensures room { vec_len list.old + length bytes.now ≤ vec_capacity list.old → IsOk result }
{
    if bytes.len() > FEW {
        return list.extend_from_slice(bytes);
    }
    list.reserve(bytes.len())?;
    for byte in bytes {
        list.push_reserved(*byte);
    }
    Ok(())
}
