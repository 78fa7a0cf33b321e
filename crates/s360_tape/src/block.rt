//! Blocks of bytes on a tape. Source: GA22-6866, "2400-Series Magnetic Tape Units".
ghost use Rattle.std.specs.Prelude.{◌≡◌, ◌≤◌, length, IfOk};
ghost use Rattle.s360_tape.specs.Blocks.{block_limit};

use std::alloc::{AllocError, Global};
use std::marker::Model;

/// Most bytes of a block.
pub(crate) const BLOCK_LIMIT: usize = 65_535;

/// The bytes of a block, at most 65,535. A contract sees the list of them.
#[derive(Drop)]
pub struct Block {
    bytes: Vec<u8>,
}

impl Model for Block {
    ghost use Rattle.std.specs.Prelude.{List, ℕ, ◌≤◌, length};
    ghost use Rattle.s360_tape.specs.Blocks.{block_limit};

    ghost Value = { List ℕ };

    ghost view = { λ b. b.bytes.items };

    ghost invariant = { λ b. length b.bytes.items ≤ block_limit };
}

impl Clone for Block {
    ghost use Rattle.std.specs.Prelude.{◌≡◌};

    ghost is_clone = { λ block copied. copied ≡ block };

    fn clone(&self) -> Result<Block, AllocError> {
        let bytes = self.bytes.clone()?;
        Ok(Block { bytes })
    }
}

impl Block {
    /// A block of the bytes of a vector. It takes no memory.
    pub(crate) fn new(bytes: Vec<u8>) -> Block
        requires fits { length bytes.items ≤ block_limit }
        ensures { result ≡ bytes.items }
    {
        Block { bytes }
    }

    /// A block of bytes.
    pub(crate) fn copied(alloc: Global, bytes: &[u8]) -> Result<Block, AllocError>
        requires fits { length bytes.now ≤ block_limit }
        ensures { IfOk result (λ block. block ≡ bytes.now) }
    {
        let bytes = bytes.to_vec(alloc)?;
        Ok(Block { bytes })
    }

    /// The bytes.
    pub fn as_slice(&self) -> &[u8]
        ensures bytes { result.now ≡ self.now }
        ensures fits { length result.now ≤ block_limit }
    {
        self.bytes.as_slice()
    }
}
