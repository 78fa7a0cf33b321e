//! What stands on a tape. Source: GA22-6866, "2400-Series Magnetic Tape Units".
ghost use Rattle.std.specs.Prelude.{◌≡◌, ◌≤◌, length};
ghost use Rattle.s360_tape.specs.Blocks.{block_limit};
ghost use Rattle.s360_tape.specs.Items.{bytes_of, is_mark};

use crate::block::Block;

/// An item of a tape.
#[derive(Clone, Drop)]
pub enum TapeItem {
    /// A block of bytes.
    Block(Block),
    /// A tape mark, which ends a file of blocks.
    Mark,
}

impl TapeItem {
    /// Its bytes: those of a block, and none of a mark.
    pub fn bytes(&self) -> &[u8]
        ensures bytes { result.now ≡ bytes_of self.now }
        ensures fits { length result.now ≤ block_limit }
    {
        match self {
            TapeItem::Block(block) => block.as_slice(),
            TapeItem::Mark => &[],
        }
    }

    /// Whether it is a mark.
    pub fn is_mark(&self) -> bool
        ensures { result ≡ is_mark self.now }
    {
        matches!(self, TapeItem::Mark)
    }
}
