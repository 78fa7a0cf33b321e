//! A line that is begun before the number at its end is known.
ghost use Rattle.std.specs.Prelude.{◌≡◌, ◌++◌, IfOk, codes};
ghost use Rattle.s360_model.specs.Text.{decimal};

use itoa::Buffer;
use s360_text::Text;
use std::alloc::{AllocError, Global};
use std::marker::Model;

/// Bytes of the longest end of a line: ten decimal digits and a line feed.
const LONGEST_END: usize = 11;

/// A line that lacks the number at its end, and has room for it. So what the number tells of can be
/// done once memory is there for its line. A contract sees what the line has.
#[derive(Drop)]
pub(crate) struct OpenLine {
    bytes: Vec<u8>,
    alloc: Global,
}

impl Model for OpenLine {
    ghost use Rattle.std.specs.Prelude.{List, ℕ, ◌+◌, ◌≤◌, vec_len, vec_capacity};

    ghost Value = { List ℕ };

    ghost view = { λ l. l.bytes.items };

    ghost invariant = { λ l. vec_len l.bytes + 11 ≤ vec_capacity l.bytes };
}

impl OpenLine {
    /// A line that begins with a text.
    pub(crate) fn new(alloc: Global, text: &str) -> Result<OpenLine, AllocError>
        ensures { IfOk result (λ line. line ≡ text.now) }
    {
        let mut bytes = text.as_bytes().to_vec(alloc)?;
        bytes.reserve(LONGEST_END)?;
        Ok(OpenLine { bytes, alloc })
    }

    /// The line with its number. It takes no memory.
    pub(crate) fn finish(self, number: u32) -> Text
        ensures { result ≡ self ++ decimal number ++ codes "\n" }
    {
        let OpenLine { mut bytes, alloc } = self;
        let mut digits = Buffer::new();
        let Ok(()) = bytes.extend_from_slice(digits.format(number).as_bytes()) else {
            unreachable!()
        };
        bytes.push_reserved(b'\n');
        Text::of_bytes(alloc, bytes)
    }
}
