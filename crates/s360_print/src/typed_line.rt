//! Lines of the 1052, and what it typed. Source: the component description of the 1052.
ghost use Rattle.std.specs.Prelude.{◌≡◌, ◌≤◌, length, IfOk};
ghost use Rattle.s360_print.specs.TypedLines.{line_limit};

use std::alloc::{AllocError, Global};
use std::marker::Model;

/// The most bytes of a line that is typed or entered.
pub const LINE_LIMIT: usize = 256;

/// A line of at most 256 EBCDIC bytes, which a contract sees as the list of them.
#[derive(Drop)]
pub struct Line {
    bytes: Vec<u8>,
}

impl Model for Line {
    ghost use Rattle.std.specs.Prelude.{List, ℕ, ◌≤◌, length};
    ghost use Rattle.s360_print.specs.TypedLines.{line_limit};

    ghost Value = { List ℕ };

    ghost view = { λ l. l.bytes.items };

    ghost invariant = { λ l. length l.bytes.items ≤ line_limit };
}

impl Clone for Line {
    ghost use Rattle.std.specs.Prelude.{◌≡◌};

    ghost is_clone = { λ line copied. copied ≡ line };

    fn clone(&self) -> Result<Line, AllocError> {
        let bytes = self.bytes.clone()?;
        Ok(Line { bytes })
    }
}

impl Line {
    /// The line with these bytes.
    pub fn new(alloc: Global, bytes: &[u8]) -> Result<Line, AllocError>
        requires fits { length bytes.now ≤ line_limit }
        ensures { IfOk result (λ line. line ≡ bytes.now) }
    {
        let bytes = bytes.to_vec(alloc)?;
        Ok(Line { bytes })
    }

    /// The bytes.
    pub fn as_slice(&self) -> &[u8]
        ensures bytes { result.now ≡ self.now }
        ensures fits { length result.now ≤ line_limit }
    {
        self.bytes.as_slice()
    }
}

/// What the console did at the operator's paper.
#[derive(Clone, Drop)]
pub enum TypedItem {
    /// It typed a line, without a carriage return after it.
    Text(Line),
    /// It typed a line, and returned the carriage.
    Return(Line),
    /// It sounded the alarm.
    Alarm,
}
