//! Lines that are told, so many at most.
ghost use Rattle.std.specs.Prelude.{◌≡◌, ◌<◌, ◌++◌, ◌∷◌, ◌↔◌, [], IfOk, List};
ghost use Rattle.std.specs.Prelude.{OnOk, ℕ};
ghost use Rattle.std.specs.Bool.{IsTrue};
ghost use Rattle.s360_inquiry.specs.Tellings.{IsTold, told_lines};

use s360_text::Text;
use std::alloc::{AllocError, Global};

/// So many lines are told at most.
pub(crate) const MOST_LINES: usize = 1000;

/// Lines that are told, at most so many, and how many there are; no more are counted than one beyond these.
#[derive(Drop)]
pub(crate) struct Telling {
    text: Text,
    lines: usize,
}

impl Telling {
    /// No line is told yet.
    pub(crate) fn new(alloc: Global) -> Telling
        ensures text { result.text ≡ [] }
        ensures lines { result.lines ≡ 0 }
    {
        Telling {
            text: Text::new(alloc),
            lines: 0,
        }
    }

    /// Whether no further line would be told or counted.
    pub(crate) fn is_full(&self) -> bool
        ensures { IsTrue result ↔ (1000 < self.now.lines) }
    {
        self.lines > MOST_LINES
    }

    /// Adds a line, if one more may be told or counted.
    pub(crate) fn push(&mut self, line: &[u8]) -> Result<(), AllocError>
        ensures { OnOk result ((lines : List (List ℕ)) → IsTold lines self.old → IsTold (lines ++ line.now ∷ []) self.new) }
    {
        if self.is_full() {
            return Ok(());
        }
        if self.lines < MOST_LINES {
            self.text.push_bytes(line)?;
        }
        self.lines += 1;
        Ok(())
    }

    /// The text, and that there is more if there is.
    pub(crate) fn finish(mut self) -> Result<Text, AllocError>
        ensures { IfOk result (λ text. (lines : List (List ℕ)) → IsTold lines self → text ≡ told_lines lines) }
    {
        if self.is_full() {
            self.text.push_text("and more\n")?;
        }
        Ok(self.text)
    }
}
