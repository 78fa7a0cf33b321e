//! What the 1403 printed. Source: the component description of the 1403.
ghost use Rattle.std.specs.Prelude.{◌≡◌, ◌≤◌, IfOk, length};
ghost use Rattle.s360_print.specs.Paper.{line_width, print_line};

use std::alloc::{AllocError, Global};
use std::marker::Model;

/// Print positions of a line.
pub const LINE_WIDTH: usize = 132;

/// A print position with nothing printed.
const BLANK: u8 = 0x40;

/// The bytes of a line's print positions, in EBCDIC. They stand apart from the record that has them, so that a change
/// of a printer that prints nothing is small. A contract sees the list of them.
#[derive(Drop)]
pub struct PrintedLine {
    bytes: Box<[u8; LINE_WIDTH]>,
}

impl Model for PrintedLine {
    ghost use Rattle.std.specs.Prelude.{List, ℕ, box_value};

    ghost Value = { List ℕ };

    ghost view = { λ l. box_value l.bytes };
}

/// A line that was printed.
#[derive(Clone, Drop)]
pub struct Record {
    /// The page, from 1.
    pub page: u32,
    /// The line of the page, from 1.
    pub line: u8,
    /// What stands in its print positions.
    pub bytes: PrintedLine,
}

/// At most 132 bytes in the first print positions, and blanks in the others.
fn print_line(bytes: &[u8]) -> [u8; LINE_WIDTH]
    requires { length bytes.now ≤ line_width }
    ensures { result ≡ print_line bytes.now }
{
    let mut line = [BLANK; LINE_WIDTH];
    line[..bytes.len()].copy_from_slice(bytes);
    line
}

impl Clone for PrintedLine {
    ghost use Rattle.std.specs.Prelude.{◌≡◌};

    ghost is_clone = { λ line copied. copied ≡ line };

    fn clone(&self) -> Result<PrintedLine, AllocError> {
        let bytes = self.bytes.clone()?;
        Ok(PrintedLine { bytes })
    }
}

impl PrintedLine {
    /// At most 132 bytes in the first print positions, and blanks in the others.
    pub(crate) fn new(alloc: Global, bytes: &[u8]) -> Result<PrintedLine, AllocError>
        requires { length bytes.now ≤ line_width }
        ensures { IfOk result (λ line. line ≡ print_line bytes.now) }
    {
        let bytes = Box::new(alloc, print_line(bytes))?;
        Ok(PrintedLine { bytes })
    }

    /// The bytes.
    pub fn as_slice(&self) -> &[u8]
        ensures { result.now ≡ self.now }
    {
        self.bytes.as_slice()
    }
}
