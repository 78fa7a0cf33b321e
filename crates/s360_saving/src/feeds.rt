//! How the carriage goes from line to line in a file.
ghost use Rattle.std.specs.Prelude.{◌≡◌, ◌++◌, OnOk, replicate};
ghost use Rattle.s360_saving.specs.Pages.{motion, parting};

use s360_text::Text;
use std::alloc::AllocError;

/// Ends a line.
pub(crate) const LINE_FEED: u8 = 0x0A;

/// Ends a page.
const FORM_FEED: u8 = 0x0C;

/// Goes back to the begin of a line.
const CARRIAGE_RETURN: u8 = 0x0D;

/// A line of a page, both counted from 1.
#[derive(Clone, Copy, PartialEq, Eq)]
pub struct PageLine {
    /// The page.
    pub page: u32,
    /// The line.
    pub line: u8,
}

/// Adds what parts a line from the one that was printed before it, if one was.
pub(crate) fn push_parting(
    text: &mut Text,
    before: Option<PageLine>,
    to: PageLine,
) -> Result<(), AllocError>
    ensures { OnOk result (text.new ≡ text.old ++ parting before to) }
{
    let Some(at) = before else {
        return push_motion(text, 1, 1, to);
    };
    if at == to {
        return text.push_byte(CARRIAGE_RETURN);
    }
    text.push_byte(LINE_FEED)?;
    push_motion(text, at.page, u16::from(at.line) + 1, to)
}

/// Adds what leads from the begin of a line to that of another, which stands further down its page, or on a page after it.
fn push_motion(text: &mut Text, page: u32, line: u16, to: PageLine) -> Result<(), AllocError>
    ensures { OnOk result (text.new ≡ text.old ++ motion page line to) }
{
    let to_line = u16::from(to.line);
    if page == to.page && line <= to_line {
        return push_times(text, LINE_FEED, u32::from(to_line - line));
    }
    push_times(text, FORM_FEED, to.page.saturating_sub(page).max(1))?;
    push_times(text, LINE_FEED, u32::from(to_line.saturating_sub(1)))
}

/// Adds a byte so many times.
fn push_times(text: &mut Text, byte: u8, times: u32) -> Result<(), AllocError>
    ensures { OnOk result (text.new ≡ text.old ++ replicate times byte) }
{
    for _time in 0..times {
        text.push_byte(byte)?;
    }
    Ok(())
}
