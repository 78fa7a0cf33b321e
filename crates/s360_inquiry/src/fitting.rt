//! Items that are told in a line: as far as it has room, or all.
ghost use Rattle.std.specs.Prelude.{◌≡◌, ◌++◌, IfOk, OnOk, drop, length};
ghost use Rattle.s360_inquiry.specs.Causes.{brief_line, full_line};
ghost use Rattle.s360_inquiry.specs.Fitting.{fitted, more_words};

use s360_text::Text;
use std::alloc::{AllocError, Global};

/// So many columns has a line.
const COLUMNS: usize = 120;

/// How many of the items are left from one on, if any are.
fn more_from(alloc: Global, items: &[Text], from: usize) -> Result<Text, AllocError>
    ensures { IfOk result (λ text. text ≡ more_words (drop from items.now)) }
{
    let mut text = Text::new(alloc);
    if from < items.len() {
        text.push_counted(" and ", (items.len() - from) as u64)?;
        text.push_text(" more")?;
    }
    Ok(text)
}

/// Adds items to a line as far as it has room, and how many there are more.
fn push_fitted(alloc: Global, line: &mut Text, items: &[Text]) -> Result<(), AllocError>
    ensures { OnOk result (line.new ≡ line.old ++ fitted (length line.old) items.now) }
{
    for index in 0..items.len() {
        let item = items[index].as_bytes();
        let more = more_from(alloc, items, index + 1)?;
        let behind = item.len().saturating_add(more.as_bytes().len());
        if line.as_bytes().len().saturating_add(behind) > COLUMNS {
            let rest = more_from(alloc, items, index)?;
            return line.push_bytes(rest.as_bytes());
        }
        line.push_bytes(item)?;
    }
    Ok(())
}

/// Adds a line that begins so, with items as far as it has room.
pub(crate) fn push_brief(
    alloc: Global,
    text: &mut Text,
    head: &[u8],
    items: &[Text],
) -> Result<(), AllocError>
    ensures { OnOk result (text.new ≡ text.old ++ brief_line head.now items.now) }
{
    let mut line = Text::new(alloc);
    line.push_bytes(head)?;
    push_fitted(alloc, &mut line, items)?;
    text.push_bytes(line.as_bytes())?;
    text.push_text("\n")
}

/// Adds a line that begins so, with all items.
pub(crate) fn push_full(text: &mut Text, head: &[u8], items: &[Text]) -> Result<(), AllocError>
    ensures { OnOk result (text.new ≡ text.old ++ full_line head.now items.now) }
{
    text.push_bytes(head)?;
    for item in items {
        text.push_bytes(item.as_bytes())?;
    }
    text.push_text("\n")
}
