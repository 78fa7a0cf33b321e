//! The file of what was printed.
ghost use Rattle.std.specs.Prelude.{◌≡◌, ◌++◌, IfOk, OnOk};
ghost use Rattle.s360_saving.specs.Pages.{line_end, line_of_record, page_count, pages_file, parting, place_of};

use crate::feeds::{LINE_FEED, PageLine, push_parting};
use s360_language::{push_signs, trimmed};
use s360_print::{PrinterMedia, Record};
use s360_text::Text;
use std::alloc::{AllocError, Global};

/// The file of the lines that were printed.
pub(crate) fn pages_of(alloc: Global, media: &PrinterMedia) -> Result<Text, AllocError>
    ensures { IfOk result (λ text. text ≡ pages_file media.now.media.records) }
{
    let mut text = Text::new(alloc);
    let mut before = None;
    for index in 0..media.records() {
        if let Some(printed) = media.record(index + 1) {
            push_record(&mut text, before, printed)?;
            before = Some(place_of(printed));
        }
    }
    push_end(&mut text, before)?;
    Ok(text)
}

/// How many pages were printed: the page of the last line.
pub(crate) fn page_count(media: &PrinterMedia) -> u32
    ensures { result ≡ page_count media.now.media.records }
{
    match media.record(media.records()) {
        Some(printed) => printed.page,
        None => 0,
    }
}

/// Adds a line that was printed, and what parts it from the one before it.
fn push_record(
    text: &mut Text,
    before: Option<PageLine>,
    printed: &Record,
) -> Result<(), AllocError>
    ensures { OnOk result (text.new ≡ text.old ++ (parting before (place_of printed.now) ++ line_of_record printed.now)) }
{
    push_parting(text, before, place_of(printed))?;
    push_signs(text, trimmed(printed.bytes.as_slice()))
}

/// Ends the last line, if there is one.
fn push_end(text: &mut Text, before: Option<PageLine>) -> Result<(), AllocError>
    ensures { OnOk result (text.new ≡ text.old ++ line_end before) }
{
    match before {
        Some(_) => text.push_byte(LINE_FEED),
        None => Ok(()),
    }
}

/// Where a line was printed.
fn place_of(printed: &Record) -> PageLine
    ensures { result ≡ place_of printed.now }
{
    PageLine {
        page: printed.page,
        line: printed.line,
    }
}
