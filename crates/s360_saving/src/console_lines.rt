//! The file of what the console typed, and of the lines that were entered.
ghost use Rattle.std.specs.Prelude.{◌≡◌, ◌++◌, IfOk, OnOk};
ghost use Rattle.std.specs.List.{flat_map};
ghost use Rattle.s360_language.specs.declared.show_items.ItemForm.TheVariants.{OnItsLine};
ghost use Rattle.s360_language.specs.ShownItems.{typed_told};
ghost use Rattle.s360_saving.specs.ConsoleLines.{console_file, entered_line, line_count};

use s360_language::{ItemForm, push_signs, push_typed};
use s360_print::{ConsoleMedia, Line};
use s360_text::Text;
use std::alloc::{AllocError, Global};

/// The file of what was typed, and then of the lines that were entered.
pub(crate) fn console_file_of(alloc: Global, media: &ConsoleMedia) -> Result<Text, AllocError>
    ensures { IfOk result (λ text. text ≡ console_file media.now.media) }
{
    let mut text = Text::new(alloc);
    push_all_typed(&mut text, media)?;
    push_all_entered(&mut text, media)?;
    Ok(text)
}

/// Adds what was typed, as `show m` shows it.
fn push_all_typed(text: &mut Text, media: &ConsoleMedia) -> Result<(), AllocError>
    ensures { OnOk result (text.new ≡ text.old ++ flat_map (typed_told OnItsLine) media.now.media.typed) }
{
    for index in 0..media.typed_count() {
        if let Some(item) = media.typed(index + 1) {
            push_typed(text, item, ItemForm::OnItsLine)?;
        }
    }
    Ok(())
}

/// Adds the lines that were entered.
fn push_all_entered(text: &mut Text, media: &ConsoleMedia) -> Result<(), AllocError>
    ensures { OnOk result (text.new ≡ text.old ++ flat_map entered_line media.now.media.entered) }
{
    for index in 0..media.entered_count() {
        if let Some(line) = media.line(index + 1) {
            push_entered(text, line)?;
        }
    }
    Ok(())
}

/// Adds a line that was entered, as a script enters it.
fn push_entered(text: &mut Text, line: &Line) -> Result<(), AllocError>
    ensures { OnOk result (text.new ≡ text.old ++ entered_line line.now) }
{
    text.push_text("enter ")?;
    push_signs(text, line.as_slice())?;
    text.push_text("\n")
}

/// How many lines a file has.
pub(crate) fn line_count(file: &[u8]) -> usize
    ensures { result ≡ line_count file.now }
{
    file.iter().filter(|byte| **byte == b'\n').count()
}
