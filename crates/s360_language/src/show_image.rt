//! What is shown of the file of a tape, as which it could be kept. docs/reference/images.md has its format.
ghost use Rattle.std.specs.Prelude.{◌≡◌, ◌++◌, OnOk};
ghost use Rattle.s360_machine.specs.Machine.{seen};
ghost use Rattle.s360_language.specs.ShownImages.{file_text, image_text, tape_image};
ghost use Rattle.s360_device.specs.DeviceChanges.{bare};
ghost use Rattle.s360_tape.specs.WholeTape.{seen as seen_tape};

use crate::names::push_refusal;
use crate::show_bytes::{RowForm, push_rows};
use s360_machine::{Machine, Refusal};
use s360_tape::{Tape, image_of};
use s360_text::Text;
use s360_word::Unit;
use std::alloc::AllocError;

/// A line shows so many bytes.
const BYTES_A_LINE: usize = 32;

/// Adds the file of a unit's tape; or the refusal where the machine has no tape there.
pub(crate) fn push_image(text: &mut Text, machine: &Machine, unit: Unit) -> Result<(), AllocError>
    ensures { OnOk result (text.new ≡ text.old ++ image_text (seen machine.now.whole) unit) }
{
    match machine.tape(unit) {
        Some(tape) => push_tape(text, tape),
        None => push_refusal(text, Refusal::NoSuchUnit),
    }
}

/// Adds the file of a tape.
fn push_tape(text: &mut Text, tape: &Tape) -> Result<(), AllocError>
    ensures { OnOk result (text.new ≡ text.old ++ tape_image (seen_tape (bare tape.now))) }
{
    let file = image_of(text.alloc(), tape)?;
    push_file(text, &file)
}

/// Adds how many bytes a file has, and all of them.
fn push_file(text: &mut Text, file: &[u8]) -> Result<(), AllocError>
    ensures { OnOk result (text.new ≡ text.old ++ file_text file.now) }
{
    text.push_counted("image ", file.len() as u64)?;
    text.push_text("\n")?;
    push_rows(text, RowForm::Plain, 0, BYTES_A_LINE, file)
}
