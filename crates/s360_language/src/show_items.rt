//! What is shown of the items of a unit's media: of cards and printed lines where they are, and of each
//! its signs.
ghost use Rattle.std.specs.Prelude.{◌≡◌, ◌++◌, OnOk, codes};
ghost use Rattle.s360_machine.specs.Machine.{seen};
ghost use Rattle.s360_language.specs.declared.show_bytes.RowForm.TheVariants.{Signs};
ghost use Rattle.s360_language.specs.ShownBytes.{in_rows};
ghost use Rattle.s360_language.specs.ShownItems.{block_begin, block_told, deck_card, holder_name, item_text, item_told, no_item};
ghost use Rattle.s360_language.specs.ShownItems.{printed_record, punched_card, record_told, stacker_name, tape_item, tape_item_told};
ghost use Rattle.s360_language.specs.ShownItems.{typed_item, typed_told};
ghost use Rattle.s360_device.specs.DeviceChanges.{bare};
ghost use Rattle.s360_tape.specs.WholeTape.{seen as seen_tape};

use crate::names::push_refusal;
use crate::show_bytes::{BYTES_A_ROW, RowForm, push_digits, push_rows, push_signs_behind};
use s360_device::{Punch, PunchStacker, ReadStacker, Reader};
use s360_machine::{ConfiguredUnit, Machine, Refusal};
use s360_print::{Console, Printer, Record, TypedItem};
use s360_tape::{Tape, TapeItem};
use s360_text::Text;
use s360_word::Unit;
use std::alloc::AllocError;

/// So many bytes of a block are shown.
const BLOCK_BEGIN: usize = 32;

/// How an item is told.
#[derive(Clone, Copy)]
pub enum ItemForm {
    /// On one line, by its signs; of a block by its first bytes.
    OnItsLine,
    /// By all its bytes in rows, with their digits and signs.
    InRows,
}

/// Adds the item of this number of a unit's media; or the refusal where the machine does not have the unit.
pub fn push_item(
    text: &mut Text,
    machine: &Machine,
    unit: Unit,
    number: usize,
    form: ItemForm,
) -> Result<(), AllocError>
    ensures { OnOk result (text.new ≡ text.old ++ item_text form (seen machine.now.whole) unit number) }
{
    match ConfiguredUnit::at(unit) {
        Some(ConfiguredUnit::Reader) => push_deck_card(text, machine.reader(), number, form),
        Some(ConfiguredUnit::Punch) => push_punched_card(text, machine.punch(), number, form),
        Some(ConfiguredUnit::Printer) => push_printed(text, machine.printer(), number, form),
        Some(ConfiguredUnit::Console) => push_typed_item(text, machine.console(), number, form),
        Some(ConfiguredUnit::Tape0 | ConfiguredUnit::Tape1) => match machine.tape(unit) {
            Some(tape) => push_tape_item(text, tape, number, form),
            None => push_refusal(text, Refusal::NoSuchUnit),
        },
        None => push_refusal(text, Refusal::NoSuchUnit),
    }
}

/// Adds a card of the reader's deck, with where it is.
fn push_deck_card(
    text: &mut Text,
    reader: &Reader,
    number: usize,
    form: ItemForm,
) -> Result<(), AllocError>
    ensures { OnOk result (text.new ≡ text.old ++ deck_card form (bare reader.now) number) }
{
    match reader.media().card(number) {
        Some(card) => push_told(
            text,
            name_of_holder(reader.media().stacker(number)),
            card,
            form,
        ),
        None => push_none(text),
    }
}

/// Adds a card that was punched, with where it is.
fn push_punched_card(
    text: &mut Text,
    punch: &Punch,
    number: usize,
    form: ItemForm,
) -> Result<(), AllocError>
    ensures { OnOk result (text.new ≡ text.old ++ punched_card form (bare punch.now) number) }
{
    match punch.media().card(number) {
        Some(punched) => push_told(
            text,
            name_of_stacker(punched.stacker),
            punched.card.as_slice(),
            form,
        ),
        None => push_none(text),
    }
}

/// Adds a line that was printed, with where it is.
fn push_printed(
    text: &mut Text,
    printer: &Printer,
    number: usize,
    form: ItemForm,
) -> Result<(), AllocError>
    ensures { OnOk result (text.new ≡ text.old ++ printed_record form (bare printer.now) number) }
{
    match printer.media().record(number) {
        Some(printed) => push_record(text, printed, form),
        None => push_none(text),
    }
}

/// Adds what the console typed.
fn push_typed_item(
    text: &mut Text,
    console: &Console,
    number: usize,
    form: ItemForm,
) -> Result<(), AllocError>
    ensures { OnOk result (text.new ≡ text.old ++ typed_item form (bare console.now) number) }
{
    match console.media().typed(number) {
        Some(item) => push_typed(text, item, form),
        None => push_none(text),
    }
}

/// Adds a block or mark of a tape.
fn push_tape_item(
    text: &mut Text,
    tape: &Tape,
    number: usize,
    form: ItemForm,
) -> Result<(), AllocError>
    ensures { OnOk result (text.new ≡ text.old ++ tape_item form (seen_tape (bare tape.now)) number) }
{
    match tape.media().item(number) {
        Some(item) => push_block_or_mark(text, item, form),
        None => push_none(text),
    }
}

/// Adds the line where there is no such item.
fn push_none(text: &mut Text) -> Result<(), AllocError>
    ensures { OnOk result (text.new ≡ text.old ++ no_item) }
{
    text.push_text("none\n")
}

/// Adds a block or mark.
fn push_block_or_mark(text: &mut Text, item: &TapeItem, form: ItemForm) -> Result<(), AllocError>
    ensures { OnOk result (text.new ≡ text.old ++ tape_item_told form item.now) }
{
    let TapeItem::Block(block) = item else {
        return text.push_text("mark\n");
    };
    let bytes = block.as_slice();
    text.push_counted("block ", bytes.len() as u64)?;
    push_block(text, bytes, form)
}

/// Adds what is told of the bytes of a block.
fn push_block(text: &mut Text, bytes: &[u8], form: ItemForm) -> Result<(), AllocError>
    ensures { OnOk result (text.new ≡ text.old ++ block_told form bytes.now) }
{
    match form {
        ItemForm::OnItsLine => {
            push_begin(text, bytes)?;
            text.push_text("\n")
        }
        ItemForm::InRows => push_below(text, bytes),
    }
}

/// Ends a line, and adds bytes in rows below it.
fn push_below(text: &mut Text, bytes: &[u8]) -> Result<(), AllocError>
    ensures { OnOk result (text.new ≡ text.old ++ codes "\n" ++ in_rows Signs 0 16 bytes.now) }
{
    text.push_text("\n")?;
    push_rows(text, RowForm::Signs, 0, BYTES_A_ROW, bytes)
}

/// Adds the first bytes of a block after a blank, if it has any.
fn push_begin(text: &mut Text, bytes: &[u8]) -> Result<(), AllocError>
    ensures { OnOk result (text.new ≡ text.old ++ block_begin bytes.now) }
{
    if bytes.is_empty() {
        return Ok(());
    }
    text.push_text(" ")?;
    push_digits(text, &bytes[..BLOCK_BEGIN.min(bytes.len())])?;
    Ok(())
}

/// Adds a line that was printed.
fn push_record(text: &mut Text, printed: &Record, form: ItemForm) -> Result<(), AllocError>
    ensures { OnOk result (text.new ≡ text.old ++ record_told form printed.now) }
{
    text.push_counted("page ", u64::from(printed.page))?;
    text.push_counted(" line ", u64::from(printed.line))?;
    push_told(text, "", printed.bytes.as_slice(), form)
}

/// Adds what the console typed.
pub fn push_typed(text: &mut Text, item: &TypedItem, form: ItemForm) -> Result<(), AllocError>
    ensures { OnOk result (text.new ≡ text.old ++ typed_told form item.now) }
{
    match item {
        TypedItem::Text(line) => push_told(text, "type", line.as_slice(), form),
        TypedItem::Return(line) => push_told(text, "return", line.as_slice(), form),
        TypedItem::Alarm => text.push_text("alarm\n"),
    }
}

/// What has a card of the reader: the stacker to which it was fed, else the hopper.
fn name_of_holder(stacker: Option<ReadStacker>) -> &'static str
    ensures { result.now ≡ holder_name stacker }
{
    match stacker {
        None => "hopper",
        Some(ReadStacker::R1) => "R1",
        Some(ReadStacker::R2) => "R2",
        Some(ReadStacker::Rp3) => "RP3",
    }
}

/// The name of a stacker of the punch.
fn name_of_stacker(stacker: PunchStacker) -> &'static str
    ensures { result.now ≡ stacker_name stacker }
{
    match stacker {
        PunchStacker::P1 => "P1",
        PunchStacker::P2 => "P2",
        PunchStacker::Rp3 => "RP3",
    }
}

/// Adds an item: what or where it is, and its bytes.
fn push_told(text: &mut Text, begun: &str, bytes: &[u8], form: ItemForm) -> Result<(), AllocError>
    ensures { OnOk result (text.new ≡ text.old ++ item_told form begun.now bytes.now) }
{
    text.push_text(begun)?;
    match form {
        ItemForm::OnItsLine => {
            push_signs_behind(text, bytes)?;
            text.push_text("\n")
        }
        ItemForm::InRows => push_below(text, bytes),
    }
}
