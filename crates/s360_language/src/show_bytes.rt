//! Bytes as digits and as signs, and in rows.
ghost use Rattle.std.specs.Prelude.{◌≡◌, ◌≤◌, ◌<◌, ◌++◌, OnOk, length, map};
ghost use Rattle.std.specs.List.{suffix_len};
ghost use Rattle.s360_model.specs.Text.{hex_bytes};
ghost use Rattle.s360_language.specs.ShownBytes.{digits_in_word, in_rows, is_blank, sign_of, signs_behind, storage_rows};
ghost use Rattle.s360_language.specs.ShownBytes.{told_row, trimmed, words_of_row};

use crate::names::push_refusal;
use s360_machine::Refusal;
use s360_print::ebcdic_to_ascii;
use s360_store::Storage;
use s360_text::Text;
use std::alloc::AllocError;

/// A row of storage has so many bytes.
pub(crate) const BYTES_A_ROW: usize = 16;

/// A word has so many.
const BYTES_A_WORD: usize = 4;

/// How a row of bytes is told.
#[derive(Clone, Copy)]
pub enum RowForm {
    /// By its digits alone.
    Plain,
    /// By the address of its first byte, and its digits.
    Digits,
    /// By that address, the digits of its words, and its signs.
    Signs,
}

/// Adds bytes of storage, sixteen a row; or the refusal where they are not inside.
pub fn push_storage(
    text: &mut Text,
    storage: &Storage,
    row: RowForm,
    at: u32,
    count: u32,
) -> Result<(), AllocError>
    ensures { OnOk result (text.new ≡ text.old ++ storage_rows row storage.now at count) }
{
    if u64::from(at) + u64::from(count) > u64::from(storage.size()) {
        return push_refusal(text, Refusal::OutsideStorage);
    }
    push_rows(text, row, at, BYTES_A_ROW, storage.bytes(at, count))
}

/// Adds bytes in rows, so many a row. The first byte has an address.
pub(crate) fn push_rows(
    text: &mut Text,
    row: RowForm,
    at: u32,
    size: usize,
    bytes: &[u8],
) -> Result<(), AllocError>
    requires some { 0 < size }
    requires few { size < 256 }
    ensures { OnOk result (text.new ≡ text.old ++ in_rows row at size bytes.now) }
{
    for number in 0..bytes.len().div_ceil(size) {
        let first = number * size;
        let end = bytes.len().min(first + size);
        push_row(text, row, u64::from(at) + first as u64, &bytes[first..end])?;
    }
    Ok(())
}

/// Adds a row of bytes, the first of which has this address.
fn push_row(text: &mut Text, row: RowForm, at: u64, bytes: &[u8]) -> Result<(), AllocError>
    ensures { OnOk result (text.new ≡ text.old ++ told_row row at bytes.now) }
{
    match row {
        RowForm::Plain => {
            push_digits(text, bytes)?;
            text.push_text("\n")
        }
        RowForm::Digits => {
            text.push_hex(at, 6)?;
            text.push_text(" ")?;
            push_digits(text, bytes)?;
            text.push_text("\n")
        }
        RowForm::Signs => {
            text.push_hex(at, 6)?;
            push_words(text, bytes)?;
            text.push_text(" *")?;
            push_signs(text, bytes)?;
            text.push_text("*\n")
        }
    }
}

/// Adds bytes as digits, four a word, each word after a blank.
fn push_words(text: &mut Text, bytes: &[u8]) -> Result<(), AllocError>
    ensures { OnOk result (text.new ≡ text.old ++ words_of_row bytes.now) }
{
    for index in 0..bytes.len() {
        push_in_word(text, index, bytes[index])?;
    }
    Ok(())
}

/// Adds a byte as digits, after a blank where it is the first of a word.
fn push_in_word(text: &mut Text, index: usize, byte: u8) -> Result<(), AllocError>
    ensures { OnOk result (text.new ≡ text.old ++ digits_in_word index byte) }
{
    if index % BYTES_A_WORD == 0 {
        text.push_text(" ")?;
    }
    text.push_hex(u64::from(byte), 2)
}

/// Adds bytes as two digits each.
pub fn push_digits(text: &mut Text, bytes: &[u8]) -> Result<(), AllocError>
    ensures { OnOk result (text.new ≡ text.old ++ hex_bytes bytes.now) }
{
    for byte in bytes {
        text.push_hex(u64::from(*byte), 2)?;
    }
    Ok(())
}

/// Adds the signs of EBCDIC bytes, a period for one that has none.
pub fn push_signs(text: &mut Text, bytes: &[u8]) -> Result<(), AllocError>
    ensures { OnOk result (text.new ≡ text.old ++ map sign_of bytes.now) }
{
    for byte in bytes {
        text.push_byte(sign_of(*byte))?;
    }
    Ok(())
}

/// Adds the signs of a line behind a blank, without the blanks at its end; nothing if it has no other.
pub(crate) fn push_signs_behind(text: &mut Text, line: &[u8]) -> Result<(), AllocError>
    ensures { OnOk result (text.new ≡ text.old ++ signs_behind (trimmed line.now)) }
{
    let line = trimmed(line);
    if line.is_empty() {
        return Ok(());
    }
    text.push_text(" ")?;
    push_signs(text, line)
}

/// A line without the blanks at its end.
pub fn trimmed(line: &[u8]) -> &[u8]
    ensures { result.now ≡ trimmed line.now }
{
    &line[..line.len() - blanks_at_end(line)]
}

/// How many blanks stand at the end of a line.
fn blanks_at_end(line: &[u8]) -> usize
    ensures count { result ≡ suffix_len is_blank line.now }
    ensures within { result ≤ length line.now }
{
    line.iter()
        .rev()
        .take_while(|byte| sign_of(**byte) == b' ')
        .count()
}

/// The sign of an EBCDIC byte, or a period where it has none.
#[tactic(auto, unfolding(crate::specs::ShownBytes::sign_of))]
fn sign_of(byte: u8) -> u8
    ensures { result ≡ sign_of byte }
{
    ebcdic_to_ascii(byte).unwrap_or(b'.')
}
