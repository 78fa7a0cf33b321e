//! The fields of a request: numbers, words, bytes, threads, and what parts them.
ghost use Rattle.std.specs.Prelude.{◌≡◌, ◌<◌, ◌↔◌, MatchOption, MatchResult, IfSome, IsTrue, length};
ghost use Rattle.std.specs.Prelude.{nat_eq};
ghost use Rattle.std.specs.List.{position, AllPass};
ghost use Rattle.hex.specs.Hex.{is_hex_digit};
ghost use Rattle.s360_packet.specs.Requests.{behind, parted, number_in, word_in, two_numbers};
ghost use Rattle.s360_packet.specs.Requests.{bytes_in, thread_in, is_text, ReadsBytes};

use crate::request::{Payload, RequestFault, Thread};
use hex::FromHexError;
use s360_text::number_in;
use std::alloc::Global;

/// A number has at most so many digits, and a word has just so many.
const DIGITS: usize = 8;

/// Whether a text is this one.
pub(crate) fn is(text: &[u8], name: &str) -> bool
    ensures { result ≡ is_text text.now name.now }
{
    text == name.as_bytes()
}

/// What stands behind a name with which a text begins.
pub(crate) fn behind<'a>(text: &'a [u8], name: &str) -> Option<&'a [u8]>
    ensures { MatchOption result (behind name.now text.now ≡ None) (λ rest. behind name.now text.now ≡ Some rest.now) }
{
    text.strip_prefix(name.as_bytes())
}

/// What stands before and after the first such byte.
pub(crate) fn parted(text: &[u8], separator: u8) -> Result<(&[u8], &[u8]), RequestFault>
    ensures { MatchResult result (λ parts. parted separator text.now ≡ Ok (parts.0.now, parts.1.now)) (λ fault. parted separator text.now ≡ Err fault) }
{
    match first(text, separator) {
        Some(at) => Ok((&text[..at], &text[at + 1..])),
        None => Err(RequestFault::Malformed),
    }
}

/// Where the first such byte stands.
fn first(text: &[u8], separator: u8) -> Option<usize>
    ensures place { result ≡ position (λ b. nat_eq b separator) text.now }
    ensures within { IfSome result (λ at. at < length text.now) }
{
    text.iter().position(|byte| *byte == separator)
}

/// A number.
pub(crate) fn number(text: &[u8]) -> Result<u32, RequestFault>
    ensures { result ≡ number_in text.now }
{
    match number_in(16, text, DIGITS) {
        Some(number) => Ok(number as u32),
        None => Err(RequestFault::Malformed),
    }
}

/// A word, in just eight digits.
pub(crate) fn word(text: &[u8]) -> Result<u32, RequestFault>
    ensures { result ≡ word_in text.now }
{
    if text.len() != DIGITS {
        return Err(RequestFault::Malformed);
    }
    number(text)
}

/// Two numbers, parted by `,`.
pub(crate) fn two_numbers(text: &[u8]) -> Result<(u32, u32), RequestFault>
    ensures { result ≡ two_numbers text.now }
{
    let (first, second) = parted(text, b',')?;
    let first = number(first)?;
    let second = number(second)?;
    Ok((first, second))
}

/// A thread.
pub(crate) fn thread(text: &[u8]) -> Result<Thread, RequestFault>
    ensures { result ≡ thread_in text.now }
{
    if is(text, "-1") {
        return Ok(Thread::Every);
    }
    let number = number(text)?;
    Ok(if number == 0 {
        Thread::Any
    } else {
        Thread::Numbered(number)
    })
}

/// Bytes, in two digits each.
pub(crate) fn bytes(alloc: Global, text: &[u8]) -> Result<Payload, RequestFault>
    ensures { ReadsBytes (bytes_in text.now) result }
{
    if text.len() % 2 == 1 {
        return Err(RequestFault::Malformed);
    }
    if !are_digits(text) {
        return Err(RequestFault::Malformed);
    }
    match hex::decode(alloc, text) {
        Ok(bytes) => Ok(Payload::new(bytes)),
        Err(FromHexError::OutOfMemory) => Err(RequestFault::Memory),
        Err(_) => Err(RequestFault::Malformed),
    }
}

/// Whether each byte is a hexadecimal digit.
fn are_digits(text: &[u8]) -> bool
    ensures { IsTrue result ↔ AllPass is_hex_digit text.now }
{
    text.iter().all(|byte| is_digit(*byte))
}

/// Whether a byte is a hexadecimal digit.
fn is_digit(byte: u8) -> bool
    ensures { result ≡ is_hex_digit byte }
{
    matches!(byte, b'0'..=b'9' | b'A'..=b'F' | b'a'..=b'f')
}
