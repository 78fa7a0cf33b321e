//! The lines of an inquiry.
ghost use Rattle.std.specs.Prelude.{◌≡◌, ◌<◌, IfSome, Some, length, nat_eq};
ghost use Rattle.std.specs.List.{position};
ghost use Rattle.std.specs.Option.{option_map};
ghost use Rattle.s360_language.specs.Digits.{count_of};
ghost use Rattle.s360_language.specs.Lines.{makes, may_take, named, part, takes, two};
ghost use Rattle.s360_language.specs.Reading.{address, most_count, places};
ghost use Rattle.s360_inquiry.specs.Reading.{between_both, bytes_between, bytes_from, bytes_from_to, bytes_of, call_code, call_or};
ghost use Rattle.s360_inquiry.specs.Reading.{changes_told, extent_then, inquiries, inquiry_of, item_or};
ghost use Rattle.s360_inquiry.specs.Changes.{most_told};
ghost use Rattle.s360_inquiry.specs.Reading.{mark_of, most_dumped};

use crate::change::MOST_TOLD;
use crate::extent::Extent;
use crate::inquiry::{Detail, Inquiry, Mark};
use crate::why::MOST_DEPTH;
use s360_language::{
    LineFault, MOST_COUNT, Words, address_in, count_in, finish, if_known, next_place,
    read_arguments, read_line, read_word, takes_word, unit_in, words_in,
};
use s360_store::GREATEST_SIZE;
use s360_text::number_in;

/// So many changes are told where no number is given.
const CHANGES: u32 = 10;

/// So deep is a chain of causes followed where no depth is given.
const DEPTH: u32 = 5;

/// The inquiry of a line, or why it is none; nothing of a line that begins with no word of an inquiry, or is too long. It
/// takes no memory.
#[tactic(auto, unfolding(crate::specs::Reading::inquiry_of))]
pub fn read_inquiry(line: &[u8]) -> Option<Result<Inquiry, LineFault>>
    ensures { result ≡ inquiry_of line.now }
{
    match words_in(line) {
        Ok(words) => if_known(read_words(words)),
        Err(_) => None,
    }
}

/// The inquiry of these words, or why they are none.
fn read_words(mut words: Words<'_>) -> Result<Inquiry, LineFault>
    ensures { result ≡ named LineFault.Unknown inquiries 0 words.entry }
{
    read_line! { words, 0, finish, LineFault::Unknown;
        "who" [read_who(words)];
        "why" (place: [next_place], depth: count_in(MOST_DEPTH) or DEPTH) => Inquiry::Why { place, depth, detail: Detail::Brief };
        "why!" (place: [next_place], depth: count_in(MOST_DEPTH) or DEPTH) => Inquiry::Why { place, depth, detail: Detail::Full };
        "goto" (mark: mark_in) => Inquiry::Goto(mark);
        "changes" (place: [next_place], most: count_in(MOST_COUNT) or CHANGES) => Inquiry::Changes { place, most };
        "stores" [read_stores(words)];
        "readers" [read_readers(words)];
        "uses" [read_readers(words)];
        "count" [read_count(words)];
        "history" (most: count_in(MOST_COUNT) or CHANGES) => Inquiry::History { most };
        "visits" [read_visits(words)];
        "jumps" (most: count_in(MOST_TOLD) or CHANGES) => Inquiry::Jumps { most };
        "calls" () => Inquiry::Calls;
        "dump" [read_dump(words)];
        "units" () => Inquiry::Units;
        "where" () => Inquiry::Where;
    }
}

/// `who`, of an item or a place.
fn read_who(mut words: Words<'_>) -> Result<Inquiry, LineFault>
    ensures { result ≡ item_or (λ u n. Inquiry.WhoItem u n) (part places (λ place. makes (Inquiry.Who place))) 1 words.entry }
{
    if takes_word(&mut words, "m") {
        return read_arguments! { words, 2, finish, (unit: unit_in, number: count_in(MOST_COUNT)) => Inquiry::WhoItem { unit, number } };
    }
    read_arguments! { words, 1, finish, (place: [next_place]) => Inquiry::Who(place) }
}

/// `stores`, of bytes of storage or of another place.
fn read_stores(mut words: Words<'_>) -> Result<Inquiry, LineFault>
    ensures { result ≡ extent_then (λ extent. may_take (count_of most_told) changes_told (λ most. makes (Inquiry.Stores extent most))) 1 words.entry }
{
    if takes_word(&mut words, "s") {
        return read_arguments! { words, 2, finish, (extent: bytes_in, most: count_in(MOST_TOLD) or CHANGES) => Inquiry::Stores { extent, most } };
    }
    read_arguments! { words, 1, finish, (place: [next_place], most: count_in(MOST_TOLD) or CHANGES) => Inquiry::Stores { extent: Extent::of(place), most } }
}

/// `readers`, of bytes of storage or of another place.
fn read_readers(mut words: Words<'_>) -> Result<Inquiry, LineFault>
    ensures { result ≡ extent_then (λ extent. may_take (count_of most_told) changes_told (λ most. makes (Inquiry.Readers extent most))) 1 words.entry }
{
    if takes_word(&mut words, "s") {
        return read_arguments! { words, 2, finish, (extent: bytes_in, most: count_in(MOST_TOLD) or CHANGES) => Inquiry::Readers { extent, most } };
    }
    read_arguments! { words, 1, finish, (place: [next_place], most: count_in(MOST_TOLD) or CHANGES) => Inquiry::Readers { extent: Extent::of(place), most } }
}

/// `count`, of bytes of storage or of another place.
fn read_count(mut words: Words<'_>) -> Result<Inquiry, LineFault>
    ensures { result ≡ extent_then (λ extent. makes (Inquiry.Count extent)) 1 words.entry }
{
    if takes_word(&mut words, "s") {
        return read_arguments! { words, 2, finish, (extent: bytes_in) => Inquiry::Count(extent) };
    }
    read_arguments! { words, 1, finish, (place: [next_place]) => Inquiry::Count(Extent::of(place)) }
}

/// `visits`, of a supervisor call or an address.
fn read_visits(mut words: Words<'_>) -> Result<Inquiry, LineFault>
    ensures { result ≡ call_or (takes address (λ at. may_take (count_of most_told) changes_told (λ most. makes (Inquiry.Visits at most)))) 1 words.entry }
{
    if takes_word(&mut words, "svc") {
        return read_arguments! { words, 2, finish, (code: call_code_in, most: count_in(MOST_TOLD) or CHANGES) => Inquiry::SupervisorCalls { code, most } };
    }
    read_arguments! { words, 1, finish, (at: address_in, most: count_in(MOST_TOLD) or CHANGES) => Inquiry::Visits { at, most } }
}

/// The code of a supervisor call: at most two hexadecimal digits.
fn call_code_in(word: &[u8]) -> Option<u8>
    ensures { result ≡ call_code word.now }
{
    let code = number_in(16, word, 2)?;
    Some(code as u8)
}

/// The bytes of a word: of one address, or from one to another, as `388` or `388-38B`.
fn bytes_in(word: &[u8]) -> Option<Extent>
    ensures { result ≡ bytes_of word.now }
{
    match dash_in(word) {
        Some(dash) => bytes_around(word, dash),
        None => bytes_from(word, word),
    }
}

/// Where a word has its first dash.
fn dash_in(word: &[u8]) -> Option<usize>
    ensures found { result ≡ position (λ b. nat_eq b 45) word.now }
    ensures inside { IfSome result (λ dash. dash < length word.now) }
{
    word.iter().position(|byte| *byte == b'-')
}

/// The bytes from the address before a dash to the one behind it.
fn bytes_around(word: &[u8], dash: usize) -> Option<Extent>
    requires { dash < length word.now }
    ensures { result ≡ bytes_from word.now (Some dash) }
{
    bytes_from(&word[..dash], &word[dash + 1..])
}

/// The bytes from one address to another.
fn bytes_from(first: &[u8], last: &[u8]) -> Option<Extent>
    ensures { result ≡ bytes_from_to first.now last.now }
{
    match (address_in(first), address_in(last)) {
        (Some(first), Some(last)) => bytes_between(first, last),
        _ => None,
    }
}

/// The bytes from one address to another that is not lower.
fn bytes_between(first: u32, last: u32) -> Option<Extent>
    ensures { result ≡ bytes_between first last }
{
    if first <= last {
        Some(Extent::Bytes { first, last })
    } else {
        None
    }
}

/// `dump`, of an item or of storage.
fn read_dump(mut words: Words<'_>) -> Result<Inquiry, LineFault>
    ensures { result ≡ item_or (λ u n. Inquiry.DumpItem u n) (two address (count_of most_dumped) (λ at count. Inquiry.Dump at count)) 1 words.entry }
{
    if takes_word(&mut words, "m") {
        return read_arguments! { words, 2, finish, (unit: unit_in, number: count_in(MOST_COUNT)) => Inquiry::DumpItem { unit, number } };
    }
    read_arguments! { words, 1, finish, (at: address_in, count: count_in(GREATEST_SIZE)) => Inquiry::Dump { at, count } }
}

/// The mark of a word.
fn mark_in(word: &[u8]) -> Option<Mark>
    ensures { result ≡ mark_of word.now }
{
    read_word! { word, change_in(word);
        "start" => Mark::Start;
        "end" => Mark::End;
        "last" => Mark::Last;
    }
}

/// The change of a word that is its number.
fn change_in(word: &[u8]) -> Option<Mark>
    ensures { result ≡ option_map (λ number. Mark.Change number) (count_of most_count word.now) }
{
    let number = count_in(word, MOST_COUNT)?;
    Some(Mark::Change(number))
}
