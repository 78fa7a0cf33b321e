//! The lines of the language of scripts.
ghost use Rattle.std.specs.Prelude.{◌≡◌, ◌≤◌, [], IfSome, take, length, MatchOption, Some, None};
ghost use Rattle.s360_language.specs.Lines.{kind, named, text, two};
ghost use Rattle.s360_language.specs.Reading.{Reads, address, bytes_in, commands, ebcdic_text, patches, reading_of, shows};

use crate::arguments::{
    address_in, bit_in, count_in, doubleword_in, key_in, next_place, register_in, storage_key_in,
    unit_in, word_in,
};
use crate::command::{Command, LineFault, Shown};
use crate::ebcdic::{ebcdic_in, has_ebcdic};
use crate::lines::{LONGEST_LINE, finish, words_in};
use crate::read_line;
use crate::words::{Words, text_behind};
use s360_machine::{Bytes, Key, Patch};
use std::alloc::Global;

/// A line shows at most so many bytes of storage.
const MOST_SHOWN: u32 = 256;

/// The greatest count of events, and number of an item or a change.
pub const MOST_COUNT: u32 = 10_000_000;

/// The command of a line, without its line end. A fault is answered whatever memory there is, and only a
/// line that enters a text or patches storage wants memory. A line of blanks alone is `Unknown`.
#[tactic(auto, unfolding(crate::specs::Reading::reading_of))]
pub fn read_command(alloc: Global, line: &[u8]) -> Result<Command, LineFault>
    ensures { Reads (reading_of line.now) result }
{
    let words = words_in(line)?;
    read_words(alloc, words, text_behind(line))
}

/// The command of these words, behind the first of which a line has this text.
fn read_words(alloc: Global, mut words: Words<'_>, behind: &[u8]) -> Result<Command, LineFault>
    ensures { Reads (named LineFault.Unknown (commands behind.now) 0 words.entry) result }
{
    read_line! { words, 0, finish, LineFault::Unknown;
        "step" () => Command::Step;
        "channel" (unit: unit_in) => Command::Channel(unit);
        "tick" () => Command::Tick;
        "key" (key: key_in) => Command::Key(key);
        "enter" [read_enter(alloc, behind)];
        "load" (unit: unit_in) => Command::Key(Key::Load(unit));
        "patch" [read_patch(alloc, words)];
        "run" (most: count_in(MOST_COUNT)) => Command::Run { most };
        "back" () => Command::Back;
        "until" () => Command::Until;
        "withdraw" (number: count_in(MOST_COUNT)) => Command::Withdraw { number };
        "break" (at: address_in) => Command::Break { at };
        "clear" (at: address_in) => Command::Clear { at };
        "standing" () => Command::Standing;
        "last" (place: [next_place]) => Command::Last(place);
        "show" [read_show(words)];
    }
}

/// `enter TEXT`
fn read_enter(alloc: Global, behind: &[u8]) -> Result<Command, LineFault>
    ensures { Reads (text ebcdic_text behind.now (λ bytes. Command.Key (Key.Enter bytes)) 1 []) result }
{
    if !has_ebcdic(behind) {
        return Err(LineFault::Argument(1));
    }
    let bytes = ebcdic_in(alloc, behind)?;
    Ok(Command::Key(Key::Enter(Bytes::new(bytes))))
}

/// `patch`, by its kind.
fn read_patch(alloc: Global, mut words: Words<'_>) -> Result<Command, LineFault>
    ensures { Reads (kind patches 1 words.entry) result }
{
    read_line! { words, 1, finish, LineFault::Argument(1);
        "s" [read_storage_patch(alloc, words)];
        "r" (register: register_in, word: word_in) => Command::Patch(Patch::Register(register, word));
        "k" (at: address_in, key: storage_key_in) => Command::Patch(Patch::StorageKey { at, key });
        "f" (at: address_in, on: bit_in) => Command::Patch(Patch::FetchBit { at, on });
        "p" (psw: doubleword_in) => Command::Patch(Patch::Psw(psw));
    }
}

/// `patch s A BYTES`
fn read_storage_patch(alloc: Global, mut words: Words<'_>) -> Result<Command, LineFault>
    ensures { Reads (two address bytes_in (λ at bytes. Command.Patch (Patch.Bytes at bytes)) 2 words.entry) result }
{
    let word = words.next_word().ok_or(LineFault::Argument(2))?;
    let at = address_in(word).ok_or(LineFault::Argument(2))?;
    let word = words.next_word().ok_or(LineFault::Argument(3))?;
    let mut buffer = [0u8; LONGEST_LINE / 2];
    let count = decode_bytes(word, &mut buffer).ok_or(LineFault::Argument(3))?;
    finish(words, 4, ())?;
    let bytes = Bytes::new(buffer[..count].to_vec(alloc)?);
    Ok(Command::Patch(Patch::Bytes { at, bytes }))
}

/// `show`, by its kind.
fn read_show(mut words: Words<'_>) -> Result<Command, LineFault>
    ensures { result ≡ kind shows 1 words.entry }
{
    read_line! { words, 1, finish, LineFault::Argument(1);
        "regs" () => Command::Show(Shown::Registers);
        "psw" () => Command::Show(Shown::Psw);
        "s" (at: address_in, count: count_in(MOST_SHOWN)) => Command::Show(Shown::Storage { at, count });
        "k" (at: address_in) => Command::Show(Shown::StorageKey { at });
        "ext" () => Command::Show(Shown::External);
        "u" (unit: unit_in) => Command::Show(Shown::UnitState(unit));
        "d" (unit: unit_in) => Command::Show(Shown::Device(unit));
        "m" (unit: unit_in, number: count_in(MOST_COUNT)) => Command::Show(Shown::Item { unit, number });
        "image" (unit: unit_in) => Command::Show(Shown::Image(unit));
    }
}

/// Decodes a word of two digits a byte into a buffer, and answers the number of bytes.
fn decode_bytes(word: &[u8], buffer: &mut [u8; LONGEST_LINE / 2]) -> Option<usize>
    requires { length word.now ≤ 1024 }
    ensures bytes { MatchOption result (bytes_in word.now ≡ None) (λ n. bytes_in word.now ≡ Some (take n buffer.new)) }
    ensures within { IfSome result (λ n. n ≤ 512) }
{
    if word.is_empty() {
        return None;
    }
    let count = word.len() / 2;
    hex::decode_to_slice(word, &mut buffer[..count]).ok()?;
    Some(count)
}
