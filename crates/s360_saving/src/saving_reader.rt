//! The lines that save.
ghost use Rattle.std.specs.Prelude.{◌≡◌, []};
ghost use Rattle.s360_language.specs.Lines.{judged, text};
ghost use Rattle.s360_saving.specs.Reading.{file_in, medium_of, name_in, named, ranged, saving_of, savings};

use crate::last_words::{before_word, last_word, up_to_word};
use crate::saving::{Medium, Saving};
use s360_device::PunchStacker;
use s360_language::{
    LineFault, MOST_COUNT, Words, behind_word, count_in, from_word, if_known, read_line, read_word,
    words_in,
};

/// What a line asks to be saved, or why it asks for nothing; nothing of a line that begins with no word that saves, or is too
/// long. It takes no memory.
#[tactic(auto, unfolding(crate::specs::Reading::saving_of))]
pub fn read_saving(line: &[u8]) -> Option<Result<Saving<'_>, LineFault>>
    ensures { result ≡ saving_of line.now }
{
    if_known(reading_of(line))
}

/// What a line asks to be saved, or why it asks for nothing.
fn reading_of(line: &[u8]) -> Result<Saving<'_>, LineFault>
    ensures { result ≡ judged (savings (name_in line.now)) line.now }
{
    let mut words = words_in(line)?;
    let name = name_in(line);
    read_line! { words, 0, with_name, LineFault::Unknown;
        "save" (what: medium_in) => Saving { what, name, over: false };
        "save!" (what: medium_in) => Saving { what, name, over: true };
    }
}

/// What is asked, if what is left of the line names a file; else the argument of this number is missing.
fn with_name<'a>(_words: Words<'_>, number: u8, saving: Saving<'a>) -> Result<Saving<'a>, LineFault>
    ensures { result ≡ text (file_in saving.entry.what saving.entry.over) saving.entry.name (λ asked. asked) number [] }
{
    match file_in(saving) {
        Some(saving) => Ok(saving),
        None => Err(LineFault::Argument(number)),
    }
}

/// What is asked, if what is left of the line names a file. Behind that of a trace may stand which changes it has.
fn file_in(saving: Saving<'_>) -> Option<Saving<'_>>
    ensures { result ≡ file_in saving.entry.what saving.entry.over saving.entry.name }
{
    match saving.what {
        Medium::Trace { .. } => {
            let from = count_in(last_word(before_word(saving.name)), MOST_COUNT);
            let to = count_in(last_word(saving.name), MOST_COUNT);
            ranged(saving, from, to)
        }
        _ => named(saving),
    }
}

/// What is asked, if it names a file behind whose name these numbers may stand.
fn ranged(saving: Saving<'_>, from: Option<u32>, to: Option<u32>) -> Option<Saving<'_>>
    ensures { result ≡ ranged saving.entry.what saving.entry.over saving.entry.name from to }
{
    match (from, to) {
        (Some(from), Some(to)) if from <= to => named(Saving {
            what: Medium::Trace { from, to },
            name: up_to_word(before_word(before_word(saving.name))),
            over: saving.over,
        }),
        _ => named(saving),
    }
}

/// What is asked, if the name of its file is not empty.
fn named(saving: Saving<'_>) -> Option<Saving<'_>>
    ensures { result ≡ named saving.entry.what saving.entry.over saving.entry.name }
{
    match saving.name {
        [] => None,
        _ => Some(saving),
    }
}

/// What a word says is saved.
fn medium_in(word: &[u8]) -> Option<Medium>
    ensures { result ≡ medium_of word.now }
{
    read_word! { word, None;
        "printer" => Medium::Printer;
        "punch" => Medium::Punch(None);
        "P1" => Medium::Punch(Some(PunchStacker::P1));
        "P2" => Medium::Punch(Some(PunchStacker::P2));
        "RP3" => Medium::Punch(Some(PunchStacker::Rp3));
        "console" => Medium::Console;
        "tape0" => Medium::Tape0;
        "tape1" => Medium::Tape1;
        "trace" => Medium::Trace { from: 1, to: MOST_COUNT };
    }
}

/// The name of a file: what follows the first two words of a line, from its first byte on that is no blank.
fn name_in(line: &[u8]) -> &[u8]
    ensures { result.now ≡ name_in line.now }
{
    from_word(behind_word(behind_word(line)))
}
