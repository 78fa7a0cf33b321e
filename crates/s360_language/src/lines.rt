//! Reads a line by a table of lines: each has its name, the kinds of its arguments, and what it makes of them.
ghost use Rattle.std.specs.Prelude.{◌≡◌, if◌then◌else◌, length, nat_lt};
ghost use Rattle.s360_language.specs.Lines.{begins, if_known, longest_line, makes};
ghost use Rattle.s360_language.specs.Words.{words_of};

use crate::command::LineFault;
use crate::words::Words;

/// A line has at most so many bytes.
pub const LONGEST_LINE: usize = 1024;

/// Reads words as the line of a table that the first of them names, which has this number. Behind its name a line has the
/// kinds of its arguments and what it makes of them, which ends with this function, or in brackets what reads the words.
/// No such line is this fault.
#[macro_export]
macro_rules! read_line {
    ($words:ident, $number:expr, $end:ident, $fault:expr;
     $($name:literal $([$reading:expr])? $(($($kinds:tt)*) => $made:expr)?;)*) => {
        match $words.next_word() {
            $(Some(name) if $crate::is_word(name, $name) => {
                $($reading)?
                $($crate::read_arguments!($words, $number + 1, $end, ($($kinds)*) => $made))?
            })*
            _ => Err($fault),
        }
    };
}

/// Reads words as arguments of these kinds, the first of which has this number. A kind is a function of a word, a count
/// with a value for a word that is missing, or in brackets a function that reads words and says the number of the next one.
#[macro_export]
macro_rules! read_arguments {
    ($words:ident, $number:expr, $end:ident, () => $made:expr) => {
        $end($words, $number, $made)
    };
    ($words:ident, $number:expr, $end:ident,
     ($value:ident: [$part:ident] $(, $($kinds:tt)*)?) => $made:expr) => {{
        let ($value, next) = $part(&mut $words, $number)?;
        $crate::read_arguments!($words, next, $end, ($($($kinds)*)?) => $made)
    }};
    ($words:ident, $number:expr, $end:ident,
     ($value:ident: count_in ($most:expr) or $otherwise:expr $(, $($kinds:tt)*)?) => $made:expr) => {{
        let $value = $crate::next_count_or(&mut $words, $number, $most, $otherwise)?;
        $crate::read_arguments!($words, $number + 1, $end, ($($($kinds)*)?) => $made)
    }};
    ($words:ident, $number:expr, $end:ident,
     ($value:ident: $kind:ident $(($most:expr))? $(, $($kinds:tt)*)?) => $made:expr) => {{
        let word = $words.next_word().ok_or(LineFault::Argument($number))?;
        let $value = $kind(word $(, $most)?).ok_or(LineFault::Argument($number))?;
        $crate::read_arguments!($words, $number + 1, $end, ($($($kinds)*)?) => $made)
    }};
}

/// The value that a word says, among words that each say one; that of any other word is this.
#[macro_export]
macro_rules! read_word {
    ($word:ident, $other:expr; $($name:literal => $value:expr;)*) => {
        $(if $crate::is_word($word, $name) { Some($value) } else)* { $other }
    };
}

/// The words of a line, unless it is too long.
pub fn words_in(line: &[u8]) -> Result<Words<'_>, LineFault>
    ensures { result ≡ (if nat_lt longest_line (length line.now) then Err LineFault.LineTooLong else Ok (words_of line.now)) }
{
    if line.len() > LONGEST_LINE {
        return Err(LineFault::LineTooLong);
    }
    Ok(Words::new(line))
}

/// What a line made, if no word is left; the word of this number is too many.
pub fn finish<C: Drop>(mut words: Words<'_>, number: u8, made: C) -> Result<C, LineFault>
    ensures { result ≡ makes made number words.entry }
{
    match words.next_word() {
        Some(_) => Err(LineFault::Argument(number)),
        None => Ok(made),
    }
}

/// What a part of a line made, and the number of the next word.
pub fn go_on<C>(_words: &mut Words<'_>, number: u8, made: C) -> Result<(C, u8), LineFault>
    ensures made { result ≡ begins made number _words.old }
    ensures rest { _words.new ≡ _words.old }
{
    Ok((made, number))
}

/// The reading of a line in a language beside that of scripts: nothing of one that it does not know, or is too long.
pub fn if_known<C>(reading: Result<C, LineFault>) -> Option<Result<C, LineFault>>
    ensures { result ≡ if_known reading }
{
    match reading {
        Err(LineFault::LineTooLong | LineFault::Unknown) => None,
        reading => Some(reading),
    }
}
