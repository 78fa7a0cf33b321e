//! The words of a line: what stands between its blanks.
ghost use Rattle.std.specs.Prelude.{◌≡◌, ◌≤◌, ◌+◌, ◌∷◌, [], MatchOption, IfSome, drop, if◌then◌else◌, length, nat_eq, not};
ghost use Rattle.std.specs.List.{position};
ghost use Rattle.s360_language.specs.Lines.{begins_with, is_word};
ghost use Rattle.s360_language.specs.Words.{behind_word, from_word, text_behind, words_of};

use std::marker::Model;

/// The words that are left of a line of at most 1,024 bytes, which a contract sees as their list.
#[derive(Drop)]
pub struct Words<'a> {
    rest: &'a [u8],
}

impl<'a> Model for Words<'a> {
    ghost use Rattle.std.specs.Prelude.{List, ℕ, ◌≤◌, length};
    ghost use Rattle.s360_language.specs.Words.{words_of};

    ghost Value = { List (List ℕ) };

    ghost view = { λ w. words_of w.rest.now };

    ghost invariant = { λ w. length w.rest.now ≤ 1024 };
}

impl<'a> Words<'a> {
    /// The words of a line, which is not too long.
    pub fn new(line: &'a [u8]) -> Words<'a>
        requires { length line.now ≤ 1024 }
        ensures { result ≡ words_of line.now }
    {
        Words { rest: line }
    }

    /// The next word, if there is one.
    pub fn next_word(&mut self) -> Option<&'a [u8]>
        ensures word { MatchOption result ((self.old ≡ []) × (self.new ≡ [])) (λ word. self.old ≡ word.now ∷ self.new) }
        ensures short { IfSome result (λ word. length word.now ≤ 1024) }
    {
        let (word, rest) = split_word(self.rest)?;
        self.rest = rest;
        Some(word)
    }
}

/// Whether the next word is this; then it is taken.
pub fn takes_word(words: &mut Words<'_>, name: &str) -> bool
    ensures taken { result ≡ begins_with name.now words.old }
    ensures rest { words.new ≡ (if begins_with name.now words.old then drop 1 words.old else words.old) }
{
    match split_word(words.rest) {
        Some((word, rest)) if is_word(word, name) => {
            words.rest = rest;
            true
        }
        _ => false,
    }
}

/// Where the first byte stands that is no blank.
fn first_other(line: &[u8]) -> Option<usize>
    ensures { result ≡ position (λ b. not (nat_eq b 32)) line.now }
{
    line.iter().position(|byte| *byte != b' ')
}

/// Where the first blank stands.
fn first_blank(line: &[u8]) -> Option<usize>
    ensures { result ≡ position (λ b. nat_eq b 32) line.now }
{
    line.iter().position(|byte| *byte == b' ')
}

/// The first word of a line, and what follows it.
fn split_word(line: &[u8]) -> Option<(&[u8], &[u8])>
    ensures word { MatchOption result (words_of line.now ≡ []) (λ r. words_of line.now ≡ r.0.now ∷ words_of r.1.now) }
    ensures rest { MatchOption result (behind_word line.now ≡ []) (λ r. behind_word line.now ≡ r.1.now) }
    ensures short { IfSome result (λ r. length r.0.now + length r.1.now ≤ length line.now) }
{
    let start = first_other(line)?;
    let line = &line[start..];
    match first_blank(line) {
        Some(end) => Some(line.split_at(end)),
        None => Some((line, &[])),
    }
}

/// What follows the first word of a line.
pub fn behind_word(line: &[u8]) -> &[u8]
    ensures { result.now ≡ behind_word line.now }
{
    match split_word(line) {
        Some((_, behind)) => behind,
        None => &[],
    }
}

/// A line from its first word on.
pub fn from_word(line: &[u8]) -> &[u8]
    ensures { result.now ≡ from_word line.now }
{
    match first_other(line) {
        Some(at) => &line[at..],
        None => &[],
    }
}

/// The text of a line: what follows its first word and one blank.
pub(crate) fn text_behind(line: &[u8]) -> &[u8]
    ensures { result.now ≡ text_behind line.now }
{
    match behind_word(line) {
        [_, text @ ..] => text,
        [] => &[],
    }
}

/// Whether a word is this one.
pub fn is_word(word: &[u8], name: &str) -> bool
    ensures { result ≡ is_word word.now name.now }
{
    word == name.as_bytes()
}
