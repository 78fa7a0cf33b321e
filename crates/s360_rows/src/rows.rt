//! Rows of text, each a question, an arrow and the answer, or a question alone that is answered nothing. All numbers are
//! hexadecimal. A row that begins with an asterisk says what the rows below it are.
ghost use Rattle.std.specs.Prelude.{◌<◌};

use crate::fault::Fault;
use s360_word::ProtectionKey;
use std::alloc::Global;
use std::process::Abort;

/// The words of a question that are left, and whether each word so far was what was asked for.
#[derive(Drop)]
pub(crate) struct Words<'a> {
    left: Option<&'a str>,
    are_read: bool,
}

impl<'a> Words<'a> {
    /// The words of a text, between blanks.
    fn new(text: &'a str) -> Words<'a> {
        Words {
            left: Some(text),
            are_read: true,
        }
    }

    /// The next word, or an empty one.
    pub(crate) fn next_word(&mut self) -> &'a str {
        let Some(left) = self.left else {
            self.are_read = false;
            return "";
        };
        match left.split_once(" ") {
            Some((word, others)) => {
                self.left = Some(others);
                word
            }
            None => {
                self.left = None;
                left
            }
        }
    }

    /// All words that are left, which are then read.
    pub(crate) fn rest(&mut self) -> &'a str {
        let Some(left) = self.left else {
            return "";
        };
        self.left = None;
        left
    }

    /// The next word as a number, or 0.
    pub(crate) fn number(&mut self) -> u64 {
        match number(self.next_word()) {
            Some(number) => number,
            None => {
                self.are_read = false;
                0
            }
        }
    }

    /// The next word as a number below a bound, or 0.
    pub(crate) fn below(&mut self, bound: u64) -> u64
        requires { 0 < bound }
        ensures { result < bound }
    {
        let number = self.number();
        if number < bound {
            number
        } else {
            self.are_read = false;
            0
        }
    }

    /// The next word as a number of 32 bits, or 0.
    pub(crate) fn word(&mut self) -> u32 {
        self.below(0x1_0000_0000) as u32
    }

    /// The next word as a key, or 0.
    pub(crate) fn key(&mut self) -> ProtectionKey {
        ProtectionKey::new(self.below(16) as u8)
    }

    /// Whether each word was what was asked for, and none is left.
    fn are_all_read(self) -> bool {
        self.are_read && self.left.is_none()
    }
}

/// The number of hexadecimal digits.
fn number(digits: &str) -> Option<u64> {
    u64::from_str_radix(digits, 16).ok()
}

/// What the rows of a table are asked of.
pub(crate) trait Subject {
    /// The answer to the words of a question.
    fn answer(&mut self, alloc: Global, words: &mut Words<'_>) -> Result<String, Fault>;
}

/// What is wrong with a row, or an empty text.
fn fault_of_row<S: Subject>(alloc: Global, subject: &mut S, row: &str) -> Result<String, Fault> {
    if row.is_empty() || row.starts_with("*") {
        return Ok(String::new(alloc));
    }
    let (asked, wanted) = row.split_once(" -> ").unwrap_or((row, ""));
    let mut words = Words::new(asked);
    let found = subject.answer(alloc, &mut words)?;
    if words.are_all_read() && found.as_str() == wanted {
        return Ok(String::new(alloc));
    }
    Ok(format!(in alloc; "{asked} -> {wanted}: found {found}")?)
}

/// What is wrong with the first row whose question has another answer, or an empty text.
pub(crate) fn fault_of_rows<S: Subject>(
    alloc: Global,
    subject: &mut S,
    rows: &str,
) -> Result<String, Fault> {
    for row in rows.lines() {
        let fault = fault_of_row(alloc, subject, row)?;
        if !fault.is_empty() {
            return Ok(fault);
        }
    }
    Ok(String::new(alloc))
}

/// Asserts that nothing is wrong.
pub(crate) fn assert_no_fault(rt: &impl Abort, fault: Result<String, Fault>) {
    let fault = fault.expect(rt, "no answer");
    assert!(rt; fault.is_empty(), "{fault}");
}
