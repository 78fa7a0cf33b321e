//! The lines of a script.
ghost use Rattle.std.specs.Prelude.{◌≡◌, ◌∷◌, [], MatchOption, nat_eq};
ghost use Rattle.std.specs.List.{position, list_all};
ghost use Rattle.s360_debug.specs.Lines.{lines_of, without_return, is_skipped};
ghost use Rattle.s360_debug.specs.LinesLeft.{lines_left};

use std::marker::Model;

/// The lines of a script that are left, which a contract sees as their list.
#[derive(Drop)]
pub(crate) struct Lines<'a> {
    rest: Option<&'a [u8]>,
}

impl<'a> Model for Lines<'a> {
    ghost use Rattle.std.specs.Prelude.{List, ℕ};
    ghost use Rattle.std.specs.Option.{option_copied};
    ghost use Rattle.s360_debug.specs.LinesLeft.{lines_left};

    ghost Value = { List (List ℕ) };

    ghost view = { λ l. lines_left (option_copied l.rest) };
}

impl<'a> Lines<'a> {
    /// The lines of a text.
    pub(crate) fn new(text: &'a [u8]) -> Lines<'a>
        ensures { result ≡ lines_of text.now }
    {
        Lines { rest: Some(text) }
    }

    /// The next line without its end, if there is one.
    pub(crate) fn next_line(&mut self) -> Option<&'a [u8]>
        ensures { MatchOption result ((self.old ≡ []) × (self.new ≡ [])) (λ line. self.old ≡ line.now ∷ self.new) }
    {
        let text = self.rest?;
        match first_line_feed(text) {
            Some(end) => {
                self.rest = Some(&text[end + 1..]);
                Some(strip_return(&text[..end]))
            }
            None => {
                self.rest = None;
                Some(text)
            }
        }
    }
}

/// Where the first line feed stands.
fn first_line_feed(text: &[u8]) -> Option<usize>
    ensures { result ≡ position (λ b. nat_eq b 10) text.now }
{
    text.iter().position(|byte| *byte == b'\n')
}

/// A line without one carriage return at its end.
fn strip_return(line: &[u8]) -> &[u8]
    ensures { result.now ≡ without_return line.now }
{
    match line.last() {
        Some(b'\r') => &line[..line.len() - 1],
        _ => line,
    }
}

/// Whether a line is skipped: it is blank, or begins with an asterisk.
pub fn skips(line: &[u8]) -> bool
    ensures { result ≡ is_skipped line.now }
{
    line.first() == Some(&b'*') || is_blank(line)
}

/// Whether a line has blanks alone.
fn is_blank(line: &[u8]) -> bool
    ensures { result ≡ list_all (λ b. nat_eq b 32) line.now }
{
    line.iter().all(|byte| *byte == b' ')
}
