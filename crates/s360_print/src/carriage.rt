//! The carriage of the 1403: where it stands on the form, how it moves, and where it is then.
//!
//! Pages and lines are counted from 1. Source: the component description of the 1403. That pages
//! have 66 lines, the lines of the channels and the number after the last page are the own profile.
ghost use Rattle.std.specs.Prelude.{◌≡◌, ◌≤◌};
ghost use Rattle.s360_print.specs.Carriage.{IsCarriageMotion, position_after, passes_end, after_lines, after_skip, line_of_channel};
ghost use Rattle.s360_print.specs.Positions.{first_position, page_after};

use std::marker::Model;

/// Lines of a page.
const LINES: u8 = 66;

/// The line whose reaching or passing tells that the page's end is near.
const END_LINE: u8 = 56;

/// Where the carriage stands.
#[derive(Clone, Copy, PartialEq, Eq)]
pub struct Position {
    page: u32,
    line: u8,
}

impl Model for Position {
    ghost use Rattle.std.specs.Prelude.{◌≤◌};
    ghost use Rattle.s360_print.specs.Positions.{Position as Place};

    ghost Value = { Place };

    ghost view = { λ p. record { page = p.page; line = p.line } };

    ghost invariant = { λ p. (1 ≤ p.page) × ((1 ≤ p.line) × (p.line ≤ 66)) };

    ghost inverse = { λ p. record { page = p.page; line = p.line } };
}

/// How a command moves the carriage.
#[derive(Clone, Copy)]
pub enum CarriageMotion {
    /// So many lines further on, 0 to 3.
    Space(u8),
    /// To the next line that has this channel, 1 to 12.
    Skip(u8),
}

/// The number of the page after a page.
fn page_after(page: u32) -> u32
    requires counted { 1 ≤ page }
    ensures next { result ≡ page_after page }
    ensures counted { 1 ≤ result }
{
    if page == u32::MAX { 1 } else { page + 1 }
}

/// The line of a channel.
fn line_of_channel(channel: u8) -> u8
    requires channel { (1 ≤ channel) × (channel ≤ 12) }
    ensures line { result ≡ line_of_channel channel }
    ensures on_page { (1 ≤ result) × (result ≤ 66) }
{
    5 * channel - 4
}

impl Position {
    /// Line 1 of page 1.
    pub fn new() -> Position
        ensures { result ≡ first_position }
    {
        Position { page: 1, line: 1 }
    }

    /// The page, from 1.
    pub fn page(self) -> u32
        ensures page { result ≡ self.page }
        ensures counted { 1 ≤ result }
    {
        self.page
    }

    /// The line, 1 to 66.
    pub fn line(self) -> u8
        ensures line { result ≡ self.line }
        ensures on_page { (1 ≤ result) × (result ≤ 66) }
    {
        self.line
    }

    /// Where it is so many lines further on.
    fn after_lines(self, lines: u8) -> Position
        requires few { lines ≤ 3 }
        ensures { result ≡ after_lines self lines }
    {
        let line = self.line + lines;
        if line <= LINES {
            Position { line, ..self }
        } else {
            Position {
                page: page_after(self.page),
                line: line - LINES,
            }
        }
    }

    /// Where it is at the next line that has a channel.
    fn after_skip(self, channel: u8) -> Position
        requires channel { (1 ≤ channel) × (channel ≤ 12) }
        ensures { result ≡ after_skip self channel }
    {
        let line = line_of_channel(channel);
        if self.line < line {
            Position { line, ..self }
        } else {
            Position {
                page: page_after(self.page),
                line,
            }
        }
    }

    /// Where it is after a motion.
    pub fn after(self, motion: CarriageMotion) -> Position
        requires motion { IsCarriageMotion motion }
        ensures { result ≡ position_after self motion }
    {
        match motion {
            CarriageMotion::Space(lines) => self.after_lines(lines),
            CarriageMotion::Skip(channel) => self.after_skip(channel),
        }
    }

    /// Whether a motion tells that the page's end is near: a space that reaches or passes line 56.
    pub fn passes_end(self, motion: CarriageMotion) -> bool
        requires motion { IsCarriageMotion motion }
        ensures { result ≡ passes_end self motion }
    {
        match motion {
            CarriageMotion::Space(lines) => self.line < END_LINE && END_LINE <= self.line + lines,
            CarriageMotion::Skip(_) => false,
        }
    }
}
