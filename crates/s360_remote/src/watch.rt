//! Bytes of storage that are watched. Source: gdb manual, "Setting Watchpoints".
ghost use Rattle.std.specs.Prelude.{◌≡◌, ◌<◌, ◌+◌, ◌^◌, nat_eq, not, SomeIff};
ghost use Rattle.std.specs.List.{range_with_len};
ghost use Rattle.s360_journal.specs.Recorded.{session_of};
ghost use Rattle.s360_remote.specs.Accesses.{byte_accessed};
ghost use Rattle.s360_remote.specs.Points.{byte_altered_by, byte_altered_of, has_byte, is_for_writes, last_change_at};

use crate::accesses::Accesses;
use s360_journal::Session;
use s360_packet::Watchpoint;
use s360_store::Place;
use std::marker::Model;

/// Bytes of storage that are watched, and what the watch of them waits for. Their addresses are below 2^32.
#[derive(Clone, Copy, Default, PartialEq, Eq)]
pub struct Watch {
    pub(crate) watchpoint: Watchpoint,
    at: u32,
    count: u32,
}

impl Model for Watch {
    ghost use Rattle.std.specs.Prelude.{◌<◌, ◌+◌, ◌^◌};
    ghost use Rattle.s360_remote.specs.Points.{Watched};

    ghost Value = { Watched };

    ghost view = { λ w. record { watchpoint = w.watchpoint; at = w.at; count = w.count } };

    ghost invariant = { λ w. w.at + w.count < 2 ^ 32 };

    ghost inverse = { λ w. record { watchpoint = w.watchpoint; at = w.at; count = w.count } };
}

impl Watch {
    /// So many bytes from an address on, if they end within 32 bits.
    pub fn new(watchpoint: Watchpoint, at: u32, count: u32) -> Option<Watch>
        ensures { SomeIff result (at + count < 2 ^ 32) (record { watchpoint = watchpoint; at = at; count = count }) }
    {
        at.checked_add(count)?;
        Some(Watch {
            watchpoint,
            at,
            count,
        })
    }

    /// The address of the first of the bytes that a change of this number was the last to alter.
    fn byte_altered_by(self, session: &Session, number: u32) -> Option<u32>
        ensures { result ≡ byte_altered_by (session_of session.now) (range_with_len self.at self.count) number }
    {
        for at in self.at..self.at + self.count {
            if last_change_at(session, at) == number {
                return Some(at);
            }
        }
        None
    }

    /// Likewise, if the watch waits for that.
    pub(crate) fn byte_altered(self, session: &Session, number: u32) -> Option<u32>
        ensures { result ≡ byte_altered_of (session_of session.now) number self.watchpoint (range_with_len self.at self.count) }
    {
        match self.watchpoint {
            Watchpoint::Write => self.byte_altered_by(session, number),
            Watchpoint::Read | Watchpoint::Access => None,
        }
    }

    /// The address of the first of the bytes that an event accesses as the watch waits for.
    pub(crate) fn byte_accessed(self, accesses: &Accesses) -> Option<u32>
        ensures { result ≡ byte_accessed accesses.now self.watchpoint (range_with_len self.at self.count) }
    {
        for at in self.at..self.at + self.count {
            if accesses.has(self.watchpoint, at) {
                return Some(at);
            }
        }
        None
    }

    /// Whether it waits for bytes to be read.
    pub(crate) fn waits_for_reads(self) -> bool
        ensures { result ≡ not (is_for_writes self.watchpoint) }
    {
        self.watchpoint != Watchpoint::Write
    }

    /// Whether a byte is one of them.
    pub(crate) fn has(self, at: u32) -> bool
        ensures { result ≡ has_byte self at }
    {
        self.at <= at && at < self.at + self.count
    }
}

/// The number of the last change of a byte, 0 if there is none.
fn last_change_at(session: &Session, at: u32) -> u32
    ensures { result ≡ last_change_at (session_of session.now) at }
{
    session.last_change(Place::Byte(at)).unwrap_or(0)
}
