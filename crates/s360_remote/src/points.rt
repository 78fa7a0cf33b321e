//! Where gdb asks the machine to stop. Source: gdb manual, "Packets", `Z0` to `Z4`.
ghost use Rattle.std.specs.Prelude.{◌≡◌, ◌<◌, ◌+◌, [], ◌≤◌, false, not, drop, length, nat_eq, slice_get, vec_capacity, IfOk, OnErr, OnOk};
ghost use Rattle.std.specs.List.{filter, fold, list_any};
ghost use Rattle.s360_journal.specs.Breakpoints.{has_room_for};
ghost use Rattle.s360_journal.specs.Recorded.{session_of};
ghost use Rattle.s360_machine.specs.Machine.{seen};
ghost use Rattle.s360_condition.specs.Evaluation.{holds};
ghost use Rattle.s360_remote.specs.Points.{is_passed, is_passed_in, no_points, stops_of, target_of, with_break, without_break, without_conditions};
ghost use Rattle.s360_remote.specs.Points.{are_any, bytes_altered, waits_for_reads, with_byte};
ghost use Rattle.s360_remote.specs.Accesses.{with_accessed};
ghost use Rattle.s360_remote.specs.Untold.{watch_of};
ghost use Rattle.s360_remote.specs.Points.{has_byte, has_room_for_watch, is_watched, with_altered, with_watch, without_watch};

use crate::accesses::Accesses;
use crate::readout::Readout;
use crate::watch::Watch;
use arrayvec::ArrayVec;
use s360_condition::Expression;
use s360_journal::{Breaks, Session, Stops};
use s360_machine::Machine;
use s360_packet::{Stop, Watchpoint};
use std::alloc::{AllocError, Global};
use std::marker::Model;

/// So many runs of bytes can be watched.
const MOST: usize = 64;

/// So many bytes can be met: one of each watch altered, and one accessed.
const MOST_MET: usize = 2 * MOST;

/// A watched byte of which gdb is told, and what its watch waits for.
#[derive(Clone, Copy, Default)]
pub(crate) struct Met {
    watchpoint: Watchpoint,
    at: u32,
}

impl Met {
    /// The stop at it.
    pub(crate) fn stop(self) -> Stop
        ensures { result ≡ watch_of self }
    {
        Stop::Watch {
            watchpoint: self.watchpoint,
            at: self.at,
        }
    }
}

/// Watched bytes that one event altered or accessed, one of each watch at most. A contract sees their list.
#[derive(Drop)]
pub struct BytesMet {
    bytes: ArrayVec<Met, MOST_MET>,
}

impl Model for BytesMet {
    ghost use Rattle.std.specs.Prelude.{List};
    ghost use Rattle.s360_remote.specs.declared.points.Met.{Met as ByteMet};

    ghost Value = { List ByteMet };

    ghost view = { λ m. m.bytes.items };
}

impl BytesMet {
    /// None.
    pub(crate) fn new() -> BytesMet
        ensures { result ≡ [] }
    {
        BytesMet {
            bytes: ArrayVec::new(),
        }
    }

    /// Whether there are none.
    pub(crate) fn is_empty(&self) -> bool
        ensures { result ≡ not (are_any self.now) }
    {
        self.bytes.is_empty()
    }

    /// Whether a watch has one of them.
    fn is_in(&self, watch: Watch) -> bool
        ensures { result ≡ list_any (λ b. has_byte watch b.at) self.now }
    {
        self.bytes.as_slice().iter().any(|met| watch.has(met.at))
    }

    /// Adds a byte of a watch that has none of them yet, if there is one.
    fn add(&mut self, watch: Watch, at: Option<u32>)
        requires few { length self.old < 128 }
        requires other { list_any (λ b. has_byte watch b.at) self.old ≡ false }
        ensures bytes { self.new ≡ with_byte self.old watch at }
        ensures few { length self.new ≤ length self.old + 1 }
    {
        if let Some(at) = at {
            self.bytes.push(Met {
                watchpoint: watch.watchpoint,
                at,
            });
        }
    }

    /// Adds the first byte of a watch that the change of this number was the last to alter, if the watch has none of them yet.
    fn add_altered(&mut self, watch: Watch, session: &Session, number: u32)
        requires { length self.old < 128 }
        ensures bytes { self.new ≡ with_altered (session_of session.now) number self.old watch }
        ensures few { length self.new ≤ length self.old + 1 }
    {
        if self.is_in(watch) {
            return;
        }
        self.add(watch, watch.byte_altered(session, number));
    }

    /// Adds the first byte of a watch that an event accesses as the watch waits for, if the watch has none of them yet.
    fn add_accessed(&mut self, watch: Watch, accesses: &Accesses)
        requires { length self.old < 128 }
        ensures bytes { self.new ≡ with_accessed accesses.now self.old watch }
        ensures few { length self.new ≤ length self.old + 1 }
    {
        if self.is_in(watch) {
            return;
        }
        self.add(watch, watch.byte_accessed(accesses));
    }

    /// The first, if there is one.
    pub(crate) fn first(&self) -> Option<Met>
        ensures { result ≡ slice_get self.now 0 }
    {
        self.bytes.as_slice().first().copied()
    }

    /// Takes the first away, if there is one.
    pub(crate) fn take_first(&mut self) -> Option<Met>
        ensures first { result ≡ slice_get self.old 0 }
        ensures others { self.new ≡ drop 1 self.old }
    {
        self.bytes.pop_at(0)
    }

    /// Leaves those out that are no longer watched.
    pub(crate) fn keep_watched(&mut self, points: &Points)
        ensures { self.new ≡ filter (λ b. is_watched points.now.watches b.at) self.old }
    {
        self.bytes.retain(|met| points.is_watched(met.at));
    }
}

/// The conditions of the breakpoint at an address.
#[derive(Drop)]
struct Conditional {
    at: u32,
    conditions: Vec<Expression>,
}

impl Model for Conditional {
    ghost use Rattle.s360_remote.specs.Points.{Conditional as ConditionsAt};

    ghost Value = { ConditionsAt };

    ghost view = { λ c. record { at = c.at; conditions = c.conditions.items } };
}

impl Conditional {
    /// Whether they are of the breakpoint at an address, and none of them holds.
    fn is_passed(&self, target: &Readout<'_>, at: u32) -> bool
        ensures { result ≡ is_passed target.now at self.now }
    {
        self.is_at(at) && !self.has_one_that_holds(target)
    }

    /// Whether they are of the breakpoint at an address.
    fn is_at(&self, at: u32) -> bool
        ensures { result ≡ nat_eq self.now.at at }
    {
        self.at == at
    }

    /// Whether one of them holds.
    fn has_one_that_holds(&self, target: &Readout<'_>) -> bool
        ensures { result ≡ list_any (λ e. holds target.now e) self.now.conditions }
    {
        self.conditions
            .as_slice()
            .iter()
            .any(|condition| condition.holds(target))
    }
}

/// The breakpoints, with the conditions that some have, and the watched bytes. A contract sees both in the order in which they
/// were set.
#[derive(Drop)]
pub struct Points {
    breaks: Breaks,
    conditional: Vec<Conditional>,
    watches: ArrayVec<Watch, MOST>,
}

impl Model for Points {
    ghost use Rattle.s360_remote.specs.Points.{Points as BreaksAndWatches};

    ghost Value = { BreaksAndWatches };

    ghost view = { λ p. record { breaks = p.breaks; conditional = p.conditional.items; watches = p.watches.items } };
}

impl Points {
    /// None. It takes no memory.
    pub fn new(alloc: Global) -> Points
        ensures { result ≡ no_points }
    {
        Points {
            breaks: Breaks::new(),
            conditional: Vec::new(alloc),
            watches: ArrayVec::new(),
        }
    }

    /// Sets a breakpoint without conditions at an address, which may have one. `false`, and nothing changes, if too many others
    /// are set. It takes no memory.
    pub fn add_break(&mut self, at: u32) -> bool
        ensures answer { result ≡ has_room_for self.old.breaks at }
        ensures points { self.new ≡ with_break self.old at [] }
    {
        if !self.breaks.add(at) {
            return false;
        }
        remove_conditions(&mut self.conditional, at);
        true
    }

    /// Likewise with conditions in place of others. Want of memory changes nothing.
    pub fn add_break_if(&mut self, at: u32, conditions: Vec<Expression>) -> Result<bool, AllocError>
        ensures answer { IfOk result (λ set. set ≡ has_room_for self.old.breaks at) }
        ensures points { OnOk result (self.new ≡ with_break self.old at conditions.items) }
        ensures memory { OnErr result (self.new ≡ self.old) }
    {
        self.conditional.reserve(1)?;
        if !self.breaks.add(at) {
            return Ok(false);
        }
        remove_conditions(&mut self.conditional, at);
        if !conditions.is_empty() {
            self.conditional
                .push_reserved(Conditional { at, conditions });
        }
        Ok(true)
    }

    /// Clears the breakpoint at an address, if there is one.
    pub fn remove_break(&mut self, at: u32)
        ensures { self.new ≡ without_break self.old at }
    {
        self.breaks.remove(at);
        remove_conditions(&mut self.conditional, at);
    }

    /// Watches bytes, which may be watched already. `false`, and nothing changes, if too many others are watched.
    pub fn add_watch(&mut self, watch: Watch) -> bool
        ensures answer { result ≡ has_room_for_watch self.old.watches watch }
        ensures points { self.new ≡ record self.old { watches = with_watch self.old.watches watch } }
    {
        if self.watches.as_slice().contains(&watch) {
            return true;
        }
        self.watches.try_push(watch).is_ok()
    }

    /// Watches these bytes no longer.
    pub fn remove_watch(&mut self, watch: Watch)
        ensures { self.new ≡ record self.old { watches = without_watch self.old.watches watch } }
    {
        self.watches.retain(|set| *set != watch);
    }

    /// Whether the breakpoint at the next instruction has conditions of which none holds.
    fn is_passed(&self, machine: &Machine) -> bool
        ensures { result ≡ is_passed_in (seen machine.now.whole) self.now.conditional }
    {
        if self.conditional.is_empty() {
            return false;
        }
        let target = Readout::new(machine);
        let at = machine.psw().instruction_address();
        self.conditional
            .as_slice()
            .iter()
            .any(|set| set.is_passed(&target, at))
    }

    /// Whether a byte is watched.
    fn is_watched(&self, at: u32) -> bool
        ensures { result ≡ is_watched self.now.watches at }
    {
        self.watches.as_slice().iter().any(|watch| watch.has(at))
    }

    /// The watched bytes that the last change altered: the first of each watch that has none of those before.
    pub(crate) fn bytes_altered(&self, session: &Session) -> BytesMet
        ensures bytes { result ≡ bytes_altered (session_of session.now) self.now.watches }
        ensures few { length result ≤ 64 }
    {
        let number = session.standing();
        let mut altered = BytesMet::new();
        for watch in self.watches.as_slice() {
            altered.add_altered(*watch, session, number);
        }
        altered
    }

    /// The watched bytes that an event altered, with those that it accesses as their watches wait for: the first of each watch that
    /// has none of those before.
    pub(crate) fn with_accessed(&self, altered: BytesMet, accesses: &Accesses) -> BytesMet
        requires { length altered ≤ 64 }
        ensures { result ≡ fold (λ told w. with_accessed accesses.now told w) altered self.now.watches }
    {
        let mut met = altered;
        for watch in self.watches.as_slice() {
            met.add_accessed(*watch, accesses);
        }
        met
    }

    /// Whether a watch waits for bytes to be read.
    pub(crate) fn wait_for_reads(&self) -> bool
        ensures { result ≡ waits_for_reads self.now }
    {
        self.watches
            .as_slice()
            .iter()
            .any(|watch| watch.waits_for_reads())
    }
}

impl Stops for Points {
    ghost stops_of = { λ p. stops_of p };

    /// Whether the CPU operates at a breakpoint which has no conditions, or one that holds.
    #[inline(always)]
    fn is_at_stop(&self, machine: &Machine) -> bool {
        self.breaks.is_at_stop(machine) && !self.is_passed(machine)
    }

    /// Whether the last change altered watched bytes.
    #[inline(always)]
    fn is_altered(&self, session: &Session) -> bool {
        !self.watches.is_empty() && !self.bytes_altered(session).is_empty()
    }
}

/// Takes the conditions away that the breakpoint at an address has. It takes no memory, and keeps what there is.
fn remove_conditions(conditional: &mut Vec<Conditional>, at: u32)
    ensures items { conditional.new.items ≡ without_conditions conditional.old.items at }
    ensures bound { length conditional.new.items ≤ length conditional.old.items }
    ensures capacity { vec_capacity conditional.new ≡ vec_capacity conditional.old }
{
    conditional.retain(|set| !set.is_at(at));
}
