//! The target: a machine whose events are recorded, with the points at which gdb asks it to stop. Source: gdb manual,
//! "Reverse Execution".
ghost use Rattle.std.specs.Prelude.{◌≡◌, ◌≤◌, ℕ, length, IfOk, OnErr, OnOk};
ghost use Rattle.s360_machine.specs.Machine.{seen, storage_size};
ghost use Rattle.s360_journal.specs.Rerun.{AreAccepted};
ghost use Rattle.s360_journal.specs.Standing.{last_of, machine_of};
ghost use Rattle.s360_journal.specs.Recorded.{session_of, standing_events};
ghost use Rattle.s360_remote.specs.Driven.{back_partly, come_to, gone_partly, new_target, noting};
ghost use Rattle.s360_remote.specs.Moving.{altered_if, back_at_once, gone_back, is_at_rest, is_turn_of, resumed, was_in_vain};

use crate::looking::{look_back, look_on};
use crate::points::{BytesMet, Points};
use crate::untold::Untold;
use s360_journal::{Breaks, Pause, Reach, Session, Turn, next_event};
use s360_machine::{Event, EventKind, Machine};
use std::alloc::{AllocError, Global};
use std::marker::Model;

/// So many events are run, or taken back, before gdb is let in: about a third of a second's.
const TURNS: u32 = 300_000;

/// A session and the points at which it stops.
#[derive(Drop)]
pub struct Target {
    pub(crate) session: Session,
    pub(crate) points: Points,
    /// The breakpoints of the script language, which `monitor` sets.
    pub(crate) own_breaks: Breaks,
    /// Where the session stood before the last inquiry that went elsewhere.
    pub(crate) stood: Option<u32>,
    pub(crate) untold: Untold,
    pub(crate) alloc: Global,
}

impl Model for Target {
    ghost use Rattle.s360_remote.specs.Driven.{Driven};

    ghost Value = { Driven };

    ghost view = { λ t. record { recorded = t.session; points = t.points; own = t.own_breaks; stood = t.stood; untold = t.untold } };
}

impl Target {
    /// A target over a session, with no points.
    pub fn new(alloc: Global, session: Session) -> Target
        ensures { result ≡ new_target session }
    {
        Target {
            session,
            points: Points::new(alloc),
            own_breaks: Breaks::new(),
            stood: None,
            untold: Untold::nothing(),
            alloc,
        }
    }

    /// The machine: the start with the standing events run again. None of the record is refused from the start on, or alters the
    /// size of storage.
    pub fn machine(&self) -> &Machine
        ensures rerun { seen result.now.whole ≡ machine_of (session_of self.now.recorded) }
        ensures accepted { AreAccepted (seen self.now.recorded.start) self.now.recorded.events }
        ensures size { storage_size (machine_of (session_of self.now.recorded)) ≡ storage_size (seen self.now.recorded.start) }
    {
        self.session.machine()
    }

    /// Goes on, and answers why the machine pauses. After want of memory some first ones of the events stand.
    pub fn go_on(&mut self, reach: Reach) -> Result<Pause, AllocError>
        ensures pause { IfOk result (λ pause. pause ≡ (resumed self.old.points reach self.old.recorded).why) }
        ensures state { OnOk result (self.new ≡ come_to self.old (resumed self.old.points reach self.old.recorded)) }
        ensures memory { OnErr result ((n : ℕ) × (self.new ≡ gone_partly self.old reach n)) }
    {
        if self.is_at_rest() {
            self.note_altered(Pause::Idle);
            return Ok(Pause::Idle);
        }
        if self.points.wait_for_reads() {
            let paused = look_on(self.alloc, &mut self.session, &self.points, reach)?;
            self.untold.met = paused.met;
            return Ok(paused.why);
        }
        let pause = self.session.run(&self.points, Turn::Next, reach, TURNS)?;
        self.note_altered(pause);
        Ok(pause)
    }

    /// Goes back, and answers why the machine pauses. Where no watch waits for bytes to be read it takes no memory; after want of it
    /// some last ones of the changes are taken back.
    pub fn go_back(&mut self, reach: Reach) -> Result<Pause, AllocError>
        ensures pause { IfOk result (λ pause. pause ≡ (gone_back self.old.points reach self.old.recorded).why) }
        ensures state { OnOk result (self.new ≡ come_to self.old (gone_back self.old.points reach self.old.recorded)) }
        ensures memory { OnErr result ((n : ℕ) × (self.new ≡ back_partly self.old n)) }
    {
        if self.points.wait_for_reads() {
            let paused = look_back(self.alloc, &mut self.session, &self.points, reach)?;
            self.untold.met = paused.met;
            return Ok(paused.why);
        }
        Ok(self.go_back_at_once(reach))
    }

    /// Likewise where no watch waits for bytes to be read.
    fn go_back_at_once(&mut self, reach: Reach) -> Pause
        ensures pause { result ≡ (back_at_once self.old.points reach self.old.recorded).why }
        ensures state { self.new ≡ come_to self.old (back_at_once self.old.points reach self.old.recorded) }
    {
        let pause = self.session.run_back(&self.points, reach, TURNS);
        self.note_altered(pause);
        if let Pause::Watch = pause {
            let _taken = self.session.step_back();
        }
        pause
    }

    /// Notes the watched bytes that the last change altered, if that is why the machine pauses.
    fn note_altered(&mut self, pause: Pause)
        ensures { self.new ≡ noting self.old (altered_if pause self.old.points self.old.recorded) }
    {
        self.untold.met = match pause {
            Pause::Watch => self.points.bytes_altered(&self.session),
            _ => BytesMet::new(),
        };
    }

    /// Whether the event whose turn it is was the last, and altered nothing.
    fn is_at_rest(&self) -> bool
        ensures { result ≡ is_at_rest self.now.recorded }
    {
        self.standing() == self.session.recorded()
            && self.is_last_in_vain()
            && is_turn_of(self.session.last_event(), next_event(self.machine()))
    }

    /// Whether the last change altered nothing, or none stands.
    fn is_last_in_vain(&self) -> bool
        requires { self.now.recorded.standing ≤ length self.now.recorded.events }
        ensures { result ≡ was_in_vain (last_of (standing_events self.now.recorded)) self.now.recorded }
    {
        self.session.is_idle()
    }

    /// The number of changes that stand.
    pub(crate) fn standing(&self) -> u32
        ensures standing { result ≡ self.now.recorded.standing }
        ensures within { result ≤ length self.now.recorded.events }
    {
        self.session.standing()
    }
}

/// Whether an event, of which the kind is known, was the one whose turn it is.
fn is_turn_of(last: Option<EventKind>, next: Event) -> bool
    ensures { result ≡ is_turn_of last next }
{
    match (last, next) {
        (Some(EventKind::Cpu), Event::Cpu) => true,
        (Some(EventKind::Channel(last)), Event::Channel(unit)) => last == unit,
        _ => false,
    }
}
