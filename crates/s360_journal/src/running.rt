//! Runs: events one after another, until the machine is to pause; and the way back.
ghost use Rattle.std.specs.Prelude.{◌≡◌, ◌↔◌, ◌<◌, ◌≤◌, ◌+◌, ◌&&◌, ℕ, IfOk, IsTrue, OnOk, OnErr, false, length, max, min, nat_eq, take};
ghost use Rattle.s360_machine.specs.Machine.{seen};
ghost use Rattle.s360_journal.specs.Recorded.{AreRun, IsRunAgain, session_of, standing_events, with_standing};
ghost use Rattle.s360_journal.specs.Returning.{IsTakenBack, back_of, is_cpu_last};
ghost use Rattle.s360_journal.specs.Stops.{stop_of};
ghost use Rattle.s360_machine.specs.declared.event.Event.{Event as AnEvent};
ghost use Rattle.s360_journal.specs.Running.{IsTurn, TellsPause, TellsReached, WhereToStop, next_event, pause_with, run_in};

use crate::breaks::Breaks;
use crate::session::Session;
use s360_machine::{Event, EventKind, Machine, Refusal};
use std::alloc::AllocError;

/// Where a run, or the way back, is to pause.
pub trait Stops {
    // as the rules have it
    ghost stops_of: { Self → WhereToStop };

    /// Whether the CPU operates at a breakpoint.
    fn is_at_stop(&self, machine: &Machine) -> bool
        ensures { result ≡ (stops_of self.now).at (seen machine.now.whole) };

    /// Whether the last change that stands altered what is watched.
    fn is_altered(&self, session: &Session) -> bool
        ensures { result ≡ (stops_of self.now).altered (session_of session.now) };
}

/// Which events a run takes.
#[derive(Clone, Copy, PartialEq, Eq)]
pub enum Turn {
    /// New ones, each the one whose turn it is.
    New,
    /// Those that come next in the record, and at its end new ones.
    Next,
}

/// How far the machine goes where nothing else lets it pause.
#[derive(Clone, Copy, PartialEq, Eq)]
pub enum Reach {
    /// Over one event of the CPU.
    Step,
    /// To a breakpoint.
    Stop,
}

/// Why the machine pauses.
#[derive(Clone, Copy)]
pub enum Pause {
    /// The next event was refused.
    Refused(Refusal),
    /// Nothing is left to do: the event whose turn it was altered nothing.
    Idle,
    /// The last change altered what is watched.
    Watch,
    /// The CPU operates at a breakpoint.
    Break,
    /// An event of the CPU was run, or taken back.
    Stepped,
    /// All that was recorded stands.
    RecordEnd,
    /// Nothing stands.
    RecordStart,
    /// As many events were run, or taken back, as were asked for.
    Done,
}

impl Session {
    /// Runs at most so many events, and answers why the machine pauses. After want of memory some first ones of them stand.
    pub fn run<S: Stops>(
        &mut self,
        stops: &S,
        turn: Turn,
        reach: Reach,
        most: u32,
    ) -> Result<Pause, AllocError>
        ensures end { IfOk result (λ end. end ≡ (run_in (S.stops_of stops.now) turn reach self.old most).why) }
        ensures state { OnOk result (AreRun self.old (run_in (S.stops_of stops.now) turn reach self.old most).events self.new) }
        ensures memory { OnErr result ((n : ℕ) × AreRun self.old (take n (run_in (S.stops_of stops.now) turn reach self.old most).events) self.new) }
    {
        for _event in 0..most {
            if let Some(pause) = self.take_turn(stops, turn, reach)? {
                return Ok(pause);
            }
        }
        Ok(Pause::Done)
    }

    /// Runs the next event, and answers why the machine pauses with it, if it does.
    #[inline(always)]
    fn take_turn<S: Stops>(
        &mut self,
        stops: &S,
        turn: Turn,
        reach: Reach,
    ) -> Result<Option<Pause>, AllocError>
        ensures taken { IfOk result (λ pause. IsTurn (S.stops_of stops.now) turn reach self.old pause self.new) }
        ensures memory { OnErr result (self.new ≡ self.old) }
    {
        if turn == Turn::Next && self.standing() < self.recorded() {
            self.run_next()?;
            return Ok(self.pause_after(stops, reach, true));
        }
        let event = next_event(self.machine());
        match self.advance(event) {
            Ok(()) => Ok(self.pause_after(stops, reach, false)),
            Err(Refusal::Memory) => Err(AllocError),
            Err(refusal) => Ok(Some(Pause::Refused(refusal))),
        }
    }

    /// Why the machine pauses after the last event, which may have been run again, if it does.
    #[inline(always)]
    fn pause_after<S: Stops>(&self, stops: &S, reach: Reach, is_again: bool) -> Option<Pause>
        ensures { TellsPause (S.stops_of stops.now) reach self.now is_again result }
    {
        if !is_again && self.is_idle() {
            return Some(Pause::Idle);
        }
        if stops.is_altered(self) {
            return Some(Pause::Watch);
        }
        pause_with(
            self.is_reached(stops, reach),
            self.is_at_end(is_again),
            reach,
        )
    }

    /// Whether the last event is as far as was asked.
    #[inline(always)]
    fn is_reached<S: Stops>(&self, stops: &S, reach: Reach) -> bool
        ensures { TellsReached (S.stops_of stops.now) reach (session_of self.now) result }
    {
        match reach {
            Reach::Step => self.is_cpu_last(),
            Reach::Stop => stops.is_at_stop(self.machine()),
        }
    }

    /// Whether an event that was run again is the last of the record.
    #[inline(always)]
    fn is_at_end(&self, is_again: bool) -> bool
        ensures { result ≡ (is_again && nat_eq self.now.standing (length self.now.events)) }
    {
        is_again && self.standing() == self.recorded()
    }

    /// Takes at most so many changes back, whose events stay in the record, and answers why the machine pauses. It takes no
    /// memory.
    pub fn run_back<S: Stops>(&mut self, stops: &S, reach: Reach, most: u32) -> Pause
        ensures why { result ≡ (back_of (S.stops_of stops.now) reach self.old most).why }
        ensures state { self.new ≡ with_standing self.old (back_of (S.stops_of stops.now) reach self.old most).standing }
        ensures within { self.new.standing ≤ self.old.standing }
    {
        for _change in 0..most {
            if let Some(pause) = self.take_back(stops, reach) {
                return pause;
            }
        }
        Pause::Done
    }

    /// Takes the last change back, unless the machine is to pause before it, and answers why the machine pauses, if it does.
    #[inline(always)]
    fn take_back<S: Stops>(&mut self, stops: &S, reach: Reach) -> Option<Pause>
        ensures { IsTakenBack (S.stops_of stops.now) reach self.old result self.new }
    {
        if self.standing() == 0 {
            return Some(Pause::RecordStart);
        }
        let is_altered = stops.is_altered(self);
        if is_altered {
            return Some(Pause::Watch);
        }
        match reach {
            Reach::Step => {
                let is_cpu = self.is_cpu_last();
                let _taken = self.step_back();
                is_cpu.then_some(Pause::Stepped)
            }
            Reach::Stop => {
                let _taken = self.step_back();
                stops.is_at_stop(self.machine()).then_some(Pause::Break)
            }
        }
    }

    /// Goes back to a change: takes back all changes after the one of this number, or none if no more stand. Their events stay in
    /// the record. It answers how many stand then. It takes no memory.
    pub fn back_to(&mut self, number: u32) -> u32
        ensures stand { result ≡ min number self.old.standing }
        ensures kept { self.new ≡ with_standing self.old result }
    {
        while self.standing() > number {
            let _taken = self.step_back();
        }
        self.standing()
    }

    /// Goes back to the last stop: to the greatest number of changes, below that which stand, after
    /// which the CPU operates at a breakpoint, else to 0. Their events stay in the record. It answers that number. It takes no
    /// memory.
    pub fn back_until(&mut self, breaks: &Breaks) -> u32
        ensures stop { result ≡ stop_of (seen self.old.start) (standing_events self.old) breaks.now }
        ensures kept { self.new ≡ with_standing self.old result }
        ensures stands { session_of self.new ≡ record (session_of self.old) { events = take result (standing_events self.old) } }
        ensures within { result ≤ self.old.standing }
    {
        let _pause = self.run_back(breaks, Reach::Stop, self.standing());
        self.standing()
    }

    /// Runs the next event of the record again, and answers whether there was one. Want of memory changes nothing.
    pub fn again(&mut self) -> Result<bool, AllocError>
        ensures some { IfOk result (λ ran. IsTrue ran ↔ (self.old.standing < length self.old.events)) }
        ensures event { IfOk result (λ ran. IsTrue ran → (e : AnEvent) × IsRunAgain self.old self.new e) }
        ensures state { OnOk result (self.new ≡ with_standing self.old (min (self.old.standing + 1) (length self.old.events))) }
        ensures err { OnErr result (self.new ≡ self.old) }
    {
        if self.standing() == self.recorded() {
            return Ok(false);
        }
        self.run_next()?;
        Ok(true)
    }

    /// Goes on to a change: runs the recorded events again up to the one of this number, or all if no more are recorded, or
    /// none if as many stand. It answers how many stand then. Want of memory changes nothing.
    pub fn again_to(&mut self, number: u32) -> Result<u32, AllocError>
        ensures stand { IfOk result (λ n. n ≡ max self.old.standing (min number (length self.old.events))) }
        ensures state { IfOk result (λ n. self.new ≡ with_standing self.old n) }
        ensures err { OnErr result (self.new ≡ self.old) }
    {
        let before = self.standing();
        for _at in before..number {
            match self.again() {
                Ok(true) => {}
                Ok(false) => return Ok(self.standing()),
                Err(fault) => {
                    let _stand = self.back_to(before);
                    return Err(fault);
                }
            }
        }
        Ok(self.standing())
    }

    /// Whether the last event that stands is one of the CPU.
    fn is_cpu_last(&self) -> bool
        ensures { result ≡ is_cpu_last (standing_events self.now) }
    {
        matches!(self.last_event(), Some(EventKind::Cpu))
    }
}

/// Why the machine pauses after an event that altered something, but nothing that is watched.
#[inline(always)]
fn pause_with(is_reached: bool, is_end: bool, reach: Reach) -> Option<Pause>
    ensures { result ≡ pause_with false false is_reached is_end reach }
{
    match reach {
        Reach::Step if is_end => Some(Pause::RecordEnd),
        Reach::Step if is_reached => Some(Pause::Stepped),
        Reach::Stop if is_reached => Some(Pause::Break),
        Reach::Stop if is_end => Some(Pause::RecordEnd),
        _ => None,
    }
}

/// The event whose turn it is: the channel event of the lowest active unit, else a CPU event.
#[tactic(auto, unfolding(crate::specs::Running::next_event))]
pub fn next_event(machine: &Machine) -> Event
    ensures { result ≡ next_event (seen machine.now.whole) }
{
    match machine.active_unit() {
        Some(unit) => Event::Channel(unit.unit()),
        None => Event::Cpu,
    }
}
