//! A change that is withdrawn from among those that stand. The later ones are run again without it.
ghost use Rattle.std.specs.Prelude.{◌≡◌, ◌<◌, ◌≤◌, ◌+◌, None, true, length, reverse, Err, IfOk, IsOkUnless, OnErr, OnOk};
ghost use Rattle.std.specs.Bool.{MatchBool};
ghost use Rattle.s360_machine.specs.Machine.{seen, storage_size};
ghost use Rattle.s360_machine.specs.Refusals.{refusal_of};
ghost use Rattle.s360_journal.specs.Offers.{with_events};
ghost use Rattle.s360_journal.specs.Recorded.{IsAlone, StaysAlone, session_of, standing_events, without_change};
ghost use Rattle.s360_journal.specs.Standing.{IsAfter};
ghost use Rattle.s360_journal.specs.Withdrawals.{AreAllowed, is_standing, without_event};
ghost use Rattle.s360_journal.specs.declared.withdrawing.Withdrawal.TheVariants.{Memory, NoSuchChange};

use crate::session::Session;
use crate::timeline::Timeline;
use s360_machine::{Event, Refusal};
use std::alloc::AllocError;
use thiserror::Error;

/// Why no change was withdrawn.
#[derive(Clone, Copy, Debug, PartialEq, Eq, Error)]
pub enum Withdrawal {
    /// No change of this number stands.
    #[error("no such change")]
    NoSuchChange,
    /// A growth was refused.
    #[error("out of memory")]
    Memory,
}

impl From<AllocError> for Withdrawal {
    ghost from_gives = { λ _ e. e ≡ Memory };

    fn from(_e: AllocError) -> Withdrawal {
        Withdrawal::Memory
    }
}

impl Session {
    /// Takes back all changes after the one of a number, and answers their events, the last of them first.
    fn take_back_to(&mut self, number: u32) -> Result<Timeline, AllocError>
        requires alone { IsAlone self.old }
        requires stands { number ≤ self.old.standing }
        ensures ok { IfOk result (λ later. session_of self.old ≡ with_events (session_of self.new) (reverse later.standing)) }
        ensures kept { OnOk result (self.new.standing ≡ number) }
        ensures alone { StaysAlone self.old self.new }
    {
        let mut later = Timeline::new(self.allocator());
        while self.standing() > number {
            if let Ok(event) = self.back() {
                later.reserve(&event)?;
                later.push(event);
            }
        }
        Ok(later)
    }

    /// Runs an event again that storage of the start's size does not refuse.
    fn run_again(&mut self, event: Event) -> Result<(), AllocError>
        requires alone { IsAlone self.old }
        requires allowed { refusal_of (storage_size (seen self.old.start)) event ≡ None }
        requires room { self.old.standing < self.old.limit }
        ensures stands { OnOk result (IsAfter (session_of self.new) (session_of self.old) event) }
        ensures alone { StaysAlone self.old self.new }
    {
        match self.advance(event) {
            Ok(()) => Ok(()),
            Err(Refusal::Memory) => Err(AllocError),
            Err(_) => unreachable!(),
        }
    }

    /// Runs events again, which are given with the last of them first.
    fn run_all_again(&mut self, mut later: Timeline) -> Result<(), AllocError>
        requires alone { IsAlone self.old }
        requires allowed { AreAllowed (storage_size (seen self.old.start)) later.standing }
        requires room { self.old.standing + length later.standing ≤ self.old.limit }
        ensures stands { OnOk result (session_of self.new ≡ with_events (session_of self.old) (reverse later.standing)) }
        ensures alone { StaysAlone self.old self.new }
    {
        while let Some(event) = later.take_last() {
            self.run_again(event)?;
        }
        Ok(())
    }

    /// Takes a change and the later ones back, and runs the events of these again.
    fn leave_out(&mut self, number: u32) -> Result<(), AllocError>
        requires stands { is_standing number (standing_events self.old) ≡ true }
        requires recorded { self.old.standing ≤ length self.old.events }
        requires few { length self.old.events ≤ self.old.limit }
        requires allowed { AreAllowed (storage_size (seen self.old.start)) (standing_events self.old) }
        ensures { OnOk result (self.new ≡ without_change self.old number) }
    {
        self.cut();
        let later = self.take_back_to(number)?;
        let _withdrawn = self.back();
        self.run_all_again(later)
    }

    /// The session in which all changes stand but one.
    fn without(&self, number: u32) -> Result<Session, AllocError>
        requires stands { is_standing number (standing_events self.now) ≡ true }
        requires recorded { self.now.standing ≤ length self.now.events }
        requires few { length self.now.events ≤ self.now.limit }
        requires allowed { AreAllowed (storage_size (seen self.now.start)) (standing_events self.now) }
        ensures { IfOk result (λ session. session ≡ without_change self.now number) }
    {
        let mut other = self.copy()?;
        other.leave_out(number)?;
        Ok(other)
    }

    /// Withdraws a change, counted from 1: the session is as if its event had never been, and what does not stand is dropped
    /// from the record. Each later change has a number that is lower by one. Want of memory changes nothing.
    pub fn withdraw(&mut self, number: u32) -> Result<(), Withdrawal>
        ensures ok { OnOk result (self.new ≡ without_change self.old number) }
        ensures stands { OnOk result (session_of self.new ≡ record (session_of self.old) { events = without_event number (standing_events self.old) }) }
        ensures err { OnErr result (self.new ≡ self.old) }
        ensures refused { MatchBool (is_standing number (standing_events self.old)) (IsOkUnless result Memory) (result ≡ Err NoSuchChange) }
    {
        if !self.stands(number) {
            return Err(Withdrawal::NoSuchChange);
        }
        *self = self.without(number)?;
        Ok(())
    }
}
