//! Lists of session calls. The contract of `run_calls` is what the whole stands for: after any list of
//! calls, whatever each answered, the machine is its start with the standing events run again, none of
//! which is refused on the way.
ghost use Rattle.std.specs.Prelude.{◌≡◌, ◌≤◌, IfOk, OnErr};
ghost use Rattle.s360_machine.specs.Machine.{seen};
ghost use Rattle.s360_journal.specs.Rerun.{rerun, AreAccepted};
ghost use Rattle.s360_journal.specs.Calls.{IsAnswer, IsRun, events_after_calls, new_session};
ghost use Rattle.s360_journal.specs.Recorded.{Recorded as State};
ghost use Rattle.s360_journal.specs.declared.calls.Call.TheVariants.{Run};

use crate::breaks::Breaks;
use crate::report::Report;
use crate::running::{Pause, Reach, Turn};
use crate::session::{NothingStands, Session};
use crate::withdrawing::Withdrawal;
use s360_machine::{Event, Machine, Refusal};
use s360_store::Place;
use std::alloc::{AllocError, Global};
use std::collections::VecDeque;

/// A call of a session.
#[derive(Drop)]
pub enum Call {
    /// `Session::forward`
    Forward(Event),
    /// `Session::advance`
    Advance(Event),
    /// `Session::preview`
    Preview(Event),
    /// `Session::run`
    Run(Breaks, Turn, Reach, u32),
    /// `Session::back`
    Back,
    /// `Session::step_back`
    StepBack,
    /// `Session::run_back`
    RunBack(Breaks, Reach, u32),
    /// `Session::back_until`
    BackUntil(Breaks),
    /// `Session::back_to`
    BackTo(u32),
    /// `Session::again`
    Again,
    /// `Session::again_to`
    AgainTo(u32),
    /// `Session::withdraw`
    Withdraw(u32),
    /// `Session::standing`
    Standing,
    /// `Session::recorded`
    Recorded,
    /// `Session::last_change`
    LastChange(Place),
}

/// What a call answered.
#[derive(Drop)]
pub enum Answer {
    /// Of `Session::forward`.
    Forwarded(Result<Report, Refusal>),
    /// Of `Session::advance`.
    Advanced(Result<(), Refusal>),
    /// Of `Session::preview`.
    Previewed(Result<Report, Refusal>),
    /// Of `Session::run`, with the number of events that were accepted.
    Ran {
        accepted: u32,
        end: Result<Pause, AllocError>,
    },
    /// Of `Session::back`.
    TookBack(Result<Event, NothingStands>),
    /// Of `Session::step_back`.
    SteppedBack(Result<(), NothingStands>),
    /// Of `Session::run_back`, with the number of changes that stand then.
    RanBack {
        standing: u32,
        why: Pause,
    },
    /// Of `Session::back_until` and `Session::back_to`.
    WentBack(u32),
    /// Of `Session::again`.
    RanAgain(Result<bool, AllocError>),
    /// Of `Session::again_to`.
    WentOn(Result<u32, AllocError>),
    /// Of `Session::withdraw`.
    Withdrew(Result<(), Withdrawal>),
    /// Of `Session::standing`.
    Stands(u32),
    /// Of `Session::recorded`.
    AreRecorded(u32),
    /// Of `Session::last_change`.
    LastChanged(Option<u32>),
}

/// What a list of calls leaves.
#[derive(Drop)]
pub struct Outcome {
    /// Each call's answer, in their order.
    pub answers: Vec<Answer>,
    /// The machine after all of them.
    pub machine: Machine,
}

impl Session {
    /// One call.
    pub fn perform(&mut self, call: Call) -> Answer
        ensures { IsAnswer self.old call result self.new }
    {
        match call {
            Call::Forward(event) => Answer::Forwarded(self.forward(event)),
            Call::Advance(event) => Answer::Advanced(self.advance(event)),
            Call::Preview(event) => Answer::Previewed(self.preview(event)),
            Call::Run(breaks, turn, reach, most) => self.perform_run(&breaks, turn, reach, most),
            Call::Back => Answer::TookBack(self.back()),
            Call::StepBack => Answer::SteppedBack(self.step_back()),
            Call::RunBack(breaks, reach, most) => {
                let why = self.run_back(&breaks, reach, most);
                Answer::RanBack {
                    standing: self.standing(),
                    why,
                }
            }
            Call::BackUntil(breaks) => Answer::WentBack(self.back_until(&breaks)),
            Call::BackTo(number) => Answer::WentBack(self.back_to(number)),
            Call::Again => Answer::RanAgain(self.again()),
            Call::AgainTo(number) => Answer::WentOn(self.again_to(number)),
            Call::Withdraw(number) => Answer::Withdrew(self.withdraw(number)),
            Call::Standing => Answer::Stands(self.standing()),
            Call::Recorded => Answer::AreRecorded(self.recorded()),
            Call::LastChange(place) => Answer::LastChanged(self.last_change(place)),
        }
    }

    /// A run, of which the accepted events are counted.
    fn perform_run(&mut self, breaks: &Breaks, turn: Turn, reach: Reach, most: u32) -> Answer
        ensures { IsAnswer self.old (Run breaks.now turn reach most) result self.new }
    {
        let before = self.standing();
        let end = self.run(breaks, turn, reach, most);
        let accepted = self.standing() - before;
        Answer::Ran { accepted, end }
    }

    /// Calls one after another. Want of memory for their answers leaves the session as it was.
    pub fn perform_all(&mut self, calls: Vec<Call>) -> Result<Vec<Answer>, AllocError>
        ensures run { IfOk result (λ answers. IsRun self.old calls.items answers.items self.new) }
        ensures err { OnErr result (self.new ≡ self.old) }
    {
        let mut answers = Vec::with_capacity(self.allocator(), calls.len())?;
        let mut left = VecDeque::from(calls);
        while let Some(call) = left.pop_front() {
            answers.push_reserved(self.perform(call));
        }
        Ok(answers)
    }
}

/// Runs calls one after another in a session that starts at the machine. The machine afterwards is the
/// start with the standing events run again, none of which is refused on the way, and each answer is
/// one that its call may give.
pub fn run_calls(
    alloc: Global,
    start: Machine,
    limit: u32,
    calls: Vec<Call>,
) -> Result<Outcome, AllocError>
    requires { limit ≤ 10000000 }
    ensures machine { IfOk result (λ o. seen o.machine.whole ≡ rerun (seen start.whole) (events_after_calls start.whole limit calls.items o.answers.items)) }
    ensures accepted { IfOk result (λ o. AreAccepted (seen start.whole) (events_after_calls start.whole limit calls.items o.answers.items)) }
    ensures answers { IfOk result (λ o. (end : State) × IsRun (new_session start.whole limit) calls.items o.answers.items end) }
{
    let mut session = Session::new(alloc, start, limit);
    let answers = session.perform_all(calls)?;
    Ok(Outcome {
        answers,
        machine: session.into_machine(),
    })
}
