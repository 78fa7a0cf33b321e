//! Going on and going back, and how the pause is told. Source: gdb manual, "Stop Reply Packets", "Reverse Execution".
ghost use Rattle.std.specs.Prelude.{◌≡◌, ◌++◌, drop, IfOk, OnErr, OnOk};
ghost use Rattle.s360_language.specs.Names.{refused_text};
ghost use Rattle.s360_remote.specs.Replies.{Adds, console_packet, end_packets, idle_words_of, stop_packet};
ghost use Rattle.s360_remote.specs.Serving.{HasGoneBack, HasGoneOn, IsResumedBack, IsResumedBegun, IsResumedOn, idle_told, pause_told, told_first};
ghost use Rattle.s360_remote.specs.declared.serving.Then.TheVariants.{GoOn};

use crate::serving::Then;
use crate::target::Target;
use s360_journal::{Pause, Reach};
use s360_language::push_refusal;
use s360_machine::{EventKind, Refusal};
use s360_packet::{Answer, Stop, push_packet};
use s360_text::Text;
use std::alloc::AllocError;

impl Target {
    /// Tells what gdb is still to be told, or goes on and tells why the machine pauses.
    pub(crate) fn resume(&mut self, reach: Reach, replies: &mut Text) -> Result<Then, AllocError>
        ensures served { IfOk result (λ next. Adds (IsResumedOn reach self.old self.new next) replies.old replies.new) }
        ensures begun { OnErr result (IsResumedBegun (told_first self.old) self.old self.new (HasGoneOn reach self.old self.new)) }
    {
        if let Some(stop) = self.untold.take_stop(&self.points) {
            return tell_stop(stop, replies);
        }
        let pause = self.go_on(reach)?;
        self.tell_pause(pause, reach, replies)
    }

    /// Tells what gdb is still to be told, or goes back and tells why the machine pauses.
    pub(crate) fn resume_back(
        &mut self,
        reach: Reach,
        replies: &mut Text,
    ) -> Result<Then, AllocError>
        ensures served { IfOk result (λ next. Adds (IsResumedBack reach self.old self.new next) replies.old replies.new) }
        ensures begun { OnErr result (IsResumedBegun (told_first self.old) self.old self.new (HasGoneBack reach self.old self.new)) }
    {
        if let Some(stop) = self.untold.take_stop(&self.points) {
            return tell_stop(stop, replies);
        }
        let pause = self.go_back(reach)?;
        self.tell_pause(pause, reach, replies)
    }

    /// Tells why the machine pauses. Of watched bytes the first is told, and the others are left to be told.
    fn tell_pause(
        &mut self,
        pause: Pause,
        reach: Reach,
        replies: &mut Text,
    ) -> Result<Then, AllocError>
        ensures state { self.new ≡ record self.old { untold = record self.old.untold { met = drop 1 self.old.untold.met } } }
        ensures next { IfOk result (λ next. next ≡ GoOn) }
        ensures packets { OnOk result (replies.new ≡ replies.old ++ pause_told reach self.old pause) }
    {
        let pushed = self.push_pause(pause, reach, replies);
        let _told = self.untold.met.take_first();
        pushed?;
        Ok(Then::GoOn)
    }

    /// Adds what tells why the machine pauses. If nothing is left to do, or an event was refused, a text says so before the stop.
    fn push_pause(&self, pause: Pause, reach: Reach, replies: &mut Text) -> Result<(), AllocError>
        ensures { OnOk result (replies.new ≡ replies.old ++ pause_told reach self.now pause) }
    {
        match pause {
            Pause::Refused(refusal) => {
                self.tell_refusal(refusal, replies)?;
                push_packet(replies, Answer::Stopped(Stop::Quiet))
            }
            Pause::Idle => {
                self.tell_idle(replies)?;
                push_packet(replies, Answer::Stopped(Stop::Quiet))
            }
            Pause::Break | Pause::Done => push_packet(replies, Answer::Stopped(Stop::Breakpoint)),
            Pause::RecordEnd => push_end(
                reach,
                "end of what was recorded\n",
                Stop::HistoryEnd,
                replies,
            ),
            Pause::RecordStart => push_end(
                reach,
                "start of what was recorded\n",
                Stop::HistoryBegin,
                replies,
            ),
            Pause::Watch => push_packet(
                replies,
                Answer::Stopped(match self.untold.met.first() {
                    Some(met) => met.stop(),
                    None => Stop::Trap,
                }),
            ),
            Pause::Stepped => push_packet(replies, Answer::Stopped(Stop::Trap)),
        }
    }

    /// Tells gdb's user why an event was refused.
    fn tell_refusal(&self, refusal: Refusal, replies: &mut Text) -> Result<(), AllocError>
        ensures { OnOk result (replies.new ≡ replies.old ++ console_packet (refused_text refusal)) }
    {
        let mut text = Text::new(self.alloc);
        push_refusal(&mut text, refusal)?;
        push_packet(replies, Answer::Console(text.as_bytes()))
    }

    /// Tells gdb's user why nothing is left to do.
    fn tell_idle(&self, replies: &mut Text) -> Result<(), AllocError>
        ensures { OnOk result (replies.new ≡ replies.old ++ idle_told self.now) }
    {
        let machine = self.machine();
        let words = idle_words(
            machine.run().is_operating(),
            self.session.last_event(),
            machine.psw().wait(),
        );
        push_packet(replies, Answer::Console(words.as_bytes()))
    }
}

/// Tells a stop.
fn tell_stop(stop: Stop, replies: &mut Text) -> Result<Then, AllocError>
    ensures { IfOk result (λ next. (next ≡ GoOn) × (replies.new ≡ replies.old ++ stop_packet stop)) }
{
    push_packet(replies, Answer::Stopped(stop))?;
    Ok(Then::GoOn)
}

/// Adds what tells an end of the record: to a step these words, and else the stop at the end of what gdb knows as history.
fn push_end(reach: Reach, words: &str, end: Stop, replies: &mut Text) -> Result<(), AllocError>
    ensures { OnOk result (replies.new ≡ replies.old ++ end_packets reach words.now end) }
{
    match reach {
        Reach::Step => {
            push_packet(replies, Answer::Console(words.as_bytes()))?;
            push_packet(replies, Answer::Stopped(Stop::Quiet))
        }
        Reach::Stop => push_packet(replies, Answer::Stopped(end)),
    }
}

/// Why nothing is left to do.
fn idle_words(operates: bool, last: Option<EventKind>, waits: bool) -> &'static str
    ensures { result.now ≡ idle_words_of operates last waits }
{
    match last {
        _ if !operates => "idle: the CPU is stopped\n",
        Some(EventKind::Channel(_)) => "idle: the console waits for a line\n",
        _ if waits => "idle: the CPU waits\n",
        _ => "idle: the instruction altered nothing\n",
    }
}
