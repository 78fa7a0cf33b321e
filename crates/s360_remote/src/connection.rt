//! A connection with gdb: bytes come in and go out. Source: gdb manual, "Remote Serial Protocol", "Packet Acknowledgment".
ghost use Rattle.std.specs.Prelude.{◌≡◌, ◌&&◌, ◌++◌, ℕ, List, false, IfOk, OnOk};
ghost use Rattle.std.specs.Option.{option_to_list};
ghost use Rattle.s360_packet.specs.Receiving.{acknowledgement_of};
ghost use Rattle.s360_remote.specs.Connecting.{HasAnswered, IsInterrupted, IsReceived, IsTaken, answer_to_fault, errand_of, going, is_to_move, new_connection};
ghost use Rattle.s360_remote.specs.Replies.{Adds};

use crate::errand::Errand;
use crate::error_number::ErrorNumber;
use crate::serving::Then;
use crate::target::Target;
use s360_packet::{
    Acknowledging, Answer, Received, Receiver, Request, RequestFault, Stop, push_packet,
    read_request,
};
use s360_text::Text;
use std::alloc::{AllocError, Global};
use std::marker::Model;

/// A connection: what has come of packets, whether they are acknowledged, whether gdb starts the machine anew where it would
/// leave it, whether its user has interrupted the machine, and whether gdb has left.
#[derive(Drop)]
pub struct Connection {
    receiver: Receiver,
    acknowledging: Acknowledging,
    extended: bool,
    interrupted: bool,
    ended: bool,
    alloc: Global,
}

impl Model for Connection {
    ghost use Rattle.s360_remote.specs.Connecting.{Connected, connected};

    ghost Value = { Connected };

    ghost view = { λ c. connected c.receiver c.acknowledging c.extended c.interrupted c.ended };
}

impl Connection {
    /// A connection on which nothing came yet.
    pub fn new(alloc: Global) -> Result<Connection, AllocError>
        ensures { IfOk result (λ c. c ≡ new_connection) }
    {
        Ok(Connection {
            receiver: Receiver::new(alloc, crate::PACKET_SIZE as usize)?,
            acknowledging: Acknowledging::On,
            extended: false,
            interrupted: false,
            ended: false,
            alloc,
        })
    }

    /// Whether gdb has left.
    pub fn has_ended(&self) -> bool
        ensures { result ≡ self.now.ended }
    {
        self.ended
    }

    /// Takes a byte that came, adds what is answered, and says what is left to do. Once gdb has left a byte does nothing. An
    /// `Err` ends the connection: not even the want of memory could be answered.
    pub fn take(
        &mut self,
        byte: u8,
        target: &mut Target,
        replies: &mut Text,
    ) -> Result<Errand, AllocError>
        ensures { IfOk result (λ errand. Adds (IsTaken self.old.ended byte self.old target.old self.new target.new errand) replies.old replies.new) }
    {
        if self.ended {
            return Ok(Errand::Nothing);
        }
        let Some(received) = self.receiver.take(byte) else {
            return Ok(Errand::Nothing);
        };
        self.acknowledge(received, replies)?;
        self.complete(received, target, replies)
    }

    /// Adds the byte that acknowledges what came, if one is sent.
    fn acknowledge(&self, received: Received, replies: &mut Text) -> Result<(), AllocError>
        ensures { OnOk result (replies.new ≡ replies.old ++ option_to_list (acknowledgement_of self.now.acknowledging received)) }
    {
        match received.acknowledgement(self.acknowledging) {
            Some(byte) => replies.push_byte(byte),
            None => Ok(()),
        }
    }

    /// Adds what answers what came.
    fn complete(
        &mut self,
        received: Received,
        target: &mut Target,
        replies: &mut Text,
    ) -> Result<Errand, AllocError>
        ensures { IfOk result (λ errand. Adds (IsReceived received self.old target.old self.new target.new errand) replies.old replies.new) }
    {
        match received {
            Received::Packet => self.answer(target, replies),
            Received::TooLong => {
                push_packet(replies, ErrorNumber::Malformed.answer())?;
                Ok(Errand::Nothing)
            }
            Received::Damaged => Ok(Errand::Nothing),
            Received::Interrupt => {
                self.interrupted = true;
                Ok(Errand::Nothing)
            }
        }
    }

    /// Carries out the request that came, and adds what is answered.
    fn answer(&mut self, target: &mut Target, replies: &mut Text) -> Result<Errand, AllocError>
        ensures { IfOk result (λ errand. Adds (HasAnswered self.old target.old self.new target.new errand) replies.old replies.new) }
    {
        let request = match read_request(self.alloc, self.receiver.data()) {
            Ok(request) => request,
            Err(fault) => {
                push_packet(replies, answer_to_fault(fault))?;
                return Ok(Errand::Nothing);
            }
        };
        if self.is_interrupted(&request) {
            self.tell_interruption(replies)?;
            return Ok(Errand::Nothing);
        }
        let mut answered = Text::new(self.alloc);
        match target.serve(request, &mut answered) {
            Ok(next) => {
                replies.push_bytes(answered.as_bytes())?;
                Ok(self.go_on(next))
            }
            Err(AllocError) => {
                push_packet(replies, ErrorNumber::Memory.answer())?;
                Ok(Errand::Nothing)
            }
        }
    }

    /// Tells gdb that its user has interrupted the machine, which is over then; or that memory lacks for that.
    fn tell_interruption(&mut self, replies: &mut Text) -> Result<(), AllocError>
        ensures { OnOk result ((packets : List ℕ) × IsInterrupted self.old self.new packets × (replies.new ≡ replies.old ++ packets)) }
    {
        let mut answered = Text::new(self.alloc);
        match push_packet(&mut answered, Answer::Stopped(Stop::Interrupt)) {
            Ok(()) => {
                replies.push_bytes(answered.as_bytes())?;
                self.interrupted = false;
                Ok(())
            }
            Err(AllocError) => push_packet(replies, ErrorNumber::Memory.answer()),
        }
    }

    /// Whether gdb's user has interrupted what a request would begin.
    fn is_interrupted(&self, request: &Request) -> bool
        ensures { result ≡ (self.now.interrupted && is_to_move request.now) }
    {
        self.interrupted && is_to_move(request)
    }

    /// Goes on after a request, and says what is left to do.
    fn go_on(&mut self, next: Then) -> Errand
        ensures state { self.new ≡ going self.old next }
        ensures errand { result ≡ errand_of next }
    {
        match next {
            Then::GoOn => Errand::Nothing,
            Then::Dropped(count) => Errand::TellDropped(count),
            Then::Save(file) => Errand::Write(file),
            Then::StopAcknowledging => {
                self.acknowledging = Acknowledging::Off;
                Errand::Nothing
            }
            Then::Extend => {
                self.extended = true;
                Errand::Nothing
            }
            Then::End => {
                self.ended = !self.extended;
                Errand::Nothing
            }
        }
    }
}

/// Whether a request is to go on or back.
fn is_to_move(request: &Request) -> bool
    ensures { result ≡ is_to_move request.now }
{
    matches!(
        request,
        Request::Step | Request::Continue | Request::StepBack | Request::ContinueBack
    )
}

/// What tells that data is no request.
fn answer_to_fault(fault: RequestFault) -> Answer<'static>
    ensures { result ≡ answer_to_fault fault }
{
    match fault {
        RequestFault::Unknown => Answer::Empty,
        RequestFault::Malformed => ErrorNumber::Malformed.answer(),
        RequestFault::Memory => ErrorNumber::Memory.answer(),
    }
}
