//! What gdb asks that changes nothing. Source: gdb manual, "Packets", "General Query Packets", "Memory Map Format".
ghost use Rattle.std.specs.Prelude.{◌≡◌, ◌++◌, IfOk, OnOk};
ghost use Rattle.s360_packet.specs.Answers.{registers_text};
ghost use Rattle.s360_packet.specs.Framing.{framed};
ghost use Rattle.s360_remote.specs.Registers.{words_of_machine};
ghost use Rattle.s360_remote.specs.Replies.{register_of_number, storage_text};
ghost use Rattle.s360_remote.specs.Serving.{machine_now, then_after, thread_answer, told_to};

use crate::error_number::ErrorNumber;
use crate::registers::words_of_machine;
use crate::serving::Then;
use crate::target::Target;
use s360_packet::{Answer, Request, Stop, Thread, push_packet, register_value};
use s360_text::Text;
use std::alloc::AllocError;

impl Target {
    /// Answers a request that changes nothing.
    pub(crate) fn tell(&self, request: &Request, replies: &mut Text) -> Result<Then, AllocError>
        ensures { IfOk result (λ next. (next ≡ then_after request.now) × (replies.new ≡ replies.old ++ framed (told_to request.now self.now))) }
    {
        self.push_told(request, replies)?;
        Ok(then_after(request))
    }

    /// Adds what answers a request that changes nothing.
    fn push_told(&self, request: &Request, replies: &mut Text) -> Result<(), AllocError>
        ensures { OnOk result (replies.new ≡ replies.old ++ framed (told_to request.now self.now)) }
    {
        match *request {
            Request::Registers => self.tell_registers(replies),
            Request::Register(number) => self.tell_register(number, replies),
            Request::Storage { at, count } => self.tell_storage(at, count, replies),
            Request::Supported => push_packet(
                replies,
                Answer::Supported {
                    size: crate::PACKET_SIZE,
                },
            ),
            Request::Description { offset, count } => {
                push_packet(replies, Answer::Description { offset, count })
            }
            Request::MemoryMap { offset, count } => push_packet(
                replies,
                Answer::MemoryMap {
                    size: self.machine().storage().size(),
                    offset,
                    count,
                },
            ),
            Request::Select(thread) | Request::IsAlive(thread) => {
                push_packet(replies, thread_answer(thread))
            }
            Request::CurrentThread => push_packet(replies, Answer::Thread),
            Request::Attached => push_packet(replies, Answer::Attached),
            Request::FirstThreads => push_packet(replies, Answer::FirstThreads),
            Request::NextThreads => push_packet(replies, Answer::NoMoreThreads),
            Request::Stopped => push_packet(replies, Answer::Stopped(Stop::Trap)),
            _ => push_packet(replies, Answer::Done),
        }
    }

    /// Tells all registers.
    fn tell_registers(&self, replies: &mut Text) -> Result<(), AllocError>
        ensures { OnOk result (replies.new ≡ replies.old ++ framed (registers_text (words_of_machine (machine_now self.now)))) }
    {
        push_packet(
            replies,
            Answer::Registers(&words_of_machine(self.machine())),
        )
    }

    /// Tells one register.
    fn tell_register(&self, number: u32, replies: &mut Text) -> Result<(), AllocError>
        ensures { OnOk result (replies.new ≡ replies.old ++ framed (register_of_number (machine_now self.now) number)) }
    {
        match register_value(&words_of_machine(self.machine()), number) {
            Some(value) => push_packet(replies, Answer::Register(value)),
            None => push_packet(replies, ErrorNumber::Malformed.answer()),
        }
    }

    /// Tells bytes of storage.
    fn tell_storage(&self, at: u32, count: u32, replies: &mut Text) -> Result<(), AllocError>
        ensures { OnOk result (replies.new ≡ replies.old ++ framed (storage_text (machine_now self.now) at count)) }
    {
        let storage = self.machine().storage();
        if count == 0 {
            return push_packet(replies, ErrorNumber::Malformed.answer());
        }
        if u64::from(at) + u64::from(count) > u64::from(storage.size()) {
            return push_packet(replies, ErrorNumber::Address.answer());
        }
        push_packet(replies, Answer::Bytes(storage.bytes(at, count)))
    }
}

/// How serving goes on after a request that changes nothing.
fn then_after(request: &Request) -> Then
    ensures { result ≡ then_after request.now }
{
    match *request {
        Request::Detach | Request::KillProcess(_) => Then::End,
        Request::StopAcknowledging => Then::StopAcknowledging,
        Request::Extend => Then::Extend,
        _ => Then::GoOn,
    }
}

/// Whether a thread is there: there is one, whose number is 1.
fn thread_answer(thread: Thread) -> Answer<'static>
    ensures { result ≡ thread_answer thread }
{
    match thread {
        Thread::Numbered(number) if number != 1 => ErrorNumber::NoThread.answer(),
        Thread::Every | Thread::Any | Thread::Numbered(_) => Answer::Done,
    }
}
