//! What gdb asks, and what is answered. Source: gdb manual, "Packets", "General Query Packets".
ghost use Rattle.std.specs.Prelude.{◌≡◌, ◌≢◌, ◌++◌, Err, IfOk, OnErr, OnOk};
ghost use Rattle.s360_packet.specs.Framing.{framed};
ghost use Rattle.s360_packet.specs.declared.answer.Answer.TheVariants.{Moved};
ghost use Rattle.s360_remote.specs.Replies.{Adds, line_text, packet_of};
ghost use Rattle.s360_remote.specs.Serving.{AreAllBegun, AreAllWritten, IsAnsweredAtOnce, IsRequestBegun, IsBegunAtOnce, IsServed, IsTold, IsCommandBegun};
ghost use Rattle.s360_remote.specs.Serving.{IsCommandServed, after_asking, started_anew, after_write, with_moved_from};
ghost use Rattle.s360_saving.specs.Reading.{saving_of};
ghost use Rattle.s360_remote.specs.declared.error_number.ErrorNumber.TheVariants.{Memory};
ghost use Rattle.s360_remote.specs.declared.serving.Then.TheVariants.{GoOn};

use crate::error_number::ErrorNumber;
use crate::monitor::monitor;
use crate::points::BytesMet;
use crate::saving::save;
use crate::target::Target;
use byteorder::{BigEndian, ByteOrder};
use s360_journal::Reach;
use s360_packet::{Answer, Payload, REGISTERS, Request, Stop, push_packet};
use s360_saving::{FileToWrite, read_saving};
use s360_text::Text;
use std::alloc::AllocError;

/// How serving goes on.
#[derive(Drop)]
pub enum Then {
    /// With the next request.
    GoOn,
    /// Likewise. A write dropped so many recorded changes, at least one, which its answer cannot tell.
    Dropped(u32),
    /// Likewise. A file is to be written first, by which the request is answered.
    Save(FileToWrite),
    /// With the next request, and packets are acknowledged no longer.
    StopAcknowledging,
    /// With the next request, and gdb starts the machine anew where it would leave it.
    Extend,
    /// Not at all, unless gdb starts the machine anew.
    End,
}

/// So many bytes has `G`: the words of the machine, and those that it lacks.
const ALL_REGISTERS: usize = 268;

impl Target {
    /// Carries a request out, and adds what is answered. After want of memory some first events of the request may stand,
    /// and some first bytes of the answer may be there.
    pub fn serve(&mut self, request: Request, replies: &mut Text) -> Result<Then, AllocError>
        ensures served { IfOk result (λ next. Adds (IsServed request self.old self.new next) replies.old replies.new) }
        ensures begun { OnErr result (IsRequestBegun request self.old self.new) }
    {
        match request {
            Request::Step => self.resume(Reach::Step, replies),
            Request::Continue => self.resume(Reach::Stop, replies),
            Request::StepBack => self.resume_back(Reach::Step, replies),
            Request::ContinueBack => self.resume_back(Reach::Stop, replies),
            Request::WriteRegisters(bytes) => self.write_all_registers(bytes.as_slice(), replies),
            Request::WriteRegister { number, word } => {
                let written = self.write_register(number, word);
                self.tell_written(written, replies)
            }
            Request::WriteStorage { at, bytes } => {
                let written = self.write_storage(at, bytes.as_slice());
                self.tell_written(written, replies)
            }
            Request::Insert { point, at, kind } => self.insert(point, at, kind, replies),
            Request::InsertIf { at, conditions, .. } => self.insert_if(
                at,
                conditions.as_slice(),
                replies,
            ),
            Request::Remove { point, at, kind } => self.remove(point, at, kind, replies),
            Request::Command(line) => self.answer_line(&line, replies),
            Request::HasMoved => self.tell_moved(replies),
            Request::Run => {
                self.start_anew();
                push_packet(replies, Answer::Stopped(Stop::Trap))?;
                Ok(Then::GoOn)
            }
            Request::Restart => {
                self.start_anew();
                Ok(Then::GoOn)
            }
            Request::Kill => Ok(Then::End),
            other => self.tell(&other, replies),
        }
    }

    /// Tells whether the last line of gdb's user moved the machine.
    fn tell_moved(&mut self, replies: &mut Text) -> Result<Then, AllocError>
        ensures state { OnOk result (self.new ≡ after_asking self.old) }
        ensures answer { IfOk result (λ next. (next ≡ GoOn) × (replies.new ≡ replies.old ++ packet_of (Moved self.old.untold.moved))) }
        ensures memory { OnErr result (self.new ≡ self.old) }
    {
        push_packet(replies, Answer::Moved(self.untold.moved))?;
        if self.untold.moved {
            self.untold.met = BytesMet::new();
            self.untold.stop = true;
        }
        Ok(Then::GoOn)
    }

    /// Takes all changes back, which stay recorded. It takes no memory.
    fn start_anew(&mut self)
        ensures { self.new ≡ started_anew self.old }
    {
        let _standing = self.session.back_to(0);
        self.untold.met = BytesMet::new();
        self.untold.stop = false;
    }

    /// Gives all registers the words of these bytes; what the machine lacks is left out.
    fn write_all_registers(&mut self, bytes: &[u8], replies: &mut Text) -> Result<Then, AllocError>
        ensures served { IfOk result (λ next. Adds (AreAllWritten bytes.now self.old self.new next) replies.old replies.new) }
        ensures begun { OnErr result (AreAllBegun bytes.now self.old self.new) }
    {
        if bytes.len() != ALL_REGISTERS {
            push_packet(replies, ErrorNumber::Malformed.answer())?;
            return Ok(Then::GoOn);
        }
        let mut words = [0; REGISTERS];
        BigEndian::read_u32_into(&bytes[..4 * REGISTERS], &mut words);
        let written = self.write_registers(&words);
        self.tell_written(written, replies)
    }

    /// Carries a line of gdb's user out, and tells its answer, or hands up the file that it saves.
    fn answer_line(&mut self, line: &Payload, replies: &mut Text) -> Result<Then, AllocError>
        ensures served { IfOk result (λ next. Adds (IsCommandServed (saving_of line.now) line.now self.old self.new next) replies.old replies.new) }
        ensures begun { OnErr result (IsCommandBegun (saving_of line.now) line.now self.old self.new) }
    {
        match read_saving(line.as_slice()) {
            Some(asked) => {
                let standing = self.standing();
                let next = save(self, asked, replies);
                self.note_moved(standing);
                next
            }
            None => self.answer_at_once(line.as_slice(), replies),
        }
    }

    /// Notes whether the last line moved the machine, before which so many changes stood.
    fn note_moved(&mut self, standing: u32)
        ensures { self.new ≡ with_moved_from standing self.old }
    {
        self.untold.moved = self.standing() != standing;
    }

    /// Carries a line out that saves nothing, and tells its answer. A line without one is done.
    fn answer_at_once(&mut self, line: &[u8], replies: &mut Text) -> Result<Then, AllocError>
        ensures served { IfOk result (λ next. (next ≡ GoOn) × Adds (IsAnsweredAtOnce line.now self.old self.new) replies.old replies.new) }
        ensures begun { OnErr result (IsBegunAtOnce line.now self.old self.new) }
    {
        let standing = self.standing();
        let text = monitor(self, line);
        self.note_moved(standing);
        tell_line(&text?, replies)?;
        Ok(Then::GoOn)
    }

    /// Tells how a write ended.
    fn tell_written(
        &self,
        written: Result<(), ErrorNumber>,
        replies: &mut Text,
    ) -> Result<Then, AllocError>
        ensures told { IfOk result (λ next. Adds (IsTold written self.now.recorded.dropped next) replies.old replies.new) }
        ensures memory { OnOk result (written ≢ Err Memory) }
    {
        match written {
            Ok(()) => {
                push_packet(replies, Answer::Done)?;
                Ok(after_write(self.session.dropped()))
            }
            Err(ErrorNumber::Memory) => Err(AllocError),
            Err(fault) => {
                push_packet(replies, fault.answer())?;
                Ok(Then::GoOn)
            }
        }
    }
}

/// Tells the answer of a line.
pub(crate) fn tell_line(text: &Text, replies: &mut Text) -> Result<(), AllocError>
    ensures { OnOk result (replies.new ≡ replies.old ++ framed (line_text text.now)) }
{
    if text.as_bytes().is_empty() {
        return push_packet(replies, Answer::Done);
    }
    push_packet(replies, Answer::Bytes(text.as_bytes()))
}

/// How serving goes on after a write that dropped so many recorded changes.
fn after_write(dropped: u32) -> Then
    ensures { result ≡ after_write dropped }
{
    match dropped {
        0 => Then::GoOn,
        count => Then::Dropped(count),
    }
}
