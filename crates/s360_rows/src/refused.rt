//! Lines within which a growth of memory is refused: what they accepted by then stands, and nothing else has altered.
//! Once that is taken back, the line can be carried out, and what it accepts can be taken back.
//!
//! No clause says how many events stand after want of memory, as none counts growths. So a test tells how many did, and
//! `tests/refuse_each_growth.py`, which refuses one growth after another, looks that each number was met: a line that
//! took an accepted event back would not meet the last of them.
use crate::calls::carry_out;
use crate::cases::{
    APPENDED_BLOCKS, CHAINED_DATA, Case, ENTERED_LINES, LINES, MOVES, PARTED_BYTES, READ_BLOCKS,
    Step, WRITTEN_BLOCKS,
};
use crate::fault::Fault;
use crate::held::{Lent, lend_over};
use crate::rows::assert_no_fault;
use crate::same::are_same;
use s360_debug::{Text, answer, read_command};
use s360_journal::{Breaks, Session};
use s360_machine::ConfiguredUnit;
use s360_store::Place;
use std::alloc::Global;

/// A machine has so many bytes, which is room for a block of the greatest length.
const STORAGE: u32 = 131_072;

/// So many storage keys it has.
const KEYS: u32 = STORAGE / 2_048;

/// More changes than any of the cases makes.
const LIMIT: u8 = 20;

/// Whether a place has the same changes in two sessions.
fn is_same_at(one: &Session, other: &Session, place: Place) -> bool {
    one.changes_of(place) == other.changes_of(place)
        && one.last_change(place) == other.last_change(place)
}

/// Whether each byte and storage key has the same changes in two sessions, and one that the machine lacks.
fn have_same_storage(one: &Session, other: &Session) -> bool {
    for address in 0..STORAGE + 1 {
        if !is_same_at(one, other, Place::Byte(address)) {
            return false;
        }
    }
    for block in 0..KEYS + 1 {
        if !is_same_at(one, other, Place::Key(block)) {
            return false;
        }
    }
    true
}

/// Whether each place has the same changes in two sessions.
fn have_same_changes(one: &Session, other: &Session) -> bool {
    for place in [Place::Psw, Place::Run, Place::External] {
        if !is_same_at(one, other, place) {
            return false;
        }
    }
    for number in 0..17 {
        if !is_same_at(one, other, Place::Register(number)) {
            return false;
        }
    }
    for unit in ConfiguredUnit::ALL {
        let unit = unit.unit();
        if !is_same_at(one, other, Place::UnitState(unit))
            || !is_same_at(one, other, Place::UnitMedia(unit))
        {
            return false;
        }
    }
    have_same_storage(one, other)
}

/// Whether all is as in another session: what stands, the changes of each place and the machine.
fn stands_as(alloc: Global, session: &Session, other: &Session) -> Result<bool, Fault> {
    let is_same = session.standing() == other.standing() && have_same_changes(session, other);
    Ok(is_same && are_same(alloc, session.machine(), other.machine())?)
}

/// Comes to a step of a case, and then makes the event of the step so many times.
fn come_to(
    alloc: Global,
    session: &mut Session,
    case: &Case,
    number: usize,
    accepted: u32,
) -> Result<&'static Step, Fault> {
    let step = case.steps.get(number).ok_or(Fault::Unforeseen)?;
    carry_out(alloc, session, case.start)?;
    for step in case.steps.iter().take(number) {
        carry_out(alloc, session, step.line)?;
    }
    for _ in 0..accepted {
        carry_out(alloc, session, step.event())?;
    }
    Ok(step)
}

/// A session that is compared with one that comes to a step of a case and accepts so many of its events.
#[derive(Drop)]
struct Beside<'a> {
    other: &'a Session,
    case: &'static Case,
    number: usize,
    accepted: u32,
}

impl<'a> Lent for Beside<'a> {
    /// An empty text where both are the same.
    fn use_session(&mut self, alloc: Global, session: &mut Session) -> Result<String, Fault> {
        let _step = come_to(alloc, session, self.case, self.number, self.accepted)?;
        let is_same = stands_as(alloc, session, self.other)?;
        let text = String::from_str(alloc, if is_same { "" } else { "another" })?;
        Ok(text)
    }
}

/// What a line is answered.
fn answered(alloc: Global, session: &mut Session, line: &str) -> Result<Text, Fault> {
    let command = read_command(alloc, line.as_bytes())?;
    Ok(answer(alloc, session, &mut Breaks::new(), command)?)
}

/// Takes back all that stands above a number.
fn take_back(session: &mut Session, number: u32) -> Result<(), Fault> {
    for _ in number..session.standing() {
        if session.back().is_err() {
            return Err(Fault::Unforeseen);
        }
    }
    Ok(())
}

/// What carries the line of a step out.
#[derive(Drop)]
struct Answering {
    case: &'static Case,
    number: usize,
    /// How many of its events stood after want of memory.
    accepted: Option<u32>,
}

impl Answering {
    /// Whether a session is as one that accepts so many events of the step.
    fn is_after(&self, alloc: Global, other: &Session, accepted: u32) -> Result<bool, Fault> {
        let (case, number) = (self.case, self.number);
        let mut beside = Beside {
            other,
            case,
            number,
            accepted,
        };
        Ok(lend_case(alloc, case, &mut beside)?.is_empty())
    }

    /// What is wrong with the line, which is carried out again where memory was wanting, and with what is left once its
    /// events are taken back.
    fn fault(
        &mut self,
        alloc: Global,
        session: &mut Session,
        step: &Step,
    ) -> Result<&'static str, Fault> {
        let before = session.standing();
        let mut text = answered(alloc, session, step.line);
        if let Err(Fault::Memory) = text {
            let accepted = session.standing().saturating_sub(before);
            self.accepted = Some(accepted);
            if !self.is_after(alloc, session, accepted)? {
                return Ok("memory was wanting, and the session is another");
            }
            take_back(session, before)?;
            text = answered(alloc, session, step.line);
        }
        if text?.as_bytes() != step.answer.as_bytes() {
            return Ok("another answer");
        }
        if session.standing() > before {
            take_back(session, before)?;
            if !self.is_after(alloc, session, 0)? {
                return Ok("taken back, it left something");
            }
        }
        Ok("")
    }
}

impl Lent for Answering {
    fn use_session(&mut self, alloc: Global, session: &mut Session) -> Result<String, Fault> {
        let step = come_to(alloc, session, self.case, self.number, 0)?;
        let fault = match (self.fault(alloc, session, step), self.accepted) {
            (Ok(fault), _) => fault,
            // No more than one growth is refused.
            (Err(Fault::Memory), Some(_)) => "memory was wanting again",
            (Err(fault), _) => return Err(fault),
        };
        match self.accepted {
            Some(accepted) if fault.is_empty() => {
                Ok(format!(in alloc; "out of memory after {accepted} events of {}", step.line)?)
            }
            _ if fault.is_empty() => Ok(String::new(alloc)),
            _ => Ok(format!(in alloc; "{}: {fault}", step.line)?),
        }
    }
}

/// Lends a session over the media of a case.
fn lend_case<L: Lent>(alloc: Global, case: &Case, lent: &mut L) -> Result<String, Fault> {
    let tape = case.media.tape(alloc)?;
    lend_over(alloc, STORAGE, case.media.deck(), tape, LIMIT, lent)
}

/// What is wrong with the first step that has a fault, or an empty text: no more than one growth may be refused in all.
fn fault_of(alloc: Global, case: &'static Case) -> Result<String, Fault> {
    for number in 0..case.steps.len() {
        let mut answering = Answering {
            case,
            number,
            accepted: None,
        };
        let fault = lend_case(alloc, case, &mut answering)?;
        if !fault.is_empty() {
            return Ok(fault);
        }
    }
    Ok(String::new(alloc))
}

#[test]
fn memory_within_a_line(rt: HostRuntime) {
    for case in &LINES {
        assert_no_fault(&rt, fault_of(rt.alloc(), case));
    }
}

#[test]
fn moves(rt: HostRuntime) {
    assert_no_fault(&rt, fault_of(rt.alloc(), &MOVES));
}

#[test]
fn written_blocks(rt: HostRuntime) {
    assert_no_fault(&rt, fault_of(rt.alloc(), &WRITTEN_BLOCKS));
}

#[test]
fn appended_blocks(rt: HostRuntime) {
    assert_no_fault(&rt, fault_of(rt.alloc(), &APPENDED_BLOCKS));
}

#[test]
fn read_blocks(rt: HostRuntime) {
    assert_no_fault(&rt, fault_of(rt.alloc(), &READ_BLOCKS));
}

#[test]
fn chained_data(rt: HostRuntime) {
    assert_no_fault(&rt, fault_of(rt.alloc(), &CHAINED_DATA));
}

#[test]
fn entered_lines(rt: HostRuntime) {
    assert_no_fault(&rt, fault_of(rt.alloc(), &ENTERED_LINES));
}

#[test]
fn parted_bytes(rt: HostRuntime) {
    assert_no_fault(&rt, fault_of(rt.alloc(), &PARTED_BYTES));
}
