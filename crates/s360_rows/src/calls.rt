//! Events and calls of a session, written as lines of a script, and the texts of their answers.
use crate::fault::Fault;
use crate::rows::Words;
use s360_debug::read_command;
use s360_journal::{Answer, Breaks, Call, Pause, Places, Reach, Report, Session, Turn, Withdrawal};
use s360_machine::{Bytes, Event, Patch, Refusal};
use s360_store::Place;
use std::alloc::{AllocError, Global};

/// A breakpoint at an address.
fn break_at(address: &str) -> Result<Breaks, Fault> {
    let mut breaks = Breaks::new();
    breaks.add(u32::from_str_radix(address, 16)?);
    Ok(breaks)
}

/// The call that a line asks of a session: how many changes stand or are recorded, taking the last change out of the
/// record or a step back, going back to a change or to a breakpoint, going on by one or to a change, a withdrawal, the
/// last change of a byte or a register, a run with no breakpoint of new events or of what comes next in the record, back to
/// its start or over an event of the CPU, or the event that it offers.
pub(crate) fn call(alloc: Global, line: &str) -> Result<Call, Fault> {
    Ok(match line.split_once(" ") {
        None if line == "standing" => Call::Standing,
        None if line == "recorded" => Call::Recorded,
        None if line == "back" => Call::Back,
        None if line == "again" => Call::Again,
        Some(("step", "back")) => Call::StepBack,
        Some(("until", address)) => Call::BackUntil(break_at(address)?),
        Some(("to", number)) => Call::BackTo(number.parse()?),
        Some(("on", number)) => Call::AgainTo(number.parse()?),
        Some(("withdraw", number)) => Call::Withdraw(number.parse()?),
        Some(("last", place)) => Call::LastChange(place_of(place)?),
        Some(("run", most)) => Call::Run(Breaks::new(), Turn::New, Reach::Stop, most.parse()?),
        Some(("resume", most)) => Call::Run(Breaks::new(), Turn::Next, Reach::Stop, most.parse()?),
        Some(("return", most)) => Call::RunBack(Breaks::new(), Reach::Stop, most.parse()?),
        None if line == "next" => Call::Run(Breaks::new(), Turn::Next, Reach::Step, 1000),
        None if line == "previous" => Call::RunBack(Breaks::new(), Reach::Step, 1000),
        Some(("advance", line)) => Call::Advance(event(alloc, line)?),
        Some(("preview", line)) => Call::Preview(event(alloc, line)?),
        _ => Call::Forward(event(alloc, line)?),
    })
}

/// The place that the words of the PSW, a byte or a register are.
pub(crate) fn place_of(words: &str) -> Result<Place, Fault> {
    if words == "p" {
        return Ok(Place::Psw);
    }
    let Some((kind, digits)) = words.split_once(" ") else {
        return Err(Fault::Unforeseen);
    };
    let number = u32::from_str_radix(digits, 16)?;
    match kind {
        "s" => Ok(Place::Byte(number)),
        "r" if number < 0x10 => Ok(Place::Register(number as u8)),
        _ => Err(Fault::Unforeseen),
    }
}

/// The calls that lines ask of a session.
pub(crate) fn calls(alloc: Global, lines: &str) -> Result<Vec<Call>, Fault> {
    let mut calls = Vec::new(alloc);
    for line in lines.lines() {
        let call = call(alloc, line)?;
        calls.push(call).ok().ok_or(Fault::Memory)?;
    }
    Ok(calls)
}

/// The event that a line offers.
pub(crate) fn event(alloc: Global, line: &str) -> Result<Event, Fault> {
    let command = read_command(alloc, line.as_bytes())?;
    command.into_event().ok_or(Fault::Unforeseen)
}

/// Offers the events of lines to a session, none of which is to be refused.
pub(crate) fn carry_out(alloc: Global, session: &mut Session, lines: &str) -> Result<(), Fault> {
    for line in lines.lines() {
        session.forward(event(alloc, line)?)?;
    }
    Ok(())
}

/// A patch of so many bytes: its address and its length are the next words.
pub(crate) fn long_patch(alloc: Global, words: &mut Words<'_>) -> Result<Event, Fault> {
    let at = words.word();
    let count = words.below(0x200) as usize;
    let bytes = vec![in alloc; 0xA5u8; count]?;
    let bytes = Bytes::new(bytes);
    Ok(Event::Patch(Patch::Bytes { at, bytes }))
}

/// The places of a report, as a list of them is shown.
fn text_of_places(alloc: Global, places: &Places) -> Result<String, Fault> {
    let mut list = Vec::new(alloc);
    for i in 0..places.len() {
        let place = places.get(i).ok_or(Fault::Unforeseen)?;
        list.push(place).ok().ok_or(Fault::Memory)?;
    }
    Ok(format!(in alloc; "{:?}", list.as_slice())?)
}

/// What an event was answered: the places that it altered, or why it is refused.
pub(crate) fn text_of_report(
    alloc: Global,
    report: &Result<Report, Refusal>,
) -> Result<String, Fault> {
    match report {
        Ok(Report::Changed(places)) => text_of_places(alloc, places),
        Ok(Report::Idle) => Ok(format!(in alloc; "idle")?),
        Err(Refusal::Memory) => Err(Fault::Memory),
        Err(refusal) => Ok(format!(in alloc; "{refusal}")?),
    }
}

/// Why the machine pauses.
fn text_of_pause(alloc: Global, pause: Pause) -> Result<String, Fault> {
    Ok(match pause {
        Pause::Refused(refusal) => format!(in alloc; "{refusal}")?,
        Pause::Idle => format!(in alloc; "idle")?,
        Pause::Watch => format!(in alloc; "watch")?,
        Pause::Break => format!(in alloc; "break")?,
        Pause::Stepped => format!(in alloc; "stepped")?,
        Pause::RecordEnd => format!(in alloc; "end")?,
        Pause::RecordStart => format!(in alloc; "start")?,
        Pause::Done => format!(in alloc; "done")?,
    })
}

/// What a run was answered, and how many of its events were accepted.
fn text_of_run(
    alloc: Global,
    accepted: u32,
    end: &Result<Pause, AllocError>,
) -> Result<String, Fault> {
    match end {
        Ok(pause) => {
            let why = text_of_pause(alloc, *pause)?;
            Ok(format!(in alloc; "ran {accepted} {why}")?)
        }
        Err(_) => Err(Fault::Memory),
    }
}

/// What a call was answered.
pub(crate) fn text_of_answer(alloc: Global, answer: &Answer) -> Result<String, Fault> {
    Ok(match answer {
        Answer::Forwarded(report) | Answer::Previewed(report) => text_of_report(alloc, report)?,
        Answer::Advanced(Ok(())) => format!(in alloc; "advanced")?,
        Answer::Advanced(Err(Refusal::Memory)) => return Err(Fault::Memory),
        Answer::Advanced(Err(refusal)) => format!(in alloc; "{refusal}")?,
        Answer::Ran { accepted, end } => text_of_run(alloc, *accepted, end)?,
        Answer::TookBack(Ok(event)) => format!(in alloc; "{event:?}")?,
        Answer::TookBack(Err(fault)) => format!(in alloc; "{fault}")?,
        Answer::SteppedBack(Ok(())) => format!(in alloc; "stepped back")?,
        Answer::SteppedBack(Err(fault)) => format!(in alloc; "{fault}")?,
        Answer::RanBack { standing, why } => {
            let why = text_of_pause(alloc, *why)?;
            format!(in alloc; "back to {standing} {why}")?
        }
        Answer::WentBack(number) => format!(in alloc; "until {number}")?,
        Answer::RanAgain(Ok(ran)) => format!(in alloc; "{ran}")?,
        Answer::WentOn(Ok(number)) => format!(in alloc; "on {number}")?,
        Answer::RanAgain(Err(_)) | Answer::WentOn(Err(_)) => return Err(Fault::Memory),
        Answer::Withdrew(Ok(())) => format!(in alloc; "withdrawn")?,
        Answer::Withdrew(Err(Withdrawal::Memory)) => return Err(Fault::Memory),
        Answer::Withdrew(Err(fault)) => format!(in alloc; "{fault}")?,
        Answer::Stands(count) | Answer::AreRecorded(count) => format!(in alloc; "{count}")?,
        Answer::LastChanged(number) => format!(in alloc; "{number:?}")?,
    })
}
