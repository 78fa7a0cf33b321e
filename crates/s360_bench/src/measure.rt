//! What is measured of a session: time and memory of events that are run forward and taken back.
use crate::bench_fault::BenchFault;
use crate::block::tape_of_blocks;
use crate::measured::{Measured, Moved, a_second};
use crate::workload::{Filling, START, Workload};
use s360_device::{COLUMNS, Deck, deck_from};
use s360_journal::Session;
use s360_machine::{Bytes, Event, Machine, Patch};
use s360_tape::{Tape, blank_tape};
use s360_word::{RegisterNumber, Word};
use std::alloc::Global;
use std::fs;
use std::fs::Files;
use std::time::{Clock, Instant};

/// So many changes can stand.
const LIMIT: u32 = 10_000_000;

/// Bytes of a page, in which the host counts memory.
const PAGE: u64 = 4_096;

/// Runs so many events of the loop on a new machine, and takes them all back.
pub(crate) fn measure<R: Clock + Files>(
    rt: &R,
    alloc: Global,
    workload: Workload,
    events: u32,
    size: u32,
) -> Result<Measured, BenchFault> {
    let tape = tape_of_blocks(alloc, workload.blocks())?;
    let mut session = new_session(alloc, workload.cards(events), tape, size)?;
    measure_session(rt, alloc, &mut session, workload, events)
}

/// Has a new session run so many events of the loop, and takes them all back.
fn measure_session<R: Clock + Files>(
    rt: &R,
    alloc: Global,
    session: &mut Session,
    workload: Workload,
    events: u32,
) -> Result<Measured, BenchFault> {
    make_ready(session, alloc, workload)?;
    let before = resident_bytes(rt, alloc);
    let begun = Instant::now(rt)?;
    for _ in 0..events {
        forward(session, workload.event())?;
    }
    let forward_time = begun.elapsed(rt)?;
    let after = resident_bytes(rt, alloc);
    let begun = Instant::now(rt)?;
    let _ = session.back_to(session.standing().saturating_sub(events));
    let back_time = begun.elapsed(rt)?;
    let moved_bytes = workload.moved_bytes(events);
    Ok(Measured {
        forward: a_second(u64::from(events), forward_time),
        back: a_second(u64::from(events), back_time),
        memory: bytes_of_each(before, after, events),
        moved: moved_bytes.map(|bytes| Moved::Forward(a_second(bytes, forward_time))),
    })
}

/// Patches the loop and its data, and starts what it is to start.
fn make_ready(session: &mut Session, alloc: Global, workload: Workload) -> Result<(), BenchFault> {
    set_bytes(session, alloc, START, workload.program())?;
    set_areas(session, alloc, workload.areas())?;
    set_runs(session, alloc, workload.runs())?;
    forward(session, Event::Patch(Patch::Psw(u64::from(START))))?;
    set_register(session, 2, 3)?;
    set_register(session, 3, Word::MAX)?;
    if workload.is_started() {
        forward(session, Event::Cpu)?;
    }
    Ok(())
}

/// A session over a new machine of so many bytes, with so many cards in its reader and a tape.
fn new_session(alloc: Global, cards: u32, tape: Tape, size: u32) -> Result<Session, BenchFault> {
    let deck = deck_of(alloc, cards)?;
    let machine = Machine::new(alloc, size, deck, tape, blank_tape(alloc))?;
    Ok(Session::new(alloc, machine, LIMIT))
}

/// A deck of so many cards, each of which differs in all its columns from the one before.
fn deck_of(alloc: Global, cards: u32) -> Result<Deck, BenchFault> {
    let mut file = Vec::new(alloc);
    for i in 0..cards {
        let card = vec![in alloc; (i % 256) as u8; COLUMNS]?;
        file.extend_from_slice(&card)?;
    }
    Ok(deck_from(alloc, &file)?)
}

fn set_areas(
    session: &mut Session,
    alloc: Global,
    areas: &[(u32, Filling)],
) -> Result<(), BenchFault> {
    for &(at, filling) in areas {
        set_bytes(session, alloc, at, &filling.bytes())?;
    }
    Ok(())
}

fn set_runs(session: &mut Session, alloc: Global, runs: &[(u32, &[u8])]) -> Result<(), BenchFault> {
    for &(at, run) in runs {
        set_bytes(session, alloc, at, run)?;
    }
    Ok(())
}

/// Runs an event, whatever it alters.
fn forward(session: &mut Session, event: Event) -> Result<(), BenchFault> {
    session.forward(event)?;
    Ok(())
}

fn set_bytes(
    session: &mut Session,
    alloc: Global,
    at: u32,
    bytes: &[u8],
) -> Result<(), BenchFault> {
    let bytes = Bytes::new(Vec::from_slice(alloc, bytes)?);
    forward(session, Event::Patch(Patch::Bytes { at, bytes }))
}

fn set_register(session: &mut Session, number: u8, word: Word) -> Result<(), BenchFault> {
    let register = RegisterNumber::new(number % 16);
    forward(session, Event::Patch(Patch::Register(register, word)))
}

/// The bytes that each event took, by what was resident before and after.
fn bytes_of_each(before: Option<u64>, after: Option<u64>, events: u32) -> Option<u64> {
    Some(after?.saturating_sub(before?) / u64::from(events.max(1)))
}

/// The bytes of memory that are resident, where the host tells them.
fn resident_bytes<R: Files>(files: &R, alloc: Global) -> Option<u64> {
    let text = fs::read_to_string(&(files, alloc), "/proc/self/statm").ok()?;
    let pages: u64 = text.as_str().split(' ').nth(1)?.parse().ok()?;
    pages.checked_mul(PAGE)
}
