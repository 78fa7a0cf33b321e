//! What is measured of a channel: the time in which one channel command word moves a block from a
//! tape to storage, and in which that is taken back. Addresses are in hexadecimal.
ghost use Rattle.std.specs.Prelude.{◌≤◌, ◌+◌, length, IsTrue};

use crate::bench_fault::BenchFault;
use crate::measured::{Measured, Moved, a_second};
use s360_channel::{Program, Progress, channel_plan};
use s360_store::{CellPart, Plan, Storage};
use s360_tape::{Tape, tape_from};
use s360_word::ProtectionKey;
use std::alloc::{AllocError, Global};
use std::time::{Clock, Duration, Instant};

/// Bytes of the block, as many as a channel command word can count.
const BLOCK: usize = 65_535;

/// Where the command word stands.
const WORD_AT: u32 = 0x200;

/// Read 65,535 bytes to 1000.
const READ: [u8; 8] = [0x02, 0x00, 0x10, 0x00, 0x00, 0x00, 0xFF, 0xFF];

/// The header of a whole block of so many bytes in a tape's file, where it is the first, and where one as long is before it.
const FIRST_HEADER: [u8; 6] = [0xFF, 0xFF, 0x00, 0x00, 0xA0, 0x00];

const LATER_HEADER: [u8; 6] = [0xFF, 0xFF, 0xFF, 0xFF, 0xA0, 0x00];

/// Each byte of the block, which alters a byte of zero.
const FILLING: u8 = 0xC1;

/// Bytes that alter storage, each of them, and where they stand.
#[derive(Drop)]
struct Run {
    address: u32,
    bytes: Vec<u8>,
}

/// Moves the block so many times, and takes it back each time. The tape stays where it is: its motion
/// takes the same time whatever the block has.
pub(crate) fn measure_block<R: Clock>(
    rt: &R,
    alloc: Global,
    events: u32,
    size: u32,
) -> Result<Measured, BenchFault> {
    let mut storage = Storage::new(alloc, size)?;
    let mut word = READ;
    exchange(&mut storage, WORD_AT, &mut word);
    let tape = tape_of_blocks(alloc, &[FILLING])?;
    let (mut forward_time, mut back_time) = (Duration::ZERO, Duration::ZERO);
    let mut bytes: u64 = 0;
    for _ in 0..events {
        let begun = Instant::now(rt)?;
        let mut run = altering_run(alloc, &storage, &tape)?;
        exchange(&mut storage, run.address, &mut run.bytes);
        forward_time = forward_time.saturating_add(begun.elapsed(rt)?);
        let begun = Instant::now(rt)?;
        exchange(&mut storage, run.address, &mut run.bytes);
        back_time = back_time.saturating_add(begun.elapsed(rt)?);
        bytes = bytes.saturating_add(run.bytes.len() as u64);
    }
    Ok(Measured {
        forward: a_second(u64::from(events), forward_time),
        back: a_second(u64::from(events), back_time),
        memory: None,
        moved: Some(Moved::Both {
            forward: a_second(bytes, forward_time),
            back: a_second(bytes, back_time),
        }),
    })
}

/// A tape with a block for each byte, which it is filled with, at its load point.
pub(crate) fn tape_of_blocks(alloc: Global, fillings: &[u8]) -> Result<Tape, BenchFault> {
    let mut file = Vec::new(alloc);
    let mut header = FIRST_HEADER;
    for filling in fillings {
        let block = vec![in alloc; *filling; BLOCK]?;
        file.extend_from_slice(&header)?;
        file.extend_from_slice(&block)?;
        header = LATER_HEADER;
    }
    Ok(tape_from(alloc, &file, true)?)
}

/// What the command word stores.
fn planned(alloc: Global, storage: &Storage, tape: &Tape) -> Result<Plan, AllocError> {
    let program = Program {
        key: ProtectionKey::new(0),
        address: WORD_AT,
        progress: Progress::First,
    };
    let mut plan = Plan::new(alloc);
    let _step = channel_plan(alloc, storage, &program, tape, &mut plan)?;
    Ok(plan)
}

/// What the command word alters of storage: the whole block.
fn altering_run(alloc: Global, storage: &Storage, tape: &Tape) -> Result<Run, BenchFault> {
    let plan = planned(alloc, storage, tape)?;
    if plan.is_empty() {
        return Err(BenchFault::Size);
    }
    match plan.part_at(0) {
        CellPart::Bytes(address, bytes)
            if bytes.len() == BLOCK && alters_each_byte(storage, address, bytes) => {
            let bytes = Vec::from_slice(alloc, bytes)?;
            Ok(Run { address, bytes })
        }
        _ => Err(BenchFault::Size),
    }
}

/// Whether storage has so many bytes from an address on.
fn has(storage: &Storage, address: u32, count: usize) -> bool
    ensures { IsTrue result → address + count ≤ length storage.now.bytes }
{
    address <= storage.size() && count <= (storage.size() - address) as usize
}

/// Whether storage has so many bytes from an address on, each of which differs from the one that is to stand there.
fn alters_each_byte(storage: &Storage, address: u32, bytes: &[u8]) -> bool {
    if !has(storage, address, bytes.len()) {
        return false;
    }
    let Ok(count) = u32::try_from(bytes.len()) else {
        return false;
    };
    let stored = storage.bytes(address, count);
    stored.iter().zip(bytes).all(|(old, new)| old != new)
}

/// Exchanges bytes with those of storage from an address on, if it has so many. Done again, it restores both.
fn exchange(storage: &mut Storage, address: u32, bytes: &mut [u8]) {
    if has(storage, address, bytes.len()) {
        storage.swap_run(address, bytes);
    }
}
