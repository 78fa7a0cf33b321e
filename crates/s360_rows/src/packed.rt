//! Changes in one buffer, with no session: the runs of the last one, and the bytes of all.
use crate::calls::event;
use crate::fault::Fault;
use crate::marks::{begin, end};
use crate::rows::{Subject, Words, assert_no_fault, fault_of_rows};
use s360_device::deck_from;
use s360_machine::{Event, Machine, Packed};
use s360_store::Place;
use s360_tape::blank_tape;
use std::alloc::Global;

/// Bytes of storage.
const STORAGE: u32 = 65_536;

/// At most so many changes stand before one is appended.
const MOST: u32 = 8;

/// A move that spreads a byte alters five; done again it alters none. Each answer is the number of runs that the last
/// change alters, and the bytes that all changes keep. Of the first change, and of one that is planned, it is how many
/// places that alters, and whether the PSW is the first of them.
const SPREADING: &str = "make patch r 1 00001000 -> 0
make patch s 1000 C10000000000 -> 0
make patch s 200 D20410011000 -> 0
make patch p 0000000000000200 -> 0
append step -> 1 00 00 00 00 00
make patch p 0000000000000200 -> 1 00 00 00 00 00
append step -> 0 00 00 00 00 00
first -> 6 true
plan patch p 0000000000000200 -> 1 true";

/// A program interruption stores an old PSW of which four bytes are not zero, two and two together.
const INTERRUPTING: &str = "make patch r 1 7FFFFFFF -> 0
make patch r 2 00000001 -> 0
make patch s 200 1A12 -> 0
make patch s 68 0000000000000300 -> 0
make patch p 0000000008000200 -> 0
append step -> 2 00 00 00 00";

/// Events of each other kind. The blank tape has nothing to load.
const EACH_KIND: &str = "append tick -> 1 00 00 00
append key interrupt -> 0 00 00 00
append key request -> 0 00 00 00
append enter AB -> 0 00 00 00
append patch r 1 5 -> 0 00 00 00
append patch k 800 3 -> 0 00 00 00
append load 180 -> 0 00 00 00
append channel 180 -> 0 00 00 00
first -> 4 false
make key reset -> 0 00 00 00
make key start -> 0 00 00 00
make tick -> 0 00 00 00
make enter B -> 0 00 00 00
make load 180 -> 0 00 00 00
make channel 180 -> 0 00 00 00";

/// Whether two buffers have the same changes.
fn are_same(one: &Packed, other: &Packed) -> bool {
    if one.len() != other.len()
        || one.bytes() != other.bytes()
        || one.last_runs() != other.last_runs()
    {
        return false;
    }
    for number in 1..=one.len() {
        if one.count(number) != other.count(number) {
            return false;
        }
        for i in 0..one.count(number) {
            if one.place(number, i) != other.place(number, i) {
                return false;
            }
        }
    }
    true
}

/// A machine, and the changes that were appended.
#[derive(Drop)]
struct Packing<'a> {
    rt: &'a HostRuntime,
    machine: Machine,
    changes: Packed,
}

impl<'a> Packing<'a> {
    /// Makes an event of which nothing is kept.
    fn make(&mut self, event: &Event) -> Result<(), Fault> {
        let mut changes = self.machine.plan(event)?;
        self.machine.room(&changes)?;
        begin(self.rt, "Machine::swap_all")?;
        self.machine.swap_all(&mut changes);
        Ok(end(self.rt)?)
    }

    /// Appends what an event alters, and makes it. Want of memory for that is to leave what was appended.
    fn append(&mut self, event: &Event) -> Result<(), Fault> {
        let before = self.changes.copy()?;
        let changes = self.machine.plan(event)?;
        self.machine.room(&changes)?;
        if self.changes.len() > MOST {
            return Err(Fault::Unforeseen);
        }
        let Ok(()) = self.changes.append(changes) else {
            return Err(Fault::of(are_same(&self.changes, &before)));
        };
        let number = self.changes.len();
        begin(self.rt, "Packed::swap")?;
        self.changes.swap(number, &mut self.machine);
        Ok(end(self.rt)?)
    }

    /// How many places an event would alter, and whether the PSW is the first of them.
    fn planned(&self, alloc: Global, event: &Event) -> Result<String, Fault> {
        let changes = self.machine.plan(event)?;
        begin(self.rt, "Changes")?;
        let count = changes.len();
        let is_psw = count > 0 && changes.place(0) == Place::Psw;
        end(self.rt)?;
        Ok(format!(in alloc; "{count} {is_psw}")?)
    }

    /// The same of the first change, which a copy alone keeps.
    fn first(&self, alloc: Global) -> Result<String, Fault> {
        let mut changes = self.changes.copy()?;
        if changes.len() == 0 {
            return Err(Fault::Unforeseen);
        }
        begin(self.rt, "Packed::keep")?;
        changes.keep(1);
        let count = changes.count(1);
        let is_psw = count > 0 && changes.place(1, 0) == Place::Psw;
        end(self.rt)?;
        Ok(format!(in alloc; "{count} {is_psw}")?)
    }

    /// The runs of the last change, and the bytes of all.
    fn picture(&self, alloc: Global) -> Result<String, Fault> {
        begin(self.rt, "Packed::bytes")?;
        let (runs, bytes) = (self.changes.last_runs(), self.changes.bytes());
        end(self.rt)?;
        let mut text = format!(in alloc; "{runs}")?;
        for byte in bytes {
            write!(text, " {byte:02X}")?;
        }
        Ok(text)
    }
}

impl<'a> Subject for Packing<'a> {
    fn answer(&mut self, alloc: Global, words: &mut Words<'_>) -> Result<String, Fault> {
        let kind = words.next_word();
        if kind == "first" {
            return self.first(alloc);
        }
        let event = event(alloc, words.rest())?;
        match kind {
            "plan" => return self.planned(alloc, &event),
            "make" => self.make(&event)?,
            "append" => self.append(&event)?,
            _ => return Err(Fault::Unforeseen),
        }
        self.picture(alloc)
    }
}

/// What is wrong with rows that are asked of a new machine.
fn fault_of(rt: &HostRuntime, rows: &str) -> Result<String, Fault> {
    let alloc = rt.alloc();
    let deck = deck_from(alloc, &[])?;
    let (first, second) = (blank_tape(alloc), blank_tape(alloc));
    let mut packing = Packing {
        rt,
        machine: Machine::new(alloc, STORAGE, deck, first, second)?,
        changes: Packed::new(alloc),
    };
    fault_of_rows(alloc, &mut packing, rows)
}

#[test]
fn packed_changes(rt: HostRuntime) {
    for rows in [SPREADING, INTERRUPTING, EACH_KIND] {
        assert_no_fault(&rt, fault_of(&rt, rows));
    }
}
