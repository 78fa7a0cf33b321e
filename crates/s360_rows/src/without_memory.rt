//! Calls that take no memory, made of a session in which events of each kind stand, and of what it lends.
//!
//! A call over numbers alone, as all of `s360_word` and `s360_psw`, has no allocator within its reach. It is not here.
use crate::calls::{event, place_of};
use crate::cases::Media;
use crate::fault::Fault;
use crate::held::{Lent, lend_over};
use crate::marks::{begin, end};
use crate::rows::{Subject, Words, assert_no_fault, fault_of_rows};
use crate::storage::put;
use s360_channel::{Caw, Ccw, Csw, Program, Units, halt, start, test, test_channel};
use s360_device::{Begin, Device, Punch, Reader, deck_from};
use s360_journal::{Breaks, Session};
use s360_machine::{Machine, Packed};
use s360_print::{ConsoleMedia, PrinterMedia};
use s360_psw::InstructionLength;
use s360_store::{Access, Checked, LEAST_SIZE, Place, Plan, Storage};
use s360_tape::Tape;
use s360_word::{ProtectionKey, RegisterNumber, Unit};
use std::alloc::Global;
use std::test::Fail;

/// The console, a tape, and a unit that the machine lacks.
const CONSOLE: Unit = Unit(0x01F);

const TAPE: Unit = Unit(0x180);

const LACKING: Unit = Unit(0x00F);

/// What a machine shows beside its storage and its devices.
fn of_machine(machine: &Machine) -> [u64; 9] {
    [
        machine.psw().stored(0, InstructionLength::NotAvailable),
        u64::from(machine.register(RegisterNumber::new(1))),
        machine.run().is_operating() as u64,
        u64::from(machine.external().code()),
        machine.unit(TAPE).is_some() as u64,
        machine.unit(LACKING).is_some() as u64,
        machine.attention(CONSOLE) as u64,
        machine.attention(TAPE) as u64,
        machine.tape(LACKING).is_some() as u64,
    ]
}

/// What a storage shows at `600`, and of the block at `800`.
fn of_storage(storage: &Storage) -> [u64; 10] {
    prove!(storage.size() >= LEAST_SIZE);
    let key = ProtectionKey::new(1);
    [
        u64::from(storage.size()),
        u64::from(storage.byte(0x600)),
        u64::from(storage.half(0x600)),
        u64::from(storage.word(0x600)),
        storage.double(0x600),
        storage.bytes(0x600, 3).len() as u64,
        u64::from(storage.key(1).number()),
        storage.fetch_bit(1) as u64,
        storage.fetch_protection() as u64,
        (storage.check(0x7FF, 2, Access::Store, key) == Checked::Protection) as u64,
    ]
}

/// What the reader, the punch, the printer and the console show of their media.
fn of_media(machine: &Machine) -> [u64; 15] {
    let (reader, punch) = (machine.reader().media(), machine.punch().media());
    let (printer, console) = (machine.printer().media(), machine.console().media());
    [
        reader.cards() as u64,
        reader.fed() as u64,
        reader.card(1).is_some() as u64,
        reader.stacker(1).is_some() as u64,
        reader.end_of_file() as u64,
        punch.cards() as u64,
        punch.card(1).is_some() as u64,
        u64::from(printer.position().line()),
        printer.records() as u64,
        printer.record(1).is_some() as u64,
        console.typed_count() as u64,
        console.typed(1).is_some() as u64,
        console.entered_count() as u64,
        console.line(1).is_some() as u64,
        console.taken() as u64,
    ]
}

/// What a tape shows.
fn of_tape(tape: &Tape) -> [u64; 5] {
    let tape = tape.media();
    [
        tape.items() as u64,
        tape.item(1).is_some() as u64,
        tape.position() as u64,
        tape.protected() as u64,
        tape.unloaded() as u64,
    ]
}

/// How a device begins a command: the number of bytes that it gives or takes, the first that it gives, and its first
/// sense byte.
fn of_device<D: Device>(device: &D, command: u8) -> [u64; 3] {
    let (count, first) = match device.begin(command) {
        Begin::Input(count) if count > 0 => (count, device.input_byte(command, 0)),
        Begin::Input(count) | Begin::Output(count) => (count, 0),
        Begin::Control | Begin::NotYet | Begin::Refused(_) => (0, 0),
    };
    [
        u64::from(count),
        u64::from(first),
        u64::from(device.sense()[0]),
    ]
}

/// The condition codes of the input/output instructions where each unit is idle.
fn of_idle_units(storage: &Storage) -> [u64; 5] {
    let units = Units::idle();
    [
        u64::from(start(storage, &units, TAPE).condition.code()),
        u64::from(start(storage, &units, LACKING).condition.code()),
        u64::from(test(&units, TAPE).condition.code()),
        u64::from(halt(&units, TAPE).condition.code()),
        u64::from(test_channel(&units, 2).condition.code()),
    ]
}

/// The words of a channel program, as they are read and written.
fn of_words() -> [u64; 6] {
    let loading = Program::loading();
    [
        u64::from(loading.key().number()),
        u64::from(loading.next_address()),
        u64::from(Caw::from_word(0x1000_0400).to_word()),
        Caw::from_word(0x1000_0401).is_whole() as u64,
        Ccw::from_u64(0x0200_0600_2000_0050).to_u64(),
        Csw::from_u64(0x1000_0408_0C40_0050).to_u64(),
    ]
}

/// The numbers that calls have answered.
fn told(rt: &HostRuntime, alloc: Global, numbers: &[u64]) -> Result<String, Fault> {
    end(rt)?;
    Ok(format!(in alloc; "{numbers:?}")?)
}

/// A session, of which calls are made between marks.
#[derive(Drop)]
struct Counted<'a> {
    rt: &'a HostRuntime,
    session: &'a mut Session,
}

impl<'a> Counted<'a> {
    /// Makes an event, takes it back, and makes what was taken back again.
    fn make(&mut self, alloc: Global, line: &str) -> Result<String, Fault> {
        self.session.forward(event(alloc, line)?)?;
        begin(self.rt, "Session::back")?;
        let event = self.session.back();
        end(self.rt)?;
        self.session.forward(event.ok().ok_or(Fault::Unforeseen)?)?;
        Ok(String::new(alloc))
    }

    /// What a device of a name shows where it is to begin a command.
    fn of_device(&self, name: &str, command: u8) -> [u64; 3] {
        let machine = self.session.machine();
        match name {
            "reader" => of_device(machine.reader(), command),
            "punch" => of_device(machine.punch(), command),
            "printer" => of_device(machine.printer(), command),
            "console" => of_device(machine.console(), command),
            _ => match machine.tape(TAPE) {
                Some(tape) => of_device(tape, command),
                None => [0; 3],
            },
        }
    }

    /// What the machine shows by some of its calls.
    fn of_machine(&self, alloc: Global, calls: &str) -> Result<String, Fault> {
        let machine = self.session.machine();
        match calls {
            "Machine" => told(self.rt, alloc, &of_machine(machine)),
            "Storage" => told(self.rt, alloc, &of_storage(machine.storage())),
            "Media" => told(self.rt, alloc, &of_media(machine)),
            "Tape" => match machine.tape(TAPE) {
                Some(tape) => told(self.rt, alloc, &of_tape(tape)),
                None => Err(Fault::Unforeseen),
            },
            "Units" => told(self.rt, alloc, &of_idle_units(machine.storage())),
            _ => told(self.rt, alloc, &of_words()),
        }
    }
}

impl<'a> Subject for Counted<'a> {
    fn answer(&mut self, alloc: Global, words: &mut Words<'_>) -> Result<String, Fault> {
        let calls = words.next_word();
        if calls == "do" {
            return self.make(alloc, words.rest());
        }
        begin(self.rt, calls)?;
        match calls {
            "Session::standing" => told(self.rt, alloc, &[u64::from(self.session.standing())]),
            "Session::last_change" => {
                let last = self.session.last_change(place_of(words.rest())?);
                told(self.rt, alloc, &[u64::from(last.unwrap_or(0))])
            }
            "Session::changes_of" => {
                let changes = self.session.changes_of(place_of(words.rest())?);
                told(self.rt, alloc, &[changes.len() as u64])
            }
            "Session::back_to" => {
                let number = self.session.back_to(words.word());
                told(self.rt, alloc, &[u64::from(number)])
            }
            "Session::back_until" => {
                let mut breaks = Breaks::new();
                breaks.add(words.word());
                let number = self.session.back_until(&breaks);
                told(
                    self.rt,
                    alloc,
                    &[u64::from(number), u64::from(breaks.len())],
                )
            }
            "Session::back" => {
                let stood = self.session.back().is_ok();
                told(self.rt, alloc, &[stood as u64])
            }
            "Device" => {
                let (device, command) = (words.next_word(), words.below(0x100) as u8);
                let numbers = self.of_device(device, command);
                told(self.rt, alloc, &numbers)
            }
            _ => self.of_machine(alloc, calls),
        }
    }
}

/// A session that is to be made.
#[derive(Drop)]
struct ToCount<'a> {
    rt: &'a HostRuntime,
}

impl<'a> Lent for ToCount<'a> {
    fn begin(&self) -> Result<(), Fault> {
        Ok(begin(self.rt, "Session::new")?)
    }

    fn use_session(&mut self, alloc: Global, session: &mut Session) -> Result<String, Fault> {
        end(self.rt)?;
        fault_of_rows(
            alloc,
            &mut Counted {
                rt: self.rt,
                session,
            },
            CALLS,
        )
    }
}

/// What is wrong with calls of a session over a card and a tape of five blocks.
fn fault_of_calls(rt: &HostRuntime) -> Result<String, Fault> {
    let alloc = rt.alloc();
    let tape = Media::FiveBlocks.tape(alloc)?;
    lend_over(
        alloc,
        0x1_0000,
        Media::Card.deck(),
        tape,
        60,
        &mut ToCount { rt },
    )
}

/// What a storage has after exchanges with it: a byte and two behind it, a key, and what was in their place.
fn exchanged(rt: &HostRuntime) -> Result<[u64; 3], Fault> {
    let mut storage = Storage::new_with_fetch(rt.alloc(), LEAST_SIZE)?;
    let mut bytes = [0xC1, 0xC2];
    begin(rt, "Storage::swap")?;
    put(&mut storage, Place::Byte(0x600), 0xC3);
    put(&mut storage, Place::Key(1), 0xF);
    prove!(storage.size() >= LEAST_SIZE);
    storage.swap_run(0x601, &mut bytes);
    end(rt)?;
    prove!(storage.size() >= LEAST_SIZE);
    Ok([
        u64::from(storage.word(0x600)),
        u64::from(storage.key(1).number()),
        u64::from(bytes[0]),
    ])
}

/// What a plan of one register has, and new devices.
fn made_anew(rt: &HostRuntime) -> Result<[u64; 8], Fault> {
    let alloc = rt.alloc();
    let deck = deck_from(alloc, Media::Card.deck())?;
    begin(rt, "new")?;
    let mut plan = Plan::new(alloc);
    let reader = Reader::new(alloc, deck);
    let _pressed = reader.plan_end_key();
    let (punch, packed) = (Punch::new(alloc), Packed::new(alloc));
    let (printer, console) = (PrinterMedia::new(alloc), ConsoleMedia::new(alloc));
    end(rt)?;
    plan.put(Place::Register(1), 5)?;
    begin(rt, "Plan")?;
    let (len, cell, value) = (plan.len(), plan.cell(0), plan.value(Place::Register(1)));
    end(rt)?;
    Ok([
        u64::from(len),
        cell.value,
        value.unwrap_or(0),
        reader.media().cards() as u64,
        punch.media().cards() as u64,
        u64::from(packed.len()),
        printer.records() as u64,
        console.typed_count() as u64,
    ])
}

#[test]
fn calls_without_memory(rt: HostRuntime) -> Result<(), Fail> {
    assert_no_fault(&rt, fault_of_calls(&rt));
    assert_eq!(rt; exchanged(&rt)?, [0xC3C1_C200, 0xF, 0]);
    assert_eq!(rt; made_anew(&rt)?, [1, 5, 5, 1, 0, 0, 0, 0]);
    Ok(())
}

/// Events of each kind, each made, taken back and made again, and calls with the numbers that they answer.
const CALLS: &str = "
* A word of a channel program is read by five units in turn: a card and a tape block go to 600, and what stands there is
* punched, printed, typed and written on the tape.
do patch p 0000000000000200
do patch s 48 00000400
do patch s 200 9C00000C9C0001809C00000D9C00000E9C00001F9D0001809C000180
do patch s 400 0200060020000050
do step
do channel C
do step
do channel 180
do patch s 400 01
do step
do channel D
do step
do channel E
do step
do channel 1F
do step
do step
do channel 180
* patches of each other kind, the timer and the keys
do patch r 1 5
do patch k 800 3
do patch f 800 1
do tick
do key interrupt
do key request
do key eof
do enter AB
do key stop
do key start
* the PSW, register 1, whether it operates, the conditions pending, and units
Machine -> [540, 5, 1, 192, 1, 0, 1, 0, 0]
* the size, four operands at 600 and the length of a fifth, the key and the fetch bit, and a store that is protected
Storage -> [65536, 193, 49601, 3250700737, 13961653357748797889, 3, 3, 0, 0, 1]
Media -> [1, 1, 1, 1, 1, 1, 1, 1, 1, 1, 1, 1, 1, 1, 0]
Tape -> [2, 1, 2, 0, 0]
Device reader 4 -> [1, 0, 0]
Device punch 1 -> [80, 0, 0]
Device printer 1 -> [132, 0, 0]
Device console A -> [2, 193, 0]
Device tape C -> [80, 193, 0]
Units -> [0, 3, 0, 0, 3]
Words -> [0, 0, 268436480, 0, 144121785682493520, 1152925937218617424]
Session::standing -> [28]
* a tape at its end loads nothing
do load 180
do channel 180
do key reset
do key start
Session::last_change p -> [17]
Session::last_change s 600 -> [6]
Session::last_change s 53 -> [0]
Session::changes_of r 1 -> [1]
Session::back_until 204 -> [6, 1]
Session::standing -> [6]
Session::back_to 3 -> [3]
Session::back -> [1]
Session::back -> [1]
Session::back -> [1]
Session::back -> [0]
Session::standing -> [0]
";
