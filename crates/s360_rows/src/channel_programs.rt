//! Channel programs over the device of the tests, which cannot begin its input at first: chained data,
//! and lengths that are wrong. No unit of the machine is such a device.
ghost use Rattle.std.specs.Prelude.{◌≡◌, []};
ghost use Rattle.s360_model.specs.Exchanges.{CanIfAny};

use crate::fault::Fault;
use crate::rows::{Subject, Words, assert_no_fault, fault_of_rows};
use crate::slate::{Slate, clean_slate, put_line};
use crate::storage::{put, put_bytes};
use s360_channel::{ChannelStep, Program, Progress, UnitState, channel_plan};
use s360_device::Device;
use s360_store::{LEAST_SIZE, Plan, Storage};
use std::alloc::{AllocError, Global};
use std::mem;

/// Makes the change of a device, if there is one.
fn alter<D: Device>(device: &mut D, change: Option<D::Change>) -> Result<(), AllocError>
    requires can { CanIfAny D.can_swap (D.bare device.old) change }
{
    if let Some(mut change) = change {
        device.room(&change)?;
        device.swap(&mut change);
    }
    Ok(())
}

/// Makes one channel event of a program happen but for what it stores, which is planned, and answers what becomes of the
/// unit.
fn state_after<D: Device>(
    alloc: Global,
    storage: &Storage,
    device: &mut D,
    program: Program,
    plan: &mut Plan,
) -> Result<UnitState, AllocError>
    requires empty { plan.old ≡ [] }
{
    let step = channel_plan(alloc, storage, &program, device, plan)?;
    Ok(match step {
        ChannelStep::NotYet => UnitState::Active(program),
        ChannelStep::GoesOn { program, change } => {
            alter(device, change)?;
            UnitState::Active(program)
        }
        ChannelStep::Ends { csw, change } => {
            alter(device, change)?;
            UnitState::Waiting(csw)
        }
    })
}

/// Makes one channel event of a program happen, and answers what becomes of the unit.
fn execute<D: Device>(
    alloc: Global,
    storage: &mut Storage,
    device: &mut D,
    program: Program,
) -> Result<UnitState, AllocError> {
    let mut plan = Plan::new(alloc);
    let state = state_after(alloc, storage, device, program, &mut plan)?;
    for i in 0..plan.len() {
        let cell = plan.cell(i);
        put(storage, cell.place, cell.value);
    }
    Ok(state)
}

/// What a channel does for a unit: the address of the next word, or the status word that waits.
fn text_of_state(alloc: Global, state: &UnitState) -> Result<String, AllocError> {
    match state {
        UnitState::Idle => format!(in alloc; "idle"),
        UnitState::Active(program) => format!(in alloc; "active {:X}", program.next_address()),
        UnitState::Waiting(csw) => format!(in alloc; "waiting {:016X}", csw.to_u64()),
    }
}

/// A unit with the slate, which executes a program.
#[derive(Drop)]
struct Executing {
    storage: Storage,
    slate: Slate,
    state: UnitState,
}

impl Executing {
    /// A storage of 8,192 bytes, a clean slate and no program.
    fn idle(alloc: Global) -> Result<Executing, Fault> {
        let storage = Storage::new(alloc, 0x2000)?;
        Ok(Executing {
            storage,
            slate: clean_slate(alloc),
            state: UnitState::Idle,
        })
    }

    /// Puts the bytes of the next doubleword into storage.
    fn put(&mut self, words: &mut Words<'_>) {
        let address = words.below(0x2000) as u32;
        let doubleword = words.number();
        put_bytes(&mut self.storage, address, &doubleword.to_be_bytes());
    }

    /// One channel event, after which the state is answered.
    fn execute(&mut self, alloc: Global) -> Result<String, AllocError> {
        let state = mem::replace(&mut self.state, UnitState::Idle);
        self.state = match state {
            UnitState::Active(program) => {
                execute(alloc, &mut self.storage, &mut self.slate, program)?
            }
            other => other,
        };
        text_of_state(alloc, &self.state)
    }

    /// The bytes of the lines that are written.
    fn written(&self, alloc: Global) -> Result<String, AllocError> {
        let mut text = String::new(alloc);
        for line in self.slate.media().written() {
            for byte in line {
                write!(text, "{byte:02X}")?;
            }
        }
        Ok(text)
    }

    /// So many bytes from an address on.
    fn bytes(&self, alloc: Global, words: &mut Words<'_>) -> Result<String, AllocError> {
        let address = words.below(0x1000) as u32;
        let count = words.below(0x100) as u32;
        prove!(self.storage.size() >= LEAST_SIZE);
        let mut text = String::new(alloc);
        for byte in self.storage.bytes(address, count) {
            write!(text, "{byte:02X}")?;
        }
        Ok(text)
    }
}

impl Subject for Executing {
    fn answer(&mut self, alloc: Global, words: &mut Words<'_>) -> Result<String, Fault> {
        match words.next_word() {
            "new" => *self = Executing::idle(alloc)?,
            "line" => put_line(&mut self.slate)?,
            "put" => self.put(words),
            "start" => {
                self.state = UnitState::Active(Program {
                    key: words.key(),
                    address: words.below(0x100_0000) as u32,
                    progress: Progress::First,
                });
            }
            "copy" => {
                self.state = self.state.copy()?;
                return Ok(text_of_state(alloc, &self.state)?);
            }
            "event" => return Ok(self.execute(alloc)?),
            "written" => return Ok(self.written(alloc)?),
            _ => return Ok(self.bytes(alloc, words)?),
        }
        Ok(String::new(alloc))
    }
}

/// What is wrong with the rows of a table.
fn fault_of_programs(alloc: Global, rows: &str) -> Result<String, Fault> {
    let mut executing = Executing::idle(alloc)?;
    fault_of_rows(alloc, &mut executing, rows)
}

#[test]
fn programs_over_the_device_of_the_tests(rt: HostRuntime) {
    assert_no_fault(&rt, fault_of_programs(rt.alloc(), INPUT));
    assert_no_fault(&rt, fault_of_programs(rt.alloc(), OUTPUT));
}

/// Reads of its line, which has twelve bytes.
const INPUT: &str = "
* the line is waited for, and then stored
put 400 020006000000000C
start 0 400
event -> active 400
copy -> active 400
event -> active 400
bytes 600 C -> 000000000000000000000000
line
event -> waiting 000004080C000000
bytes 600 C -> 0102030405060708090A0B0C
event -> waiting 000004080C000000
* chained data: five bytes, none of the next three, and the four after them. The command codes of
* the second word and the third say nothing
new
line
put 400 0200060080000005
put 408 0100060090000003
put 410 0000060800000004
start 0 400
event -> active 408
event -> active 410
event -> waiting 000004180C000000
bytes 600 10 -> 0102030405000000090A0B0C00000000
* a count that is too small, with and without the flag that suppresses the length
new
line
put 400 0200060000000007
start 0 400
event -> waiting 000004080C400000
bytes 600 8 -> 0102030405060700
line
put 400 0200060020000007
start 0 400
event -> waiting 000004080C000000
* a count that is too large
line
put 400 0200060000000010
start 0 400
event -> waiting 000004080C400004
line
put 400 0200060020000010
start 0 400
event -> waiting 000004080C000004
* under chained data the flag says nothing: the line ends with a word that chains
line
put 400 02000600A0000010
start 0 400
event -> waiting 000004080C400004
* commands are chained, and the second read waits for its line
new
line
put 400 020006004000000C
put 408 020007000000000C
start 0 400
event -> active 408
event -> active 408
line
event -> waiting 000004100C000000
bytes 700 C -> 0102030405060708090A0B0C
* a store that the program's key does not allow: nothing is stored, and the line is kept
new
line
put 400 020006000000000C
start 5 400
event -> waiting 5000040800100000
start 0 400
event -> waiting 000004080C000000
";

/// Writes of lines, which take at most twelve bytes.
const OUTPUT: &str = "
* chained data: five bytes, three and four
put 600 C1C2C3C4C5C6C7C8
put 608 D1D2D3D4D5D6D7D8
put 400 0100060080000005
put 408 0200060890000003
put 410 0000060500000004
start 0 400
event -> active 408
* a copy of the state goes on with what was gathered
copy -> active 408
event -> active 410
copy -> active 410
written
event -> waiting 000004180C000000
copy -> waiting 000004180C000000
written -> C1C2C3C4C5D1D2D3C6C7C8D1
* fewer bytes than a line has
new
put 600 C1C2C3C4C5C6C7C8
put 400 0100060000000003
start 0 400
event -> waiting 000004080C000000
written -> C1C2C3000000000000000000
* more bytes, with and without the flag that suppresses the length
new
put 400 010006000000000E
start 0 400
event -> waiting 000004080C400002
put 400 010006002000000E
start 0 400
event -> waiting 000004080C000002
* under chained data the flag says nothing: the line is full before the second word ends
new
put 400 010006008000000A
put 408 00000600A0000005
start 0 400
event -> active 408
event -> waiting 000004100C400003
";
