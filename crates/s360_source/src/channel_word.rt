//! The channel command word with which a unit's program goes on: what it is found by, and what it does with bytes of storage. Source:
//! GA22-6821, "Input/Output Operations", execution of input/output operations.
ghost use Rattle.std.specs.Prelude.{◌≡◌, ◌++◌, ◌&&◌, ℕ, IfOk, not};
ghost use Rattle.s360_device.specs.Transfers.{IsInputOf};
ghost use Rattle.s360_channel.specs.Execution.{DeviceView, command_with, word_at_hand};
ghost use Rattle.s360_channel.specs.Programs.{is_first, next_ccw};
ghost use Rattle.s360_channel.specs.Steps.{device_view, state_after_step};
ghost use Rattle.s360_channel.specs.Words.{is_transfer};
ghost use Rattle.s360_channel.specs.declared.program.Program.{Program as Programs};
ghost use Rattle.s360_channel.specs.declared.unit_state.UnitState.{UnitState as States};
ghost use Rattle.s360_channel.specs.declared.unit_state.UnitState.TheVariants.{Active};
ghost use Rattle.s360_machine.specs.Loading.{has_loaded};
ghost use Rattle.s360_machine.specs.Machine.{seen};
ghost use Rattle.s360_footprint.specs.ChannelReadings.{bytes_met, ccw_read, next_ccw_read};
ghost use Rattle.s360_footprint.specs.ChannelRows.{device_seen};
ghost use Rattle.s360_footprint.specs.OperandReadings.{profile_of};
ghost use Rattle.s360_footprint.specs.Readings.{places_read};
ghost use Rattle.s360_footprint.specs.Values.{device_of};
ghost use Rattle.s360_source.specs.Channels.{IsExecuted, IsMovedAt, IsMovedBy, IsMoving, moving_of, status_of};
ghost use Rattle.s360_source.specs.Parts.{places_of_part};

use crate::access::is_guarded;
use crate::channel_moves::{Extent, Movement};
use crate::location::Location;
use crate::part::Part;
use s360_channel::{
    Ccw, ChannelStep, Fetched, Program, Progress, ccw_at, execute, next_ccw, status_halfword,
};
use s360_device::{Begin, Device};
use s360_machine::{ConfiguredUnit, Machine, RunState};
use s360_store::GREATEST_SIZE;
use std::alloc::{AllocError, Global};

/// Channel end and device end, and nothing else.
const CLEAN_END: u16 = 0x0C00;

/// What a word does with bytes of storage.
#[derive(Clone, Copy)]
pub(crate) struct Moved {
    /// The keys that its bytes look at.
    pub keys: Part,
    /// The bytes that an output fetches.
    pub fetched: Part,
    /// The bytes of an input that are stored.
    pub stored: Extent,
    /// Whether its command ends at the device.
    pub ends: bool,
}

/// A word of a unit's program.
#[derive(Clone, Copy)]
pub(crate) struct ChannelWord {
    /// The unit.
    pub unit: ConfiguredUnit,
    /// The bytes of the word with which the program goes on, if one stands there.
    pub word: Part,
    /// The bytes of the one that it leads to, if it is a transfer in channel.
    pub target: Part,
    /// What it does with bytes of storage.
    pub moved: Moved,
    /// Whether it ends loading.
    pub loads: bool,
}

impl Moved {
    /// Nothing is moved, and the command may end.
    fn nothing(ends: bool) -> Moved
        ensures { result ≡ record {
          keys = Part.Bytes 0 0;
          fetched = Part.Bytes 0 0;
          stored = record { address = 0; count = 0 };
          ends = ends;
        } }
    {
        Moved {
            keys: Part::none(),
            fetched: Part::none(),
            stored: Extent::none(),
            ends,
        }
    }

    /// What a word does, by how its device begins its command.
    fn begun(machine: &Machine, program: &Program, ccw: &Ccw, begin: Begin) -> Moved
        ensures { (d : DeviceView) → (at : ℕ) → IsInputOf begin (d.input (command_with program.now.progress ccw.now))
            → IsMovedBy (seen machine.now.whole) (word_at_hand d program.now at ccw.now) begin result }
    {
        match begin {
            Begin::Input(total) => {
                let movement = Movement::of_input(program, ccw, total);
                let (keys, stored, ends) = checked(machine, program, movement);
                Moved {
                    keys,
                    fetched: Part::none(),
                    stored,
                    ends,
                }
            }
            Begin::Output(limit) => {
                let movement = Movement::of_output(program, ccw, limit);
                let (keys, fetched, ends) = checked(machine, program, movement);
                Moved {
                    keys,
                    fetched: Part::Bytes(fetched.address, fetched.count),
                    stored: Extent::none(),
                    ends,
                }
            }
            Begin::Control | Begin::Refused(_) => Moved::nothing(true),
            Begin::NotYet => Moved::nothing(false),
        }
    }
}

/// The keys that the bytes of a movement look at, where those are that move, and whether the command ends.
fn checked(machine: &Machine, program: &Program, movement: Movement) -> (Part, Extent, bool)
    ensures keys { places_of_part result.0 ≡ places_read
        (bytes_met (profile_of machine.now.whole.core) program.now.key movement.kind movement.count movement.lowest) (seen machine.now.whole) }
    ensures moving { IsMoving (moving_of machine.now.whole.core.storage program.now.key movement) movement result.1 result.2 }
{
    let keys = keys_looked_at(machine, program, movement);
    match movement.moving(machine.storage(), program.key) {
        Some(bytes) => (keys, bytes, !movement.goes_on),
        None => (keys, Extent::none(), false),
    }
}

/// The keys that the bytes of a movement look at.
fn keys_looked_at(machine: &Machine, program: &Program, movement: Movement) -> Part
    ensures { places_of_part result ≡ places_read
        (bytes_met (profile_of machine.now.whole.core) program.now.key movement.kind movement.count movement.lowest) (seen machine.now.whole) }
{
    let bytes = movement.extent(machine.storage());
    if is_guarded(machine, movement.kind, program.key) {
        Part::Keys(bytes.address, bytes.count)
    } else {
        Part::Keys(bytes.address, 0)
    }
}

/// The bytes of a word, if one stands at an address.
fn word_at(machine: &Machine, address: u32) -> Part
    ensures { places_of_part result ≡ places_read (ccw_read (profile_of machine.now.whole.core) address) (seen machine.now.whole) }
{
    // So its address is below 2^24.
    prove!(machine.storage().size() <= GREATEST_SIZE);
    match ccw_at(machine.storage(), address) {
        Some(_) => Part::Bytes(Location::new(address), 8),
        None => Part::none(),
    }
}

/// Whether a word of a program leads to another one.
fn leads_on(program: &Program, ccw: &Ccw) -> bool
    ensures { result ≡ (is_transfer ccw.now && not (is_first program.now.progress)) }
{
    ccw.is_transfer() && !matches!(program.progress, Progress::First)
}

/// The bytes of the word with which a program goes on, and of the one that it leads to.
pub(crate) fn words_of(machine: &Machine, program: &Program) -> (Part, Part)
    ensures { places_of_part result.0 ++ places_of_part result.1
        ≡ places_read (next_ccw_read (profile_of machine.now.whole.core) program.now) (seen machine.now.whole) }
{
    if program.progress.is_loading() {
        return (Part::none(), Part::none());
    }
    let word = word_at(machine, program.address);
    let Some(ccw) = ccw_at(machine.storage(), program.address) else {
        return (word, Part::none());
    };
    if leads_on(program, &ccw) {
        return (word, word_at(machine, ccw.address));
    }
    (word, Part::none())
}

/// What the word does over a device with which a program goes on.
fn moved_by<D: Device>(machine: &Machine, program: &Program, device: &D) -> Moved
    ensures { IsMovedAt (seen machine.now.whole) (device_view D.Device device.now) program.now
        (next_ccw machine.now.whole.core.storage program.now) result }
{
    match next_ccw(machine.storage(), program) {
        Fetched::Broken(_) => Moved::nothing(false),
        Fetched::Whole(_, ccw) => {
            let begin = device.begin(program.progress.command_with(&ccw));
            Moved::begun(machine, program, &ccw, begin)
        }
    }
}

/// Whether a step ends the program of loading: the machine loads from the unit, and all went well.
fn has_loaded<C: Drop>(run: RunState, unit: ConfiguredUnit, step: &ChannelStep<C>) -> bool
    ensures { (p q : Programs) → (state : States) → status_of state ≡ status_of (state_after_step q step.now) → result ≡ has_loaded run unit (Active p) state }
{
    match (run, step) {
        (RunState::Loading(from), ChannelStep::Ends { csw, .. }) => {
            from == unit.unit() && status_halfword(&csw.unit, &csw.channel) == CLEAN_END
        }
        _ => false,
    }
}

/// What the word of a unit does over a device, and whether it ends loading.
fn executed_by<D: Device>(
    alloc: Global,
    machine: &Machine,
    unit: ConfiguredUnit,
    program: &Program,
    device: &D,
) -> Result<(Moved, bool), AllocError>
    ensures { IfOk result (λ x. IsExecuted (device_view D.Device device.now) unit program.now (seen machine.now.whole) x.0 x.1) }
{
    let executed = execute(alloc, machine.storage(), program, device)?;
    let loads = has_loaded(machine.run(), unit, &executed.step);
    Ok((moved_by(machine, program, device), loads))
}

/// What the word of a unit does, and whether it ends loading.
pub(crate) fn executed_at(
    alloc: Global,
    machine: &Machine,
    unit: ConfiguredUnit,
    program: &Program,
) -> Result<(Moved, bool), AllocError>
    ensures { IfOk result (λ x. IsExecuted (device_seen unit (device_of unit (seen machine.now.whole).media)) unit program.now
        (seen machine.now.whole) x.0 x.1) }
{
    match unit {
        ConfiguredUnit::Reader => executed_by(alloc, machine, unit, program, machine.reader()),
        ConfiguredUnit::Punch => executed_by(alloc, machine, unit, program, machine.punch()),
        ConfiguredUnit::Printer => executed_by(alloc, machine, unit, program, machine.printer()),
        ConfiguredUnit::Console => executed_by(alloc, machine, unit, program, machine.console()),
        ConfiguredUnit::Tape0 | ConfiguredUnit::Tape1 => match machine.tape(unit.unit()) {
            Some(tape) => executed_by(alloc, machine, unit, program, tape),
            None => unreachable!(),
        },
    }
}
