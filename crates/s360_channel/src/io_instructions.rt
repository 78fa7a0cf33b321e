//! The input/output instructions. Each answers a condition code, what is stored of the channel status
//! word, and which unit becomes what; none takes memory. Source: GA22-6821, "Input/Output
//! Operations", START I/O, TEST I/O, HALT I/O and TEST CHANNEL.
ghost use Rattle.std.specs.Prelude.{◌≡◌};
ghost use Rattle.s360_model.specs.Storage.{word_at};
ghost use Rattle.s360_channel.specs.IoInstructions.{becomes, caw_location, halt_io, halt_unit, halted_unit, is_immediate, not_operational};
ghost use Rattle.s360_channel.specs.IoInstructions.{result_of_halt, start_io, start_unit, start_with, test_channel, test_io, test_unit, with_code, with_status};
ghost use Rattle.s360_channel.specs.Words.{caw_of};

use crate::caw::Caw;
use crate::ccw::Ccw;
use crate::configured_unit::{ChannelKind, ConfiguredUnit};
use crate::csw::{ChannelStatus, Csw, UnitStatus};
use crate::fetching::{Fetched, next_ccw};
use crate::program::{Program, Progress};
use crate::unit_control::UnitControl;
use crate::unit_state::UnitState;
use crate::units::Units;
use s360_store::{LEAST_SIZE, Storage};
use s360_word::{Cc, Unit};

/// The address of the channel address word.
const CAW: u32 = 72;

/// What is stored of the channel status word.
#[derive(Clone, Copy)]
pub enum CswStore {
    /// Nothing.
    Nothing,
    /// Bits 32 to 47 alone.
    Status(UnitStatus, ChannelStatus),
    /// All of it.
    Csw(Csw),
}

/// A unit, and how it stands then.
#[derive(Drop)]
pub struct UnitAfter {
    /// The unit.
    pub unit: ConfiguredUnit,
    /// How it stands.
    pub control: UnitControl,
}

/// What an input/output instruction does.
#[derive(Drop)]
pub struct IoResult {
    /// The condition code.
    pub condition: Cc,
    /// What is stored of the channel status word.
    pub stores: CswStore,
    /// The unit that does not stay as it is, where there is one: HALT I/O of a tape may end the program of the
    /// other.
    pub unit: Option<UnitAfter>,
}

impl IoResult {
    /// A condition code alone.
    fn with_code(condition: Cc) -> IoResult
        ensures { result ≡ with_code condition }
    {
        IoResult {
            condition,
            stores: CswStore::Nothing,
            unit: None,
        }
    }

    /// Condition code 1 with bits 32 to 47 of the channel status word.
    fn with_status(unit: UnitStatus, channel: ChannelStatus, next: Option<UnitAfter>) -> IoResult
        ensures { result ≡ with_status unit channel next }
    {
        IoResult {
            condition: Cc::new(1),
            stores: CswStore::Status(unit, channel),
            unit: next,
        }
    }

    /// The unit, or the channel, is not there: condition code 3.
    fn not_operational() -> IoResult
        ensures { result ≡ not_operational }
    {
        IoResult::with_code(Cc::new(3))
    }
}

/// Whether a word would be executed at once: no-operation that is not chained to another.
fn is_immediate(ccw: &Ccw) -> bool
    ensures { result ≡ is_immediate ccw.now }
{
    ccw.command == 0x03 && !ccw.flags.chain_data && !ccw.flags.chain_command
}

/// The unit stands so then.
fn becomes(unit: ConfiguredUnit, control: UnitControl) -> Option<UnitAfter>
    ensures { result ≡ becomes unit control }
{
    Some(UnitAfter { unit, control })
}

/// START I/O of a unit that is available, with the program at the channel address word.
fn start_program(storage: &Storage, unit: ConfiguredUnit) -> IoResult
    ensures { result ≡ start_with storage.now unit (caw_of (word_at storage.now.bytes caw_location)) }
{
    // So the permanent locations are inside storage.
    prove!(storage.size() >= LEAST_SIZE);
    let caw = Caw::from_word(storage.word(CAW));
    let program_check = IoResult::with_status(
        UnitStatus::none(),
        ChannelStatus::program_check(),
        None,
    );
    if !caw.is_whole() {
        return program_check;
    }
    let program = Program {
        key: caw.key,
        address: caw.address,
        progress: Progress::First,
    };
    match next_ccw(storage, &program) {
        Fetched::Broken(_) => program_check,
        Fetched::Whole(_, ccw) if is_immediate(&ccw) => {
            IoResult::with_status(UnitStatus::ended(), ChannelStatus::none(), None)
        }
        Fetched::Whole(..) => {
            let control = UnitControl {
                state: UnitState::Active(program),
                attention: false,
            };
            IoResult {
                condition: Cc::new(0),
                stores: CswStore::Nothing,
                unit: becomes(unit, control),
            }
        }
    }
}

/// START I/O of a unit that is there. `occupied` says whether its channel executes the program of another unit and
/// runs one at a time.
fn start_unit(
    storage: &Storage,
    occupied: bool,
    unit: ConfiguredUnit,
    control: &UnitControl,
) -> IoResult
    ensures { result ≡ start_unit storage.now occupied unit control.now }
{
    if control.state.is_active() || control.state.is_waiting() || occupied {
        return IoResult::with_code(Cc::new(2));
    }
    if control.attention {
        let status = UnitStatus {
            busy: true,
            ..UnitStatus::attention()
        };
        let next = becomes(unit, UnitControl::idle());
        return IoResult::with_status(status, ChannelStatus::none(), next);
    }
    start_program(storage, unit)
}

/// START I/O of the unit at an address.
pub fn start(storage: &Storage, units: &Units, unit: Unit) -> IoResult
    ensures { result ≡ start_io storage.now units.now unit }
{
    match ConfiguredUnit::at(unit) {
        Some(unit) => start_unit(storage, units.is_occupied(unit), unit, units.control(unit)),
        None => IoResult::not_operational(),
    }
}

/// TEST I/O of a unit that is there; `occupied` as for START I/O.
fn test_unit(occupied: bool, unit: ConfiguredUnit, control: &UnitControl) -> IoResult
    ensures { result ≡ test_unit occupied unit control.now }
{
    if control.state.is_active() || occupied {
        return IoResult::with_code(Cc::new(2));
    }
    match control.condition() {
        Some(condition) => IoResult {
            condition: Cc::new(1),
            stores: CswStore::Csw(condition.csw),
            unit: becomes(unit, condition.unit),
        },
        None => IoResult::with_code(Cc::new(0)),
    }
}

/// TEST I/O of the unit at an address.
pub fn test(units: &Units, unit: Unit) -> IoResult
    ensures { result ≡ test_io units.now unit }
{
    match ConfiguredUnit::at(unit) {
        Some(unit) => test_unit(units.is_occupied(unit), unit, units.control(unit)),
        None => IoResult::not_operational(),
    }
}

/// What a halted unit answers on a channel, by what it becomes.
fn result_of_halt(kind: ChannelKind, next: Option<UnitAfter>) -> IoResult
    ensures { result ≡ result_of_halt kind next }
{
    match kind {
        ChannelKind::Multiplexer => {
            IoResult::with_status(UnitStatus::none(), ChannelStatus::none(), next)
        }
        ChannelKind::Selector => IoResult {
            condition: Cc::new(2),
            stores: CswStore::Nothing,
            unit: next,
        },
    }
}

/// HALT I/O of the unit whose program occupies the channel, if there is one.
fn halt_unit(unit: ConfiguredUnit, control: &UnitControl) -> IoResult
    ensures { result ≡ halt_unit unit control.now }
{
    let UnitState::Active(program) = &control.state else {
        return IoResult::with_code(Cc::new(0));
    };
    let csw = Csw {
        key: program.key,
        address: program.address,
        unit: UnitStatus::ended(),
        channel: ChannelStatus::none(),
        count: 0,
    };
    let next = UnitControl {
        state: UnitState::Waiting(csw),
        attention: control.attention,
    };
    result_of_halt(unit.kind(), becomes(unit, next))
}

/// The unit whose program HALT I/O of a unit ends: itself where it is active, or else the other tape where that
/// one is.
fn halted_unit(units: &Units, unit: ConfiguredUnit) -> ConfiguredUnit
    ensures { result ≡ halted_unit units.now unit }
{
    if units.control(unit).state.is_active() {
        return unit;
    }
    units.active_beside(unit).unwrap_or(unit)
}

/// HALT I/O of the unit at an address.
pub fn halt(units: &Units, unit: Unit) -> IoResult
    ensures { result ≡ halt_io units.now unit }
{
    match ConfiguredUnit::at(unit) {
        Some(unit) => {
            let unit = halted_unit(units, unit);
            halt_unit(unit, units.control(unit))
        }
        None => IoResult::not_operational(),
    }
}

/// TEST CHANNEL by the number of the channel.
pub fn test_channel(units: &Units, channel: u16) -> IoResult
    ensures { result ≡ test_channel units.now channel }
{
    let first = &units.control(ConfiguredUnit::Tape0).state;
    let second = &units.control(ConfiguredUnit::Tape1).state;
    let condition = match channel {
        0 => 0,
        1 if first.is_active() || second.is_active() => 2,
        1 if first.is_waiting() || second.is_waiting() => 1,
        1 => 0,
        _ => return IoResult::not_operational(),
    };
    IoResult::with_code(Cc::new(condition))
}
