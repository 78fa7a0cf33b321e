//! The visits of an address: the events that execute the instruction or the command word there. Source: GA22-6821, "System
//! Structure", program execution; "Input/Output Operations", transfer in channel.
ghost use Rattle.std.specs.Prelude.{◌≡◌, ◌+◌, ◌++◌, IfOk, OnErr, OnOk};
ghost use Rattle.s360_channel.specs.ConfiguredUnits.{state_at};
ghost use Rattle.s360_machine.specs.Machine.{seen};
ghost use Rattle.s360_journal.specs.Recorded.{with_standing};
ghost use Rattle.s360_inquiry.specs.Changes.{just_before, last_of};
ghost use Rattle.s360_inquiry.specs.Visits.{executes_at, goes_on_at, if_event, is_executing, is_since, leads_to, register_since, since_words};
ghost use Rattle.s360_inquiry.specs.Sought.{numbers_sought};
ghost use Rattle.s360_inquiry.specs.Visits.{state_goes_on_at, supervisor_calls_text, told_visits, unit_goes_on_at, visit_line};
ghost use Rattle.s360_inquiry.specs.Visits.{visit_lines, visits_text};

use crate::change::{go_before, push_event_of};
use crate::going::go_to;
use crate::search::{Sought, last_numbers};
use s360_channel::{Ccw, Program, UnitState, ccw_at};
use s360_debug::text_of_line;
use s360_journal::Session;
use s360_language::{push_place, push_value};
use s360_machine::{CpuCase, EventKind, Machine};
use s360_store::{Place, Storage};
use s360_text::Text;
use s360_word::Unit;
use std::alloc::{AllocError, Global};

/// So many general registers has the machine.
const REGISTERS: u8 = 16;

/// Whether a transfer in channel leads to an address.
fn leads_to(ccw: Option<Ccw>, at: u32) -> bool
    ensures { result ≡ leads_to ccw at }
{
    match ccw {
        Some(ccw) => ccw.is_transfer() && ccw.address == at,
        None => false,
    }
}

/// Whether a program goes on with the command word at an address, or by a transfer in channel with that one.
fn goes_on_at(storage: &Storage, program: &Program, at: u32) -> bool
    ensures { result ≡ goes_on_at storage.now program.now at }
{
    let next = program.next_address();
    !program.progress.is_loading() && (next == at || leads_to(ccw_at(storage, next), at))
}

/// Whether a unit does that stands so.
fn state_goes_on_at(storage: &Storage, state: &UnitState, at: u32) -> bool
    ensures { result ≡ state_goes_on_at storage.now state.now at }
{
    match state {
        UnitState::Active(program) => goes_on_at(storage, program, at),
        UnitState::Idle | UnitState::Waiting(_) => false,
    }
}

/// Whether a unit does, if the machine has it.
fn unit_goes_on_at(machine: &Machine, unit: Unit, at: u32) -> bool
    ensures { result ≡ unit_goes_on_at machine.now.whole.core.storage (state_at machine.now.whole.units unit) at }
{
    match machine.unit(unit) {
        Some(state) => state_goes_on_at(machine.storage(), state, at),
        None => false,
    }
}

/// Whether the CPU executes an instruction.
fn is_executing(case: CpuCase) -> bool
    ensures { result ≡ is_executing case }
{
    matches!(case, CpuCase::Executing)
}

/// Whether an event of this kind executes what is at an address of the machine that it meets.
#[tactic(auto, unfolding(crate::specs::Visits::executes_at))]
fn executes_at(at: u32, machine: &Machine, kind: EventKind) -> bool
    ensures { result ≡ executes_at at (seen machine.now.whole) kind }
{
    match kind {
        EventKind::Cpu => {
            is_executing(machine.cpu_case()) && machine.psw().instruction_address() == at
        }
        EventKind::Channel(unit) => unit_goes_on_at(machine, unit, at),
        _ => false,
    }
}

/// Whether an event, if there is one, executes what is at an address of the machine that it meets.
pub(crate) fn is_visit(at: u32, machine: &Machine, kind: Option<EventKind>) -> bool
    ensures { result ≡ if_event (executes_at at (seen machine.now.whole)) kind }
{
    match kind {
        Some(kind) => executes_at(at, machine, kind),
        None => false,
    }
}

/// Whether a last change is the one of a number, or a later one.
fn is_since(last: Option<u32>, first: u32) -> bool
    ensures { result ≡ is_since last first }
{
    match last {
        Some(last) => first <= last,
        None => false,
    }
}

/// Adds a register with its word, if it was altered by the change of a number or later.
fn push_register(
    text: &mut Text,
    recording: &Session,
    first: u32,
    number: u8,
) -> Result<(), AllocError>
    ensures { OnOk result (text.new ≡ text.old ++ register_since recording.now first number) }
{
    let place = Place::Register(number);
    if !is_since(recording.last_change(place), first) {
        return Ok(());
    }
    text.push_text(" ")?;
    push_place(text, place)?;
    push_value(text, recording.machine(), place)
}

/// Adds the registers that were altered since the visit before, if there is one.
fn push_registers(
    text: &mut Text,
    recording: &Session,
    before: Option<u32>,
) -> Result<(), AllocError>
    ensures { OnOk result (text.new ≡ text.old ++ since_words recording.now before) }
{
    let Some(first) = before else {
        return Ok(());
    };
    for number in 0..REGISTERS {
        push_register(text, recording, first, number)?;
    }
    Ok(())
}

/// Goes to just before a visit, and adds its line. Want of memory leaves the recording at some change.
fn push_visit(
    text: &mut Text,
    recording: &mut Session,
    before: Option<u32>,
    number: u32,
) -> Result<(), AllocError>
    ensures text { OnOk result (text.new ≡ text.old ++ visit_line recording.old before number) }
    ensures state { OnOk result (recording.new ≡ just_before recording.old number) }
    ensures memory { OnErr result (recording.new ≡ with_standing recording.old recording.new.standing) }
{
    let kind = go_before(recording, number)?;
    push_event_of(text, number, recording.machine(), kind)?;
    push_registers(text, recording, before)?;
    text.push_text("\n")
}

/// Adds the lines of visits, the first of which comes after another, if there is one.
fn push_visits(
    text: &mut Text,
    recording: &mut Session,
    before: Option<u32>,
    numbers: &[u32],
) -> Result<(), AllocError>
    ensures text { OnOk result (text.new ≡ text.old ++ visit_lines recording.old before numbers.now) }
    ensures state { recording.new ≡ with_standing recording.old recording.new.standing }
{
    let mut before = before;
    for number in numbers {
        push_visit(text, recording, before, *number)?;
        before = Some(*number);
    }
    Ok(())
}

/// Tells visits, so many at most. If there is one more, it is the one before them.
fn tell_visits(
    alloc: Global,
    recording: &mut Session,
    most: u32,
    numbers: &[u32],
) -> Result<Text, AllocError>
    ensures text { IfOk result (λ text. text ≡ told_visits recording.old most numbers.now) }
    ensures state { recording.new ≡ with_standing recording.old recording.new.standing }
{
    let [first, others @ ..] = numbers else {
        return text_of_line(alloc, "visits none");
    };
    let mut text = Text::new(alloc);
    if numbers.len() > most as usize {
        push_visits(&mut text, recording, Some(*first), others)?;
    } else {
        push_visits(&mut text, recording, None, numbers)?;
    }
    Ok(text)
}

/// Tells the last changes that are sought as visits, so many at most, the oldest first. The recording stands where it stood; want
/// of memory leaves it at some change.
fn answer_sought(
    alloc: Global,
    recording: &mut Session,
    sought: Sought,
    most: u32,
) -> Result<Text, AllocError>
    ensures text { IfOk result (λ text. text ≡ told_visits recording.old most (last_of (most + 1) (numbers_sought sought recording.old))) }
    ensures state { OnOk result (recording.new ≡ recording.old) }
    ensures memory { OnErr result (recording.new ≡ with_standing recording.old recording.new.standing) }
{
    let standing = recording.standing();
    let numbers = last_numbers(alloc, recording, sought, most as usize + 1)?;
    let text = tell_visits(alloc, recording, most, numbers.as_slice())?;
    go_to(recording, standing)?;
    Ok(text)
}

/// Tells the last visits of an address.
pub(crate) fn answer_visits(
    alloc: Global,
    recording: &mut Session,
    at: u32,
    most: u32,
) -> Result<Text, AllocError>
    ensures text { IfOk result (λ text. text ≡ visits_text recording.old at most) }
    ensures state { OnOk result (recording.new ≡ recording.old) }
    ensures memory { OnErr result (recording.new ≡ with_standing recording.old recording.new.standing) }
{
    answer_sought(alloc, recording, Sought::Visits(at), most)
}

/// Tells the last supervisor calls with a code.
pub(crate) fn answer_supervisor_calls(
    alloc: Global,
    recording: &mut Session,
    code: u8,
    most: u32,
) -> Result<Text, AllocError>
    ensures text { IfOk result (λ text. text ≡ supervisor_calls_text recording.old code most) }
    ensures state { OnOk result (recording.new ≡ recording.old) }
    ensures memory { OnErr result (recording.new ≡ with_standing recording.old recording.new.standing) }
{
    answer_sought(alloc, recording, Sought::SupervisorCalls(code), most)
}
