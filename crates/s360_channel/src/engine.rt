//! One channel event: a channel command word executed over a device. Source: GA22-6821,
//! "Input/Output Operations", execution of input/output operations.
ghost use Rattle.std.specs.Prelude.{◌≡◌, ◌≤◌, ◌<◌, ◌+◌, ◌^◌};
ghost use Rattle.std.specs.Prelude.{Some, None, [], IfErr, IfNone, IfOk, IfSome, IsSome, OnErr, length};
ghost use Rattle.s360_store.specs.declared.protection.Checked.TheVariants.{Clear};
ghost use Rattle.s360_device.specs.Transfers.{CanEndWith, IsOutput, MovesBytes};
ghost use Rattle.s360_device.specs.declared.device.Begin.TheVariants.{Input, Output};
ghost use Rattle.s360_channel.specs.Execution.{Execution, WordAtHand, after_input};
ghost use Rattle.s360_channel.specs.Execution.{after_output, command_ends, conclusion_of, ended_unit};
ghost use Rattle.s360_channel.specs.Execution.{execute_begun, execute_input, execute_output, moves_nothing};
ghost use Rattle.s360_channel.specs.Execution.{refused_unit, storing, unless_checked};
ghost use Rattle.s360_channel.specs.Steps.{EventMovesBytes, ExecutesEvent, ExecutesWord, IsChangeOf, LiesIn};
ghost use Rattle.s360_channel.specs.Steps.{MeetsCheck, output_of};
ghost use Rattle.s360_channel.specs.Steps.{PlansEvent, StepsWord, at_hand, change_of_step, device_view};
ghost use Rattle.s360_channel.specs.Steps.{state_after_step};

use crate::ccw::{Ccw, reads_backward};
use crate::command_word::CommandWord;
use crate::conclusion::{Conclusion, ended_unit, protection_check, refused_unit};
use crate::csw::{ChannelStatus, Csw, UnitStatus};
use crate::fetching::{Fetched, next_ccw};
use crate::gathering::{OutputBytes, fetched, stored_bytes};
use crate::program::{Program, Progress};
use crate::storing::{Run, plan_run, run_of};
use crate::transfer::{Transfer, access_of, input_transfer, lowest_address, output_transfer};
use s360_device::{Begin, Device};
use s360_store::{Access, Checked, Plan, Storage};
use std::alloc::{AllocError, Global};

/// What one channel event makes of a unit that executes a program.
#[derive(Drop)]
pub enum ChannelStep<C> {
    /// The device cannot begin the command yet, and nothing happens.
    NotYet,
    /// The program goes on, with the device's change where a command has ended and alters it.
    GoesOn { program: Program, change: Option<C> },
    /// The program has ended and its status word waits, with the device's change likewise.
    Ends { csw: Csw, change: Option<C> },
}

/// What a word of a program does: its step, and what it stores.
#[derive(Drop)]
pub struct Executed<C> {
    /// The step of the program.
    pub step: ChannelStep<C>,
    /// What is stored, if anything is.
    pub stores: Option<Run>,
}

/// What was executed that stores nothing.
fn without_stores<C: Drop>(step: ChannelStep<C>) -> Executed<C>
    ensures step { result.step ≡ step }
    ensures stores { result.stores ≡ None }
{
    Executed { step, stores: None }
}

/// The device's change by a command that ends with these bytes of output, where it alters the device,
/// and whether there is unit exception.
fn change_of<D: Device>(
    word: &CommandWord<'_, D>,
    output: &[u8],
) -> Result<(Option<D::Change>, bool), AllocError>
    requires can { CanEndWith (at_hand D.Device word.now).begin output.now }
    ensures change { IfOk result (λ r. IsChangeOf D.Device word.now.device.now (Some (record { command = word.now.command; output = output.now })) r.0) }
    ensures exception { IfOk result (λ r. r.1 ≡ (at_hand D.Device word.now).exception) }
    ensures memory { OnErr result (IsOutput (at_hand D.Device word.now).begin) }
{
    let planned = word.device.plan(word.command, output)?;
    let exception = planned.exception;
    let change = if planned.alters {
        Some(planned.change)
    } else {
        None
    };
    Ok((change, exception))
}

/// The end of a command that moves no byte, which leaves the count.
fn end_without_bytes<D: Device>(
    word: &CommandWord<'_, D>,
    unit: UnitStatus,
    change: Option<D::Change>,
) -> ChannelStep<D::Change>
    ensures state { state_after_step word.now.program.now result ≡ (moves_nothing (at_hand D.Device word.now) unit).state }
    ensures change { change_of_step result ≡ change }
{
    let conclusion = Conclusion {
        unit,
        channel: ChannelStatus::none(),
        residual: word.ccw.count,
    };
    word.concluded(&conclusion, change)
}

/// A word of a control.
fn execute_control<D: Device>(
    word: &CommandWord<'_, D>,
) -> Result<ChannelStep<D::Change>, AllocError>
    requires can { CanEndWith (at_hand D.Device word.now).begin [] }
    ensures memory { OnErr result (IsOutput (at_hand D.Device word.now).begin) }
    ensures step { let w = at_hand D.Device word.now in IfOk result (StepsWord D.Device word.now (moves_nothing w (ended_unit w.exception))) }
{
    let (change, exception) = change_of(word, &[])?;
    Ok(end_without_bytes(word, ended_unit(exception), change))
}

/// A word of a command that the device refuses.
fn execute_refused<D: Device>(
    word: &CommandWord<'_, D>,
) -> Result<ChannelStep<D::Change>, AllocError>
    requires can { CanEndWith (at_hand D.Device word.now).begin [] }
    ensures memory { OnErr result (IsOutput (at_hand D.Device word.now).begin) }
    ensures step { IfOk result (StepsWord D.Device word.now (moves_nothing (at_hand D.Device word.now) refused_unit)) }
{
    let (change, _) = change_of(word, &[])?;
    Ok(end_without_bytes(word, refused_unit(), change))
}

/// The end of a command with these bytes of output, after the last of its transfers.
fn end_of<D: Device>(
    word: &CommandWord<'_, D>,
    transfer: &Transfer,
    output: &[u8],
) -> Result<ChannelStep<D::Change>, AllocError>
    requires can { CanEndWith (at_hand D.Device word.now).begin output.now }
    ensures { let w = at_hand D.Device word.now in IfOk result (StepsWord D.Device word.now (command_ends w (conclusion_of w transfer.now) output.now)) }
{
    let (change, exception) = change_of(word, output)?;
    let conclusion = Conclusion {
        unit: ended_unit(exception),
        channel: ChannelStatus {
            incorrect_length: transfer.incorrect_length,
            ..ChannelStatus::none()
        },
        residual: transfer.residual,
    };
    Ok(word.concluded(&conclusion, change))
}

/// The channel status of the check that an access meets, if it meets one: then nothing else is executed.
fn status_of_check(met: Checked) -> Option<ChannelStatus>
    ensures clear { IfNone result (met ≡ Clear) }
    ensures check { IfSome result (λ status. (w : WordAtHand) → MeetsCheck (unless_checked w met) w status) }
{
    match met {
        Checked::Clear => None,
        Checked::Addressing => Some(ChannelStatus::program_check()),
        Checked::Protection => Some(protection_check()),
    }
}

/// The bytes of an input as they go to storage, or the status of the check that they meet.
fn run_to_store<D: Device>(
    storage: &Storage,
    word: &CommandWord<'_, D>,
    bytes: Vec<u8>,
) -> Result<Option<Run>, ChannelStatus>
    requires short { length bytes.items ≤ 65535 }
    ensures run { IfOk result (λ run. (e : Execution) → storing storage.now (at_hand D.Device word.now) bytes.items e ≡ record e { stores = run }) }
    ensures inside { IfOk result (λ run. IfSome run (λ r. LiesIn storage.now r)) }
    ensures check { let w = at_hand D.Device word.now in IfErr result (MeetsCheck (storing storage.now w bytes.items) w) }
{
    let backward = reads_backward(word.command);
    let count = bytes.as_slice().len() as u16;
    let lowest = lowest_address(backward, word.ccw.address, count);
    let key = word.program.key;
    match status_of_check(access_of(storage, key, Access::Store, count, lowest)) {
        Some(status) => Err(status),
        None => Ok(run_of(storage, key, lowest, bytes)),
    }
}

/// What follows a word of an input that has moved its bytes.
fn after_input<D: Device>(
    word: &CommandWord<'_, D>,
    transfer: &Transfer,
) -> Result<ChannelStep<D::Change>, AllocError>
    requires can { CanEndWith (at_hand D.Device word.now).begin [] }
    requires moved { (at_hand D.Device word.now).moved + transfer.now.count < 2 ^ 32 }
    ensures { IfOk result (StepsWord D.Device word.now (after_input (at_hand D.Device word.now) transfer.now)) }
{
    if transfer.goes_on {
        let progress = Progress::InputChained {
            command: word.command,
            moved: word.program.progress.moved_before() + u32::from(transfer.count),
        };
        return Ok(word.going_on(progress));
    }
    let step = end_of(word, transfer, &[])?;
    Ok(step)
}

/// A word of an input of so many bytes.
fn execute_input<D: Device>(
    alloc: Global,
    storage: &Storage,
    word: &CommandWord<'_, D>,
    total: u32,
) -> Result<Executed<D::Change>, AllocError>
    requires input { (at_hand D.Device word.now).begin ≡ Input total }
    requires total { length (at_hand D.Device word.now).input ≡ total }
    ensures { IfOk result (ExecutesWord D.Device storage.now word.now (execute_input storage.now (at_hand D.Device word.now) total)) }
{
    let left = total.saturating_sub(word.program.progress.moved_before());
    let transfer = input_transfer(&word.ccw, left);
    let bytes = stored_bytes(alloc, word, transfer.count)?;
    match run_to_store(storage, word, bytes) {
        Ok(stores) => {
            let step = after_input(word, &transfer)?;
            Ok(Executed { step, stores })
        }
        Err(status) => Ok(without_stores(word.program.checked(word.at, status))),
    }
}

/// What follows a word of an output that has fetched its bytes.
fn after_output<D: Device>(
    alloc: Global,
    word: &CommandWord<'_, D>,
    transfer: &Transfer,
    output: &OutputBytes<'_>,
) -> Result<ChannelStep<D::Change>, AllocError>
    requires can { CanEndWith (at_hand D.Device word.now).begin (output_of output.now) }
    ensures { IfOk result (StepsWord D.Device word.now (after_output (at_hand D.Device word.now) transfer.now (output_of output.now))) }
{
    if transfer.goes_on {
        let progress = Progress::OutputChained {
            command: word.command,
            gathered: output.gathered(alloc)?,
        };
        return Ok(word.going_on(progress));
    }
    let bytes = output.to_vec(alloc)?;
    let step = end_of(word, transfer, bytes.as_slice())?;
    Ok(step)
}

/// A word of an output of at most so many bytes.
fn execute_output<D: Device>(
    alloc: Global,
    storage: &Storage,
    word: &CommandWord<'_, D>,
    limit: u32,
) -> Result<ChannelStep<D::Change>, AllocError>
    requires output { (at_hand D.Device word.now).begin ≡ Output limit }
    ensures { IfOk result (StepsWord D.Device word.now (execute_output storage.now (at_hand D.Device word.now) limit)) }
{
    let (program, address) = (word.program, word.ccw.address);
    let transfer = output_transfer(&word.ccw, program.progress.left_within(limit));
    let lowest = Some(address);
    let met = access_of(storage, program.key, Access::Fetch, transfer.count, lowest);
    if let Some(status) = status_of_check(met) {
        return Ok(program.checked(word.at, status));
    }
    let output = OutputBytes {
        before: program.progress.gathered_before(),
        fetched: fetched(storage, address, transfer.count),
        limit,
    };
    let step = after_output(alloc, word, &transfer, &output)?;
    Ok(step)
}

/// A word that is executed, by how the device begins its command.
fn execute_word<D: Device>(
    alloc: Global,
    storage: &Storage,
    word: &CommandWord<'_, D>,
) -> Result<Executed<D::Change>, AllocError>
    ensures memory { OnErr result (MovesBytes (at_hand D.Device word.now).begin) }
    ensures stored { IfOk result (λ x. IsSome x.stores → MovesBytes (at_hand D.Device word.now).begin) }
    ensures executes { let w = at_hand D.Device word.now in IfOk result (ExecutesWord D.Device storage.now word.now (execute_begun storage.now w w.begin)) }
{
    match word.device.begin(word.command) {
        Begin::Input(total) => execute_input(alloc, storage, word, total),
        Begin::Output(limit) => {
            let step = execute_output(alloc, storage, word, limit)?;
            Ok(without_stores(step))
        }
        Begin::Control => {
            let step = execute_control(word)?;
            Ok(without_stores(step))
        }
        Begin::Refused(_) => {
            let step = execute_refused(word)?;
            Ok(without_stores(step))
        }
        Begin::NotYet => Ok(without_stores(ChannelStep::NotYet)),
    }
}

/// Executes one channel event of a unit that executes a program: it answers the step and what is stored. Storage and
/// device are only read. Only a word that moves bytes takes memory: not one that meets a program check, nor a command
/// that moves none, is refused or cannot begin yet.
#[tactic(auto, unfolding(crate::specs::Execution::channel_execution))]
pub fn execute<D: Device>(
    alloc: Global,
    storage: &Storage,
    program: &Program,
    device: &D,
) -> Result<Executed<D::Change>, AllocError>
    ensures memory { OnErr result (EventMovesBytes (device_view D.Device device.now) storage.now program.now) }
    ensures stored { IfOk result (λ x. IsSome x.stores → EventMovesBytes (device_view D.Device device.now) storage.now program.now) }
    ensures executes { IfOk result (ExecutesEvent D.Device device.now storage.now program.now) }
{
    match next_ccw(storage, program) {
        Fetched::Broken(last) => {
            let step = program.checked(last, ChannelStatus::program_check());
            Ok(without_stores(step))
        }
        Fetched::Whole(at, ccw) => {
            let word = CommandWord {
                device,
                program,
                at,
                ccw,
                command: program.progress.command_with(&ccw),
            };
            let executed = execute_word(alloc, storage, &word)?;
            Ok(executed)
        }
    }
}

/// Plans one channel event of a unit that executes a program: it puts what is stored into an empty
/// plan, and answers the step. Storage and device are only read. Only a word that moves bytes takes memory: not one that
/// meets a program check, nor a command that moves none, is refused or cannot begin yet. If memory is wanting, the plan is
/// to be dropped.
pub fn channel_plan<D: Device>(
    alloc: Global,
    storage: &Storage,
    program: &Program,
    device: &D,
    plan: &mut Plan,
) -> Result<ChannelStep<D::Change>, AllocError>
    requires empty { plan.old ≡ [] }
    ensures memory { OnErr result (EventMovesBytes (device_view D.Device device.now) storage.now program.now) }
    ensures executes { IfOk result (PlansEvent D.Device device.now storage.now program.now plan.new) }
{
    let executed = execute(alloc, storage, program, device)?;
    plan_run(storage, &executed.stores, plan)?;
    Ok(executed.step)
}
