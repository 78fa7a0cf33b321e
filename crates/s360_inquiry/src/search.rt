//! Looks back for the last changes that are sought.
ghost use Rattle.std.specs.Prelude.{◌≡◌, ◌≤◌, ◌<◌, ◌+◌, IfOk, OnErr, OnOk, reverse};
ghost use Rattle.s360_journal.specs.Recorded.{with_standing};
ghost use Rattle.s360_journal.specs.Returning.{one_back};
ghost use Rattle.s360_inquiry.specs.Changes.{last_of};
ghost use Rattle.s360_inquiry.specs.Searches.{IsLastFrom};
ghost use Rattle.s360_inquiry.specs.Sought.{ends, is_sought, numbers_sought};

use crate::code_setting::sets_code;
use crate::extent::Extent;
use crate::interruption::{is_interruption, is_supervisor_call};
use crate::jump::jump_of;
use crate::readers::reads_next;
use crate::storing::span_stored;
use crate::visit::is_visit;
use s360_journal::Session;
use std::alloc::{AllocError, Global};

/// Which changes are sought.
#[derive(Clone, Copy)]
pub(crate) enum Sought {
    /// Those whose events execute what is at an address.
    Visits(u32),
    /// Those that lead the program elsewhere, or might.
    Jumps,
    /// Those that set the condition code.
    CodeSettings,
    /// Interruptions.
    Interruptions,
    /// Supervisor calls with a code.
    SupervisorCalls(u8),
    /// Those whose events store into an extent.
    Stores(Extent),
    /// Those whose events read an extent, since the last store there.
    Readers(Extent),
}

/// Takes the last change back, and answers whether it is sought.
fn take_back(alloc: Global, recording: &mut Session, sought: Sought) -> Result<bool, AllocError>
    ensures sought { IfOk result (λ found. found ≡ is_sought sought recording.old recording.old.standing) }
    ensures state { recording.new ≡ one_back recording.old }
{
    let kind = recording.last_event();
    let after = recording.machine().psw();
    let _taken = recording.step_back();
    match sought {
        Sought::Visits(at) => Ok(is_visit(at, recording.machine(), kind)),
        Sought::Jumps => match jump_of(alloc, recording.machine(), kind) {
            Ok(jump) => Ok(jump.is_some()),
            Err(error) => Err(error),
        },
        Sought::Interruptions => match jump_of(alloc, recording.machine(), kind) {
            Ok(jump) => Ok(is_interruption(jump)),
            Err(error) => Err(error),
        },
        Sought::SupervisorCalls(code) => match jump_of(alloc, recording.machine(), kind) {
            Ok(jump) => Ok(is_supervisor_call(jump, code)),
            Err(error) => Err(error),
        },
        Sought::CodeSettings => sets_code(alloc, recording.machine(), after, kind),
        Sought::Stores(extent) => match span_stored(alloc, recording, extent) {
            Ok(span) => Ok(span.is_some()),
            Err(error) => Err(error),
        },
        Sought::Readers(extent) => reads_next(alloc, recording, extent),
    }
}

/// Whether the search ends at the next event of the record.
fn is_end(alloc: Global, recording: &Session, sought: Sought) -> Result<bool, AllocError>
    ensures { IfOk result (λ end. end ≡ ends sought recording.now (recording.now.standing + 1)) }
{
    match sought {
        Sought::Readers(extent) => match span_stored(alloc, recording, extent) {
            Ok(span) => Ok(span.is_some()),
            Err(error) => Err(error),
        },
        _ => Ok(false),
    }
}

/// Numbers from the last one to the first.
fn turned(mut numbers: Vec<u32>) -> Vec<u32>
    ensures { result.items ≡ reverse numbers.items }
{
    numbers.reverse();
    numbers
}

/// The numbers of the last changes that are sought, so many at most, ascending. The recording goes back no further than to just
/// before the first of them, or the change at which the search ends.
pub(crate) fn last_numbers(
    alloc: Global,
    recording: &mut Session,
    sought: Sought,
    most: usize,
) -> Result<Vec<u32>, AllocError>
    ensures numbers { IfOk result (λ numbers. numbers.items ≡ last_of most (numbers_sought sought recording.old)) }
    ensures state { recording.new ≡ with_standing recording.old recording.new.standing }
{
    let mut found = Vec::new(alloc);
    for before in (0..recording.standing()).rev() {
        if found.len() == most {
            return Ok(turned(found));
        }
        let is_sought = take_back(alloc, recording, sought)?;
        if is_end(alloc, recording, sought)? {
            return Ok(turned(found));
        }
        if is_sought {
            found.push(before + 1)?;
        }
    }
    Ok(turned(found))
}

/// The number of the last change that is sought, if one after the first so many is. The recording goes back no further than to
/// just before it, or to these.
pub(crate) fn last_number(
    alloc: Global,
    recording: &mut Session,
    sought: Sought,
    least: u32,
) -> Result<Option<u32>, AllocError>
    requires least { least ≤ recording.old.standing }
    ensures number { IfOk result (λ number. IsLastFrom (is_sought sought recording.old) least recording.old.standing number) }
    ensures state { recording.new ≡ with_standing recording.old recording.new.standing }
{
    for before in (least..recording.standing()).rev() {
        if take_back(alloc, recording, sought)? {
            return Ok(Some(before + 1));
        }
    }
    Ok(None)
}
