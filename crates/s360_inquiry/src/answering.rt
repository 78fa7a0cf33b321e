//! What an inquiry is answered. Each has its row in `text_of_inquiry`.
ghost use Rattle.std.specs.Prelude.{◌≡◌, IfOk, OnErr, OnOk};
ghost use Rattle.s360_journal.specs.Recorded.{with_standing};
ghost use Rattle.s360_language.specs.ShownBytes.{storage_rows};
ghost use Rattle.s360_language.specs.declared.show_bytes.RowForm.TheVariants.{Signs};
ghost use Rattle.s360_inquiry.specs.Answers.{answer_to, asks_outside, inquired, is_outside, stands_after, stands_after_told, state_after};
ghost use Rattle.s360_inquiry.specs.Answers.{told_answer};

use crate::calling::answer_calls;
use crate::change::{answer_changes, answer_who};
use crate::counting::answer_count;
use crate::going::answer_goto;
use crate::history::answer_history;
use crate::inquiry::Inquiry;
use crate::item::{answer_who_item, whole_item};
use crate::jumping::answer_jumps;
use crate::readers::answer_readers;
use crate::situation::{units_of, where_of};
use crate::storing::answer_stores;
use crate::visit::{answer_supervisor_calls, answer_visits};
use crate::why::answer_why;
use s360_debug::text_of_fault;
use s360_journal::Session;
use s360_language::{LineFault, RowForm, push_storage};
use s360_store::{BLOCK_SIZE, Place, Storage};
use s360_text::Text;
use std::alloc::{AllocError, Global};

/// Answers an inquiry, and notes in `stood` where the recording stood before it, if that goes elsewhere. No inquiry alters the
/// record. Want of memory leaves the recording at some change, and `stood` as it was.
pub fn answer_inquiry(
    alloc: Global,
    recording: &mut Session,
    stood: &mut Option<u32>,
    inquiry: Inquiry,
) -> Result<Text, AllocError>
    ensures text { IfOk result (λ text. text ≡ answer_to (inquired recording.old stood.old) inquiry) }
    ensures state { OnOk result (inquired recording.new stood.new ≡ state_after (inquired recording.old stood.old) inquiry) }
    ensures memory { OnErr result (recording.new ≡ with_standing recording.old recording.new.standing) }
    ensures memory_stood { OnErr result (stood.new ≡ stood.old) }
{
    let before = recording.standing();
    let text = text_of_inquiry(alloc, recording, *stood, inquiry)?;
    if recording.standing() != before {
        *stood = Some(before);
    }
    Ok(text)
}

/// Answers an inquiry, or that its place is a wrong argument.
fn text_of_inquiry(
    alloc: Global,
    recording: &mut Session,
    stood: Option<u32>,
    inquiry: Inquiry,
) -> Result<Text, AllocError>
    ensures text { IfOk result (λ text. text ≡ answer_to (inquired recording.old stood) inquiry) }
    ensures state { OnOk result (recording.new ≡ with_standing recording.old (stands_after (inquired recording.old stood) inquiry)) }
    ensures memory { OnErr result (recording.new ≡ with_standing recording.old recording.new.standing) }
{
    if asks_outside(recording.machine().storage(), inquiry) {
        return text_of_fault(alloc, LineFault::Argument(2));
    }
    told_answer(alloc, recording, stood, inquiry)
}

/// Whether storage does not have a place.
fn is_outside(storage: &Storage, place: Place) -> bool
    ensures { result ≡ is_outside storage.now place }
{
    match place {
        Place::Byte(address) => address >= storage.size(),
        Place::Key(block) => block >= storage.size() / BLOCK_SIZE,
        _ => false,
    }
}

/// Whether an inquiry is about such a place.
fn asks_outside(storage: &Storage, inquiry: Inquiry) -> bool
    ensures { result ≡ asks_outside storage.now inquiry }
{
    match inquiry {
        Inquiry::Who(place) | Inquiry::Why { place, .. } | Inquiry::Changes { place, .. } => {
            is_outside(storage, place)
        }
        Inquiry::Stores { extent, .. } | Inquiry::Readers { extent, .. } | Inquiry::Count(extent) =>
            is_outside(storage, extent.last()),
        _ => false,
    }
}

/// Answers an inquiry about a place that the machine has, or about none.
#[tactic(auto, unfolding(crate::specs::Answers::told_answer, crate::specs::Answers::stands_after_told))]
fn told_answer(
    alloc: Global,
    recording: &mut Session,
    stood: Option<u32>,
    inquiry: Inquiry,
) -> Result<Text, AllocError>
    ensures text { IfOk result (λ text. text ≡ told_answer (inquired recording.old stood) inquiry) }
    ensures state { OnOk result (recording.new ≡ with_standing recording.old (stands_after_told (inquired recording.old stood) inquiry)) }
    ensures memory { OnErr result (recording.new ≡ with_standing recording.old recording.new.standing) }
{
    match inquiry {
        Inquiry::Who(place) => answer_who(alloc, recording, place),
        Inquiry::WhoItem { unit, number } => answer_who_item(alloc, recording, unit, number),
        Inquiry::Why {
            place,
            depth,
            detail,
        } => answer_why(alloc, recording, place, depth, detail),
        Inquiry::Goto(mark) => answer_goto(alloc, recording, stood, mark),
        Inquiry::Changes { place, most } => answer_changes(alloc, recording, place, most),
        Inquiry::Stores { extent, most } => answer_stores(alloc, recording, extent, most),
        Inquiry::Readers { extent, most } => answer_readers(alloc, recording, extent, most),
        Inquiry::Count(extent) => answer_count(alloc, recording, extent),
        Inquiry::History { most } => answer_history(alloc, recording, most),
        Inquiry::Visits { at, most } => answer_visits(alloc, recording, at, most),
        Inquiry::SupervisorCalls { code, most } => {
            answer_supervisor_calls(alloc, recording, code, most)
        }
        Inquiry::Jumps { most } => answer_jumps(alloc, recording, most),
        Inquiry::Calls => answer_calls(alloc, recording),
        Inquiry::Dump { at, count } => dump_of(alloc, recording.machine().storage(), at, count),
        Inquiry::DumpItem { unit, number } => whole_item(alloc, recording.machine(), unit, number),
        Inquiry::Units => units_of(alloc, recording.machine()),
        Inquiry::Where => where_of(alloc, recording),
    }
}

/// The bytes from an address on, with their signs.
fn dump_of(alloc: Global, storage: &Storage, at: u32, count: u32) -> Result<Text, AllocError>
    ensures { IfOk result (λ text. text ≡ storage_rows Signs storage.now at count) }
{
    let mut text = Text::new(alloc);
    push_storage(&mut text, storage, RowForm::Signs, at, count)?;
    Ok(text)
}
