//! The items of a unit's media: what made one.
ghost use Rattle.std.specs.Prelude.{◌≡◌, ◌++◌, IfOk, OnErr, OnOk, codes};
ghost use Rattle.s360_machine.specs.Machine.{seen};
ghost use Rattle.s360_journal.specs.Recorded.{with_standing};
ghost use Rattle.s360_inquiry.specs.Changes.{just_before, stands_after_who};
ghost use Rattle.s360_inquiry.specs.ItemChanges.{alters_item, item_change_text, last_change_of_item, whole_item, who_item_text};

use crate::change::{go_before, push_event_of};
use crate::going::go_to;
use s360_debug::text_of_line;
use s360_journal::Session;
use s360_language::{ItemForm, push_item};
use s360_machine::Machine;
use s360_store::Place;
use s360_text::Text;
use s360_word::Unit;
use std::alloc::{AllocError, Global};

/// An item in whole.
pub(crate) fn whole_item(
    alloc: Global,
    machine: &Machine,
    unit: Unit,
    number: u32,
) -> Result<Text, AllocError>
    ensures { IfOk result (λ text. text ≡ whole_item (seen machine.now.whole) unit number) }
{
    let mut text = Text::new(alloc);
    push_item(&mut text, machine, unit, number as usize, ItemForm::InRows)?;
    Ok(text)
}

/// Whether the change of a number alters an item. The recording goes to just before it, or to some change.
fn alters_item(
    alloc: Global,
    recording: &mut Session,
    unit: Unit,
    item: u32,
    number: u32,
) -> Result<bool, AllocError>
    ensures alters { IfOk result (λ alters. alters ≡ alters_item recording.old unit item number) }
    ensures state { recording.new ≡ with_standing recording.old recording.new.standing }
{
    go_to(recording, number)?;
    let after = whole_item(alloc, recording.machine(), unit, item)?;
    let _kind = go_before(recording, number)?;
    let before = whole_item(alloc, recording.machine(), unit, item)?;
    Ok(before.as_bytes() != after.as_bytes())
}

/// The number of the last change of an item, of those that alter the unit's media. The recording goes to just before it, or to some
/// change.
fn last_change(
    alloc: Global,
    recording: &mut Session,
    unit: Unit,
    item: u32,
) -> Result<Option<u32>, AllocError>
    ensures number { IfOk result (λ number. number ≡ last_change_of_item recording.old unit item) }
    ensures state { recording.new ≡ with_standing recording.old recording.new.standing }
{
    let numbers = recording.changes_of(Place::UnitMedia(unit)).to_vec(alloc)?;
    for index in (0..numbers.len()).rev() {
        let number = numbers[index];
        if alters_item(alloc, recording, unit, item, number)? {
            return Ok(Some(number));
        }
    }
    Ok(None)
}

/// Tells the change of an item, and leaves the recording just before it. Want of memory leaves it at some change.
fn tell_change(
    alloc: Global,
    recording: &mut Session,
    unit: Unit,
    item: u32,
    number: u32,
) -> Result<Text, AllocError>
    ensures text { IfOk result (λ text. text ≡ item_change_text recording.old unit item number) }
    ensures state { OnOk result (recording.new ≡ just_before recording.old number) }
    ensures memory { OnErr result (recording.new ≡ with_standing recording.old recording.new.standing) }
{
    let mut text = Text::new(alloc);
    let kind = go_before(recording, number)?;
    push_event_of(&mut text, number, recording.machine(), kind)?;
    text.push_text("\nm ")?;
    text.push_hex(u64::from(unit.address()), 3)?;
    text.push_text(" ")?;
    text.push_decimal(u64::from(item))?;
    text.push_text(" ")?;
    go_to(recording, number)?;
    push_item(
        &mut text,
        recording.machine(),
        unit,
        item as usize,
        ItemForm::OnItsLine,
    )?;
    let _before = recording.back_to(number.saturating_sub(1));
    Ok(text)
}

/// Goes to just before the last change of an item, and tells it. An item that no standing change altered leaves the recording where
/// it is.
pub(crate) fn answer_who_item(
    alloc: Global,
    recording: &mut Session,
    unit: Unit,
    item: u32,
) -> Result<Text, AllocError>
    ensures text { IfOk result (λ text. text ≡ who_item_text recording.old unit item (last_change_of_item recording.old unit item)) }
    ensures state { OnOk result (recording.new ≡ with_standing recording.old (stands_after_who recording.old (last_change_of_item recording.old unit item))) }
    ensures memory { OnErr result (recording.new ≡ with_standing recording.old recording.new.standing) }
{
    let standing = recording.standing();
    match last_change(alloc, recording, unit, item)? {
        Some(number) => tell_change(alloc, recording, unit, item, number),
        None => {
            go_to(recording, standing)?;
            text_of_line(alloc, "who none")
        }
    }
}
