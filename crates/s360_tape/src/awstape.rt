//! Tapes in AWSTAPE files: read from a file, and written as one.
ghost use Rattle.std.specs.Prelude.{◌≡◌, ◌≤◌, ◌+◌, ◌++◌, List, length, Err, IfOk, IfErr, OnOk, IsOkUnless};
ghost use Rattle.s360_device.specs.DeviceChanges.{bare};
ghost use Rattle.s360_tape.specs.declared.fault.TapeFault.{TapeFault};
ghost use Rattle.s360_tape.specs.declared.fault.TapeFault.TheVariants.{Memory};
ghost use Rattle.s360_tape.specs.declared.item.TapeItem.{TapeItem};
ghost use Rattle.s360_tape.specs.Blocks.{block_limit};
ghost use Rattle.s360_tape.specs.Images.{HasFault, IsSomeTapeFile, IsTapeFile, IsRefusal, item_file, tape_file};
ghost use Rattle.s360_tape.specs.NextParts.{items_after, kept_after};
ghost use Rattle.s360_tape.specs.Tape.{new_tape};
ghost use Rattle.s360_tape.specs.WholeTape.{seen};

use crate::block::Block;
use crate::fault::TapeFault;
use crate::item::TapeItem;
use crate::part::{FilePart, HEADER_LENGTH, part_at};
use crate::part_kind::PartKind;
use crate::tape::{Tape, tape_with};
use byteorder::{ByteOrder, LittleEndian};
use std::alloc::{AllocError, Global};
use std::mem;

/// Finds the first fault of a file. It takes no memory.
fn check_file(file: &[u8]) -> Result<(), TapeFault>
    ensures ok { OnOk result (IsSomeTapeFile file.now) }
    ensures fault { IfErr result (λ fault. HasFault file.now fault) }
{
    let mut place = 0;
    let mut inside = None;
    while let Some(part) = part_at(file, place, inside)? {
        inside = part.count_after(inside);
        place += HEADER_LENGTH + part.bytes.len();
    }
    Ok(())
}

/// Keeps a part: the item that it ends, or its bytes until a later part ends their block.
fn keep_part(
    alloc: Global,
    part: &FilePart<'_>,
    items: &mut Vec<TapeItem>,
    block: &mut Vec<u8>,
) -> Result<(), AllocError>
    requires fits { length block.old.items + length part.now.bytes.now ≤ block_limit }
    ensures items { OnOk result (items.new.items ≡ items_after items.old.items block.old.items part.now.kind part.now.bytes.now) }
    ensures block { OnOk result (block.new.items ≡ kept_after block.old.items part.now.kind part.now.bytes.now) }
{
    match part.kind {
        PartKind::Mark => items.push(TapeItem::Mark)?,
        PartKind::First | PartKind::Middle => block.extend_from_slice(part.bytes)?,
        PartKind::Whole | PartKind::Last => {
            block.extend_from_slice(part.bytes)?;
            let bytes = mem::replace(block, Vec::new(alloc));
            items.push(TapeItem::Block(Block::new(bytes)))?;
        }
    }
    Ok(())
}

/// The items of a file that is a tape's.
fn items_of(alloc: Global, file: &[u8]) -> Result<Vec<TapeItem>, TapeFault>
    requires file { IsSomeTapeFile file.now }
    ensures items { IfOk result (λ items. IsTapeFile file.now items.items) }
    ensures refused { IfErr result (λ fault. IsRefusal file.now fault) }
{
    let mut items = Vec::new(alloc);
    let mut block = Vec::new(alloc);
    let mut place = 0;
    let mut inside = None;
    while let Some(part) = part_at(file, place, inside)? {
        keep_part(alloc, &part, &mut items, &mut block)?;
        inside = part.count_after(inside);
        place += HEADER_LENGTH + part.bytes.len();
    }
    Ok(items)
}

/// The tape that is in a file, or why there is none.
fn read_tape(alloc: Global, file: &[u8], protected: bool) -> Result<Tape, TapeFault>
    ensures tape { IfOk result (λ t. IsTapeFile file.now (seen (bare t)).media.items) }
    ensures fresh { IfOk result (λ t. seen (bare t) ≡ new_tape (seen (bare t)).media.items protected) }
    ensures refused { IfErr result (λ fault. IsRefusal file.now fault) }
{
    check_file(file)?;
    let items = items_of(alloc, file)?;
    Ok(tape_with(items, protected))
}

/// The tape that is in a file, at its load point. A file that is no tape's is refused with its first
/// fault, whatever memory there is.
pub fn tape_from(alloc: Global, file: &[u8], protected: bool) -> Result<Tape, TapeFault>
    ensures tape { IfOk result (λ t. IsTapeFile file.now (seen (bare t)).media.items) }
    ensures fresh { IfOk result (λ t. seen (bare t) ≡ new_tape (seen (bare t)).media.items protected) }
    ensures refused { IfErr result (λ fault. IsRefusal file.now fault) }
    ensures accepted { (items : List TapeItem) → IsTapeFile file.now items → IsOkUnless result Memory }
    ensures faulty { (fault : TapeFault) → HasFault file.now fault → result ≡ Err fault }
{
    read_tape(alloc, file, protected)
}

/// Puts an item at the end of a file, after one of so many bytes.
fn put_item(file: &mut Vec<u8>, previous: u16, item: &TapeItem) -> Result<(), AllocError>
    ensures { OnOk result (file.new.items ≡ file.old.items ++ item_file previous item.now) }
{
    let bytes = item.bytes();
    let mut header = [0; HEADER_LENGTH];
    LittleEndian::write_u16(&mut header, bytes.len() as u16);
    LittleEndian::write_u16(&mut header[2..], previous);
    header[4] = if item.is_mark() { 0x40 } else { 0xA0 };
    file.extend_from_slice(&header)?;
    file.extend_from_slice(bytes)
}

/// The file of a tape: whole blocks and marks.
pub fn image_of(alloc: Global, tape: &Tape) -> Result<Vec<u8>, AllocError>
    ensures { IfOk result (λ file. file.items ≡ tape_file (seen (bare tape.now)).media.items) }
{
    let mut file = Vec::new(alloc);
    let mut previous = 0;
    for item in tape.media().as_slice() {
        put_item(&mut file, previous, item)?;
        previous = item.bytes().len() as u16;
    }
    Ok(file)
}
