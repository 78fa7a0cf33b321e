//! One part of an AWSTAPE file.
ghost use Rattle.std.specs.Prelude.{◌≡◌, ◌≤◌, ◌<◌, ◌+◌, [], length, drop, IfOk, IfErr, IfSome, None, Some};
ghost use Rattle.std.specs.Option.{option_map_or};
ghost use Rattle.s360_tape.specs.Blocks.{block_limit};
ghost use Rattle.s360_tape.specs.Images.{fault_at};
ghost use Rattle.s360_tape.specs.NextParts.{IsNextPart, count_after};

use crate::block::BLOCK_LIMIT;
use crate::fault::TapeFault;
use crate::part_kind::PartKind;
use byteorder::{ByteOrder, LittleEndian};

/// Bytes of a header.
pub(crate) const HEADER_LENGTH: usize = 6;

/// A part of a file.
#[derive(Clone, Copy)]
pub(crate) struct FilePart<'a> {
    /// What it is of a tape.
    pub(crate) kind: PartKind,
    /// Its bytes.
    pub(crate) bytes: &'a [u8],
}

impl FilePart<'_> {
    /// The number of bytes of a block that came before the end of the part, if it is inside of one.
    pub(crate) fn count_after(&self, inside: Option<usize>) -> Option<usize>
        requires fits { option_map_or (λ n. n) inside 0 + length self.now.bytes.now ≤ block_limit }
        ensures count { result ≡ count_after inside self.now.kind (length self.now.bytes.now) }
        ensures short { IfSome result (λ count. count ≤ block_limit) }
    {
        match self.kind {
            PartKind::First => Some(self.bytes.len()),
            PartKind::Middle => Some(inside.unwrap_or(0) + self.bytes.len()),
            _ => None,
        }
    }
}

/// The part of a file at an offset, if the file has not ended there, after so many bytes of the block
/// inside of which it is, if it is inside of one.
pub(crate) fn part_at(
    file: &[u8],
    offset: usize,
    inside: Option<usize>,
) -> Result<Option<FilePart<'_>>, TapeFault>
    requires within { offset ≤ length file.now }
    requires short { IfSome inside (λ count. count ≤ block_limit) }
    ensures part { IfOk result (λ part. IfSome part (λ p. IsNextPart inside (drop offset file.now) p.kind p.bytes.now)) }
    ensures end { IfOk result (λ part. part ≡ None → (drop offset file.now ≡ []) × (inside ≡ None)) }
    ensures fault { IfErr result (λ fault. fault_at inside offset (drop offset file.now) ≡ Some fault) }
{
    let rest = &file[offset..];
    if rest.is_empty() {
        return if inside.is_some() {
            Err(TapeFault::PartOutOfPlace(offset))
        } else {
            Ok(None)
        };
    }
    let part = next_part(rest, offset, inside)?;
    Ok(Some(part))
}

/// The part with which the rest of a file goes on.
fn next_part(rest: &[u8], offset: usize, inside: Option<usize>) -> Result<FilePart<'_>, TapeFault>
    requires some { 0 < length rest.now }
    requires short { IfSome inside (λ count. count ≤ block_limit) }
    ensures part { IfOk result (λ p. IsNextPart inside rest.now p.kind p.bytes.now) }
    ensures fault { IfErr result (λ fault. fault_at inside offset rest.now ≡ Some fault) }
{
    if rest.len() < HEADER_LENGTH {
        return Err(TapeFault::ShortHeader(offset));
    }
    let count = LittleEndian::read_u16(rest) as usize;
    let kind = match PartKind::new(rest[4]) {
        Some(kind) if kind != PartKind::Mark || count == 0 => kind,
        _ => return Err(TapeFault::BadFlags(offset)),
    };
    if kind.goes_inside() != inside.is_some() {
        return Err(TapeFault::PartOutOfPlace(offset));
    }
    let bytes = &rest[HEADER_LENGTH..];
    if bytes.len() < count {
        return Err(TapeFault::ShortBlock(offset));
    }
    if inside.unwrap_or(0) + count > BLOCK_LIMIT {
        return Err(TapeFault::BlockTooLong(offset));
    }
    Ok(FilePart {
        kind,
        bytes: &bytes[..count],
    })
}
