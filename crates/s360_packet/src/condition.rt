//! The conditions of a breakpoint, as a list has them. Source: gdb manual, "Packets", `Z0`.
ghost use Rattle.std.specs.Prelude.{◌≡◌, ◌<◌, length, IfOk, MatchResult, Ok};
ghost use Rattle.s360_packet.specs.Conditions.{FailsWith, condition_in};

use crate::fields::{behind, bytes, number, parted};
use crate::request::{Payload, RequestFault};
use std::alloc::Global;

/// The first of a list of conditions, and what stands behind it: `X`, the number of its bytes, `,`, and two digits of each.
pub fn read_condition(alloc: Global, text: &[u8]) -> Result<(Payload, &[u8]), RequestFault>
    ensures read { MatchResult result (λ parts. condition_in text.now ≡ Ok (parts.0, parts.1.now)) (FailsWith (condition_in text.now)) }
    ensures less { IfOk result (λ parts. length parts.1.now < length text.now) }
{
    let Some(rest) = behind(text, "X") else {
        return Err(RequestFault::Malformed);
    };
    let (head, rest) = parted(rest, b',')?;
    let digits = u64::from(number(head)?) * 2;
    if digits > rest.len() as u64 {
        return Err(RequestFault::Malformed);
    }
    let (digits, rest) = rest.split_at(digits as usize);
    let condition = bytes(alloc, digits)?;
    Ok((condition, rest))
}
