//! Numbers in bytes, of operands and of storage: the most significant byte stands first. Source: gdb manual, "The GDB
//! Agent Expression Mechanism", "Bytecode Descriptions".
ghost use Rattle.std.specs.Prelude.{◌≡◌, ◌<◌, ◌≤◌, ◌^◌, ◌+◌, length};
ghost use Rattle.s360_condition.specs.Reading.{big_endian};
ghost use Rattle.s360_condition.specs.Target.{byte_value, fetched};

use crate::fault::EvaluationFault;
use crate::readable::Readable;
use arrayvec::ArrayVec;

/// A number has at most so many bytes.
const MOST_BYTES: usize = 8;

/// The number that at most 8 bytes stand for.
pub(crate) fn number_of(bytes: &[u8]) -> u64
    requires { length bytes.now ≤ 8 }
    ensures number { result ≡ big_endian bytes.now }
    ensures fits { result < 256 ^ length bytes.now }
{
    let mut number = 0;
    for byte in bytes {
        number = number * 256 + u64::from(*byte);
    }
    number
}

/// The number in 1 to 8 bytes of storage from an address on.
pub(crate) fn fetch<T: Readable>(
    target: &T,
    address: u64,
    count: usize,
) -> Result<u64, EvaluationFault>
    requires some { 0 < count }
    requires few { count ≤ 8 }
    ensures { result ≡ fetched (T.target_of target.now) address count }
{
    let mut bytes: ArrayVec<u8, MOST_BYTES> = ArrayVec::new();
    for index in 0..count {
        bytes.push(byte_at(target, address, index)?);
    }
    Ok(number_of(bytes.as_slice()))
}

/// The byte at so many behind an address.
fn byte_at<T: Readable>(target: &T, address: u64, index: usize) -> Result<u8, EvaluationFault>
    ensures { result ≡ byte_value (T.target_of target.now) (address + index) }
{
    let at = address
        .checked_add(index as u64)
        .ok_or(EvaluationFault::OutsideStorage)?;
    let at = u32::try_from(at).map_err(|_| EvaluationFault::OutsideStorage)?;
    target.byte(at).ok_or(EvaluationFault::OutsideStorage)
}
