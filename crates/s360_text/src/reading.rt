//! All that a reader has left.
ghost use Rattle.std.specs.Prelude.{◌≡◌, ◌≤◌, ◌<◌, length, IfOk, IfSome, Err};
ghost use Rattle.s360_text.specs.declared.reading.ReadFault.TheVariants.{TooLong, Memory};

use std::alloc::{AllocError, Global};
use std::io::Read;
use thiserror::Error;

/// A read is of at most so many bytes.
const PIECE: usize = 16_384;

/// Why a reader was not read to its end.
#[derive(Clone, Copy, Debug, PartialEq, Eq, Error)]
pub enum ReadFault {
    /// A read failed.
    #[error("read failed")]
    Failed,
    /// The reader has more bytes than are allowed.
    #[error("too long")]
    TooLong,
    /// A growth was refused.
    #[error("out of memory")]
    Memory,
}

impl From<AllocError> for ReadFault {
    ghost from_gives = { λ _ fault. fault ≡ Memory };

    fn from(_e: AllocError) -> ReadFault {
        ReadFault::Memory
    }
}

/// All the bytes that a reader has left, of which there are at most `most`. Each read but the last gives
/// one at least, so that there are at most `most + 1` reads.
pub fn read_whole<R: Read>(alloc: Global, reader: &mut R, most: usize) -> Result<Vec<u8>, ReadFault>
    ensures ok { IfOk result (λ v. IfSome (R.remaining reader.old) (λ bytes. v.items ≡ bytes)) }
    ensures short { IfOk result (λ v. length v.items ≤ most) }
    ensures too_long { result ≡ Err TooLong → IfSome (R.remaining reader.old) (λ bytes. most < length bytes) }
{
    let mut bytes = Vec::new(alloc);
    let mut piece = [0; PIECE];
    while bytes.len() <= most {
        let Ok(count) = reader.read(&mut piece) else {
            return Err(ReadFault::Failed);
        };
        if count == 0 {
            return Ok(bytes);
        }
        bytes.extend_from_slice(&piece[..count])?;
    }
    Err(ReadFault::TooLong)
}
