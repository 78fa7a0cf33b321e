//! A text written to its end.
ghost use Rattle.std.specs.Prelude.{OnOk, OnErr};
ghost use Rattle.std.specs.Io.KnownBytes.{Appends};
ghost use Rattle.s360_text.specs.Writing.{IsPartWritten};

use std::io::Write;

/// A write failed, or took no byte.
#[derive(Clone, Copy, PartialEq, Eq)]
pub struct Untaken;

/// Writes a text by as many writes as it takes. After a write that failed or took no byte, none is tried again,
/// and only a beginning of the text is written.
pub fn write_whole<W: Write>(writer: &mut W, text: &[u8]) -> Result<(), Untaken>
    ensures ok { OnOk result (Appends (W.contents writer.old) (W.contents writer.new) text.now) }
    ensures part { OnErr result (IsPartWritten (W.contents writer.old) (W.contents writer.new) text.now) }
{
    let mut at = 0;
    while at < text.len() {
        let Ok(count) = writer.write(&text[at..]) else {
            return Err(Untaken);
        };
        if count == 0 {
            return Err(Untaken);
        }
        at += count;
    }
    Ok(())
}
