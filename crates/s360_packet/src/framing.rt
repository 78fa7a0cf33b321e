//! Packets as they are sent. Source: gdb manual, "Remote Serial Protocol", "Overview".
ghost use Rattle.std.specs.Prelude.{◌≡◌, ◌++◌, ◌∷◌, ◌<◌, ◌+◌, ◌%◌, IfOk, OnOk, sum};
ghost use Rattle.s360_packet.specs.Answers.{answer_text};
ghost use Rattle.s360_packet.specs.Framing.{framed, escaped, escaped_byte, is_special};

use crate::answer::{Answer, write_answer};
use crate::pieces::push_two_digits;
use s360_text::Text;
use std::alloc::AllocError;

/// Adds the packet of an answer. After want of memory some first bytes of it may be there.
pub fn push_packet(text: &mut Text, answer: Answer<'_>) -> Result<(), AllocError>
    ensures { OnOk result (text.new ≡ text.old ++ framed (answer_text answer.entry)) }
{
    let mut data = Text::new(text.alloc());
    write_answer(&mut data, answer)?;
    frame(text, data.as_bytes())
}

/// Adds the packet of some data. `#`, `$`, `*` and `}` are escaped.
pub fn frame(text: &mut Text, bytes: &[u8]) -> Result<(), AllocError>
    ensures { OnOk result (text.new ≡ text.old ++ framed bytes.now) }
{
    text.push_byte(b'$')?;
    let total = push_escaped(text, bytes)?;
    text.push_byte(b'#')?;
    push_two_digits(text, total)
}

/// Adds data with its bytes escaped, and answers their sum modulo 256.
fn push_escaped(text: &mut Text, bytes: &[u8]) -> Result<u8, AllocError>
    ensures text { OnOk result (text.new ≡ text.old ++ escaped bytes.now) }
    ensures total { IfOk result (λ total. total ≡ sum (escaped bytes.now) % 256) }
{
    let mut total = 0u8;
    for byte in bytes {
        if is_special(*byte) {
            text.push_byte(b'}')?;
            text.push_byte(*byte ^ 0x20)?;
            total = total.wrapping_add(b'}').wrapping_add(*byte ^ 0x20);
        } else {
            text.push_byte(*byte)?;
            total = total.wrapping_add(*byte);
        }
    }
    Ok(total)
}

/// Whether a byte does not stand for itself in data.
fn is_special(byte: u8) -> bool
    ensures { result ≡ is_special byte }
{
    matches!(byte, b'#' | b'$' | b'*' | b'}')
}
