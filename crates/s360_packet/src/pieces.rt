//! What the texts of packets are made of: names, and numbers and bytes in hexadecimal, in lower case. Source: gdb
//! manual, "Remote Serial Protocol", "Overview".
ghost use Rattle.std.specs.Prelude.{◌≡◌, ◌++◌, ◌<◌, OnOk};
ghost use Rattle.std.specs.Char.{digit_char};
ghost use Rattle.s360_packet.specs.Framing.{two_digits};
ghost use Rattle.s360_packet.specs.Hexadecimal.{bytes_text, word_text, number_text};

use s360_text::Text;
use std::alloc::AllocError;

/// Adds a number without leading zeros.
pub(crate) fn push_number(text: &mut Text, number: u64) -> Result<(), AllocError>
    ensures { OnOk result (text.new ≡ text.old ++ number_text number) }
{
    let digits = format!(in text.alloc(); "{number:x}")?;
    text.push_text(&digits)
}

/// Adds a word in eight digits.
pub(crate) fn push_word(text: &mut Text, word: u32) -> Result<(), AllocError>
    ensures { OnOk result (text.new ≡ text.old ++ word_text word) }
{
    push_bytes(text, &word.to_be_bytes())
}

/// Adds bytes in two digits each.
pub(crate) fn push_bytes(text: &mut Text, bytes: &[u8]) -> Result<(), AllocError>
    ensures { OnOk result (text.new ≡ text.old ++ bytes_text bytes.now) }
{
    for byte in bytes {
        push_two_digits(text, *byte)?;
    }
    Ok(())
}

/// Adds a byte in two hexadecimal digits.
pub(crate) fn push_two_digits(text: &mut Text, byte: u8) -> Result<(), AllocError>
    ensures { OnOk result (text.new ≡ text.old ++ two_digits byte) }
{
    text.push_bytes(&[digit_of(byte / 16), digit_of(byte % 16)])
}

/// The hexadecimal digit of a number below 16.
fn digit_of(value: u8) -> u8
    requires { value < 16 }
    ensures { result ≡ digit_char value }
{
    if value < 10 {
        b'0' + value
    } else {
        b'a' + (value - 10)
    }
}
