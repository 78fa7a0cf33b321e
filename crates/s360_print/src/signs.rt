//! The signs of EBCDIC bytes: letters, digits and special characters, and their bytes in ASCII.
ghost use Rattle.std.specs.Prelude.{◌≡◌};
ghost use Rattle.std.specs.List.{zip};
ghost use Rattle.s360_model.specs.Tables.{entry_in};
ghost use Rattle.s360_print.specs.Signs.{ascii_of, ebcdic_of};

/// How many bytes have a sign.
const COUNT: usize = 87;

/// The EBCDIC bytes that have a sign.
const EBCDIC: [u8; COUNT] = [
    0x40, 0x4B, 0x4C, 0x4D, 0x4E, 0x4F, 0x50, 0x5A, 0x5B, 0x5C, 0x5D, 0x5E, 0x60, 0x61, 0x6B, 0x6C,
    0x6D, 0x6E, 0x6F, 0x7A, 0x7B, 0x7C, 0x7D, 0x7E, 0x7F, 0x81, 0x82, 0x83, 0x84, 0x85, 0x86, 0x87,
    0x88, 0x89, 0x91, 0x92, 0x93, 0x94, 0x95, 0x96, 0x97, 0x98, 0x99, 0xA2, 0xA3, 0xA4, 0xA5, 0xA6,
    0xA7, 0xA8, 0xA9, 0xC1, 0xC2, 0xC3, 0xC4, 0xC5, 0xC6, 0xC7, 0xC8, 0xC9, 0xD1, 0xD2, 0xD3, 0xD4,
    0xD5, 0xD6, 0xD7, 0xD8, 0xD9, 0xE2, 0xE3, 0xE4, 0xE5, 0xE6, 0xE7, 0xE8, 0xE9, 0xF0, 0xF1, 0xF2,
    0xF3, 0xF4, 0xF5, 0xF6, 0xF7, 0xF8, 0xF9,
];

/// Their signs in ASCII, in the same order.
const ASCII: [u8; COUNT] =
    *b" .<(+|&!$*);-/,%_>?:#@'=\"abcdefghijklmnopqrstuvwxyzABCDEFGHIJKLMNOPQRSTUVWXYZ0123456789";

/// The byte in the second column beside a byte of the first one.
fn beside(first: &[u8; COUNT], second: &[u8; COUNT], byte: u8) -> Option<u8>
    ensures { result ≡ entry_in (zip first.now second.now) byte }
{
    for i in 0..COUNT {
        if first[i] == byte {
            return Some(second[i]);
        }
    }
    None
}

/// The ASCII byte of an EBCDIC byte, if it has a sign.
pub fn ebcdic_to_ascii(byte: u8) -> Option<u8>
    ensures { result ≡ ascii_of byte }
{
    beside(&EBCDIC, &ASCII, byte)
}

/// The EBCDIC byte of an ASCII byte, if it has one.
pub fn ascii_to_ebcdic(byte: u8) -> Option<u8>
    ensures { result ≡ ebcdic_of byte }
{
    beside(&ASCII, &EBCDIC, byte)
}
