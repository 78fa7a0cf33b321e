//! The EBCDIC bytes of a text in ASCII.
ghost use Rattle.std.specs.Prelude.{◌≡◌, IfOk};
ghost use Rattle.std.specs.List.{filter_map, list_all};
ghost use Rattle.std.specs.Option.{is_some};
ghost use Rattle.s360_print.specs.Signs.{ebcdic_of};

use s360_print::ascii_to_ebcdic;
use std::alloc::{AllocError, Global};

/// Whether each sign of a text has an EBCDIC byte.
pub(crate) fn has_ebcdic(text: &[u8]) -> bool
    ensures { result ≡ list_all (λ sign. is_some (ebcdic_of sign)) text.now }
{
    text.iter().all(|sign| ascii_to_ebcdic(*sign).is_some())
}

/// The EBCDIC bytes of the signs of a text that have one.
pub(crate) fn ebcdic_in(alloc: Global, text: &[u8]) -> Result<Vec<u8>, AllocError>
    ensures { IfOk result (λ bytes. bytes.items ≡ filter_map ebcdic_of text.now) }
{
    text.iter()
        .filter_map(|sign| ascii_to_ebcdic(*sign))
        .collect(alloc)
}
