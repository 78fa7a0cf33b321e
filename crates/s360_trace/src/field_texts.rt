//! A text for what is told of one field.
ghost use Rattle.std.specs.Prelude.{◌≡◌, [], IfOk};

use s360_text::Text;
use std::alloc::{AllocError, Global};

/// Most fields have no more bytes than this.
const FIELD: usize = 40;

/// An empty text, with memory for the words of a field, so that it seldom grows.
pub(crate) fn field_text(alloc: Global) -> Result<Text, AllocError>
    ensures { IfOk result (λ text. text ≡ []) }
{
    let mut bytes = Vec::new(alloc);
    bytes.reserve(FIELD)?;
    Ok(Text::of_bytes(alloc, bytes))
}
