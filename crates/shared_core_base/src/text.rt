//! Copies of texts.

ghost use Rattle.std.specs.Prelude.{◌≡◌, [], IfOk, IsOk};
ghost use Rattle.std.specs.String.{string_bytes};

use crate::error::OutOfMemory;
use std::alloc::Global;

/// A copy of a text. An empty one does not allocate and never fails.
pub fn copy_text(alloc: Global, text: &str) -> Result<String, OutOfMemory>
    ensures ok { IfOk result (λ copy. string_bytes copy ≡ text.now) }
    ensures empty { text.now ≡ [] → IsOk result }
{
    if text.is_empty() {
        return Ok(String::new(alloc));
    }
    Ok(String::from_str(alloc, text)?)
}
