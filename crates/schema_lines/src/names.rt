//! Names, and what of them is compared.

ghost use Rattle.std.specs.Prelude.{◌≡◌, IfOk};
ghost use Rattle.std.specs.Str.{bytes_eq};
ghost use Rattle.schema_lines.specs.Names.{depth, folded, last_name, plain};

use std::alloc::{AllocError, Global};

/// A name without what differs between files: its case, underscores, and the word Message at its end.
#[tactic(auto, unfolding(crate::specs::Names::plain))]
pub(crate) fn plain(alloc: Global, name: &str) -> Result<Vec<u8>, AllocError>
    ensures { IfOk result (λ text. text.items ≡ plain name.now) }
{
    let mut text = folded(alloc, name)?;
    if text.as_slice().ends_with(b"message") {
        text.truncate(text.len() - 7);
    }
    Ok(text)
}

/// A name in lower case, without its underscores.
fn folded(alloc: Global, name: &str) -> Result<Vec<u8>, AllocError>
    ensures { IfOk result (λ text. text.items ≡ folded name.now) }
{
    let mut text = Vec::new(alloc);
    let mut rest = name.as_bytes();
    while let Some((byte, after)) = rest.split_first() {
        if *byte != b'_' {
            text.push(byte.to_ascii_lowercase())?;
        }
        rest = after;
    }
    Ok(text)
}

/// The last part of a full name.
pub fn last_name(name: &str) -> &str
    ensures { result.now ≡ last_name name.now }
{
    match name.rsplit_once('.') {
        Some((_, last)) => last,
        None => name,
    }
}

/// The number of dots of a name: how deep its message is.
pub(crate) fn depth(name: &str) -> usize
    ensures { result ≡ depth name.now }
{
    name.as_bytes().iter().filter(|byte| **byte == b'.').count()
}

/// Whether two names are the same.
pub(crate) fn is_same(one: &str, other: &str) -> bool
    ensures { result ≡ bytes_eq one.now other.now }
{
    one.as_bytes() == other.as_bytes()
}
