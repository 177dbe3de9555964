//! `Display` of the nested messages.

ghost use Rattle.std.specs.Prelude.{◌≡◌, [], Some, IfOk, IsOk, map};
ghost use Rattle.std.specs.Fmt.{WritesOnOk, comma_space};
ghost use Rattle.std.specs.List.{join_by};
ghost use Rattle.std.specs.String.{string_bytes};
ghost use Rattle.shared_core_parts.specs.Texts.{value_text, failure_text, header_text};
ghost use Rattle.shared_core_parts.specs.Texts.{headers_text, lossy_text, state_key_text, state_keys_text};

use crate::escape::write_escaped;
use crate::failure::Failure;
use crate::header::Header;
use crate::state_keys::StateKeys;
use crate::value::Value;
use bstr::{BStr, ByteSlice};
use bytes::Bytes;
use shared_core_base::fmt::{ListItem, as_utf8, write_joined};
use std::alloc::{AllocError, Global};
use std::fmt;

/// Prints `'text'` if the content is UTF-8, otherwise `b".."` with escapes.
impl fmt::Display for Value {
    ghost output = { λ value. Some (value_text value.content) };

    fn fmt<W: fmt::Write>(&self, f: &mut fmt::Formatter<W>) -> fmt::Result {
        match as_utf8(&self.content) {
            Some(text) => write!(f, "'{text}'"),
            None => {
                f.write_str("b\"")?;
                write_escaped(f, &self.content)?;
                f.write_str("\"")
            }
        }
    }
}

/// Prints `error [code] 'message'`, without the metadata.
impl fmt::Display for Failure {
    ghost output = { λ failure. Some (failure_text failure.code (string_bytes failure.message)) };

    fn fmt<W: fmt::Write>(&self, f: &mut fmt::Formatter<W>) -> fmt::Result {
        let code = self.code;
        let message = self.message.as_str();
        write!(f, "error [{code}] '{message}'")
    }
}

/// Prints `key: value`.
impl fmt::Display for Header {
    ghost output = { λ header. Some (header_text (string_bytes header.key) (string_bytes header.value)) };

    fn fmt<W: fmt::Write>(&self, f: &mut fmt::Formatter<W>) -> fmt::Result {
        let key = self.key.as_str();
        let value = self.value.as_str();
        write!(f, "{key}: {value}")
    }
}

/// In a list a header prints in the same form.
impl ListItem for Header {
    ghost text = { λ header. header_text (string_bytes header.key) (string_bytes header.value) };

    fn write_item<W: fmt::Write>(&self, f: &mut fmt::Formatter<W>) -> fmt::Result {
        write!(f, "{self}")
    }
}

/// Prints headers, joined by `, `; nothing if there are none.
#[derive(Clone, Copy)]
pub struct HeadersText<'a>(pub &'a [Header]);

impl<'a> fmt::Display for HeadersText<'a> {
    ghost output = { λ headers. Some (headers_text headers.0.now) };

    fn fmt<W: fmt::Write>(&self, f: &mut fmt::Formatter<W>) -> fmt::Result {
        write_joined(f, self.0)
    }
}

/// Prints state keys, as `['a', 'b']`, with U+FFFD for each sequence of a key that is not UTF-8.
#[derive(Clone, Copy)]
pub struct StateKeysText<'a>(pub &'a StateKeys);

impl<'a> fmt::Display for StateKeysText<'a> {
    ghost output = { λ text. Some (state_keys_text text.0.now.keys.items) };

    fn fmt<W: fmt::Write>(&self, f: &mut fmt::Formatter<W>) -> fmt::Result {
        f.write_str("[")?;
        write_keys(f, &self.0.keys)?;
        f.write_str("]")
    }
}

// a loop in addition to `write_joined`, whose trait of items cannot be given to the `Bytes` of another crate
fn write_keys<W: fmt::Write>(f: &mut fmt::Formatter<W>, keys: &[Bytes]) -> fmt::Result
    ensures { WritesOnOk W.write_str_gives f.old result (join_by state_key_text comma_space keys.now) f.new }
{
    match keys {
        [] => Ok(()),
        [first, rest @ ..] => {
            write_key(f, first)?;
            for key in rest {
                f.write_str(", ")?;
                write_key(f, key)?;
            }
            Ok(())
        }
    }
}

fn write_key<W: fmt::Write>(f: &mut fmt::Formatter<W>, key: &Bytes) -> fmt::Result
    ensures { WritesOnOk W.write_str_gives f.old result (state_key_text key.now) f.new }
{
    let key = BStr::new(key);
    write!(f, "'{key}'")
}

/// The texts of state keys, in order, with U+FFFD for each sequence of a key that is not UTF-8. An empty list does not
/// allocate.
pub(crate) fn texts_of_keys(alloc: Global, keys: &[Bytes]) -> Result<Vec<String>, AllocError>
    ensures texts { IfOk result (λ texts. map string_bytes texts.items ≡ map lossy_text keys.now) }
    ensures empty { keys.now ≡ [] → IsOk result }
{
    let mut texts = Vec::with_capacity(alloc, keys.len())?;
    for key in keys {
        texts.push(text_of_key(alloc, key)?)?;
    }
    Ok(texts)
}

fn text_of_key(alloc: Global, key: &[u8]) -> Result<String, AllocError>
    ensures { IfOk result (λ text. string_bytes text ≡ lossy_text key.now) }
{
    key.to_str_lossy(alloc)?.into_owned(alloc)
}
