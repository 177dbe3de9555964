//! The beginnings of texts and bytes.

ghost use Rattle.std.specs.Prelude.{◌≡◌, ◌≤◌, ◌++◌, length, OnOk};
ghost use Rattle.std.specs.String.{string_bytes};
ghost use Rattle.show_lines.specs.Excerpt.{excerpt, front, front_size, is_inner};

use std::alloc::AllocError;
use terminal_text::{Escapes, push_escaped};

/// The most bytes of a text or of bytes that a line has.
const MOST_SHOWN: usize = 40;

/// Appends the beginning of a text, or of bytes that may be one: what is not UTF-8 is shown as U+FFFD, characters that
/// a terminal may take as commands are escaped, and two dots follow if it is not all.
pub fn push_excerpt(line: &mut String, bytes: &[u8]) -> Result<(), AllocError>
    ensures { OnOk result (string_bytes line.new ≡ string_bytes line.old ++ excerpt bytes.now) }
{
    let text = String::from_utf8_lossy(*line.allocator(), front(bytes))?;
    push_escaped(line, Escapes::Text, text.as_str())?;
    if bytes.len() > MOST_SHOWN {
        line.push_str("..")?;
    }
    Ok(())
}

/// The bytes that are shown: all, or if they are too many the first of them, without a part of a character.
fn front(bytes: &[u8]) -> &[u8]
    ensures { result.now ≡ front bytes.now }
{
    if bytes.len() > MOST_SHOWN {
        &bytes[..front_size(bytes)]
    } else {
        bytes
    }
}

/// How many bytes are shown of more than the most: as many as that, or up to three fewer where a character goes on.
fn front_size(bytes: &[u8]) -> usize
    requires { 41 ≤ length bytes.now }
    ensures size { result ≡ front_size bytes.now }
    ensures few { result ≤ 40 }
{
    if !is_inner(bytes[40]) {
        40
    } else if !is_inner(bytes[39]) {
        39
    } else if !is_inner(bytes[38]) {
        38
    } else {
        37
    }
}

/// Whether a byte of a text is within a character, and not the first of one.
fn is_inner(byte: u8) -> bool
    ensures { result ≡ is_inner byte }
{
    0x80 <= byte && byte < 0xc0
}
