//! What a line begins with: the offset of its bytes, the first of these, and an indentation. It is appended as bytes,
//! since a format takes several times as long as all that is read of the line's bytes.

ghost use Rattle.std.specs.Prelude.{◌≡◌, ◌<◌, ◌≤◌, ◌++◌, replicate, OnOk, false};
ghost use Rattle.std.specs.Fmt.{digit_glyph};
ghost use Rattle.explain_lines.specs.Lines.{bytes_text, in_columns, indentation, line_front, spaced_bytes};

use crate::piece::{FieldAt, dots, front};
use itoa::Buffer;
use std::alloc::AllocError;

/// The most bytes that a line shows.
const MOST_BYTES: usize = 8;

/// The columns of an offset.
const OFFSET: usize = 10;

/// The columns of bytes, up to the one at which the text begins.
const COLUMNS: usize = 27;

/// As many spaces as there are columns of bytes.
const SPACES: &[u8] = b"                           ";

/// Appends what a line begins with.
#[tactic(auto, using(crate::proofs::Shown::appended), unfolding(crate::specs::Lines::line_front))]
pub fn push_front(
    text: &mut Vec<u8>,
    at: u128,
    path: &[FieldAt],
    bytes: &[u8],
) -> Result<(), AllocError>
    ensures { OnOk result (text.new.items ≡ text.old.items ++ line_front at path.now bytes.now) }
{
    push_offset(text, at)?;
    text.extend_from_slice(b"  ")?;
    push_columns(text, bytes)?;
    push_indentation(text, path)
}

/// Appends an offset, to the right of its columns.
#[tactic(auto, using(crate::proofs::Shown::appended))]
fn push_offset(text: &mut Vec<u8>, at: u128) -> Result<(), AllocError>
    ensures { OnOk result (text.new.items ≡ text.old.items ++ in_columns at) }
{
    let mut buffer = Buffer::new();
    let digits = buffer.format(at).as_bytes();
    push_spaces(text, OFFSET.saturating_sub(digits.len()))?;
    text.extend_from_slice(digits)
}

/// Appends the first of some bytes, and spaces up to the column at which the text begins.
#[tactic(auto, using(crate::proofs::Shown::appended))]
fn push_columns(text: &mut Vec<u8>, bytes: &[u8]) -> Result<(), AllocError>
    ensures { OnOk result (text.new.items ≡ text.old.items ++ bytes_text bytes.now) }
{
    let start = text.len();
    push_bytes(text, front(bytes, MOST_BYTES))?;
    text.extend_from_slice(dots(bytes, MOST_BYTES).as_bytes())?;
    let columns = text.len().saturating_sub(start);
    push_spaces(text, COLUMNS.saturating_sub(columns))
}

/// Appends bytes in hexadecimal digits, each with a space after it.
fn push_bytes(text: &mut Vec<u8>, bytes: &[u8]) -> Result<(), AllocError>
    ensures { OnOk result (text.new.items ≡ text.old.items ++ spaced_bytes bytes.now) }
{
    for byte in bytes {
        text.extend_from_slice(&[hex_digit(byte / 16), hex_digit(byte % 16), b' '])?;
    }
    Ok(())
}

/// The hexadecimal digit of a number.
pub fn hex_digit(number: u8) -> u8
    requires { number < 16 }
    ensures digit { result ≡ digit_glyph false number }
    ensures ascii { result < 128 }
{
    if number < 10 {
        b'0' + number
    } else {
        b'a' - 10 + number
    }
}

/// Appends this many spaces.
fn push_spaces(text: &mut Vec<u8>, count: usize) -> Result<(), AllocError>
    requires { count ≤ 27 }
    ensures { OnOk result (text.new.items ≡ text.old.items ++ replicate count 32) }
{
    text.extend_from_slice(&SPACES[..count])
}

/// Appends the indentation of what is within these fields.
#[tactic(auto, using(crate::proofs::Shown::indented, crate::proofs::Shown::appended))]
fn push_indentation(text: &mut Vec<u8>, path: &[FieldAt]) -> Result<(), AllocError>
    ensures { OnOk result (text.new.items ≡ text.old.items ++ indentation path.now) }
{
    for field in path {
        let _field = field;
        text.extend_from_slice(b"  ")?;
    }
    Ok(())
}
