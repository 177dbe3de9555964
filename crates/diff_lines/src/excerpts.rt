//! Long values, shown around their difference.

ghost use Rattle.std.specs.Prelude.{◌≡◌, ◌≤◌, ◌++◌, length, IfOk, OnOk};
ghost use Rattle.std.specs.String.{string_bytes};
ghost use Rattle.diff_lines.specs.Excerpts.{beginning, ending, excerpt, is_long, position_text, quotes, shown_bytes};

use crate::look::Pen;
use crate::parted::{Parted, char_start, from_char};
use std::alloc::{AllocError, Global};

/// The most bytes of two values that are shown whole.
const MOST_WHOLE: usize = 80;

/// The most bytes that are shown of what two values begin with, and of what they end with.
const MOST_COMMON: usize = 20;

/// The most bytes that are shown of what only one value has.
const MOST_OWN: usize = 40;

/// Whether one of two values is too long to be shown whole.
pub fn is_long(recorded: &str, replayed: &str) -> bool
    ensures { result ≡ is_long recorded.now replayed.now }
{
    recorded.len() > MOST_WHOLE || replayed.len() > MOST_WHOLE
}

/// The value that has this part of its own: the end of what both begin with, that part in brackets, and the beginning
/// of what both end with. Two dots are where something is left out.
pub fn excerpt(pen: Pen, parted: &Parted<'_>, own: &[u8]) -> Result<Vec<u8>, AllocError>
    ensures { IfOk result (λ text. text.items
        ≡ excerpt pen.look.is_escaped parted.now.front.now own.now parted.now.back.now) }
{
    let mut text = Vec::new(pen.alloc);
    push_ending(pen, &mut text, parted.front)?;
    text.extend_from_slice(b"[")?;
    push_beginning(pen, &mut text, MOST_OWN, own)?;
    text.extend_from_slice(b"]")?;
    push_beginning(pen, &mut text, MOST_COMMON, parted.back)?;
    Ok(text)
}

/// Appends the beginning of a part of a value: all, or the first characters and two dots.
fn push_beginning(pen: Pen, text: &mut Vec<u8>, most: usize, part: &[u8]) -> Result<(), AllocError>
    ensures { OnOk result (text.new.items ≡ text.old.items ++ beginning pen.look.is_escaped most part.now) }
{
    if part.len() <= most {
        return push_bytes(pen, text, part);
    }
    push_bytes(pen, text, &part[..char_start(part, most)])?;
    text.extend_from_slice(b"..")
}

/// Appends the end of what two values begin with: all, or two dots and the last characters.
fn push_ending(pen: Pen, text: &mut Vec<u8>, part: &[u8]) -> Result<(), AllocError>
    ensures { OnOk result (text.new.items ≡ text.old.items ++ ending pen.look.is_escaped part.now) }
{
    if part.len() <= MOST_COMMON {
        return push_bytes(pen, text, part);
    }
    text.extend_from_slice(b"..")?;
    push_bytes(pen, text, from_char(&part[part.len() - MOST_COMMON..]))
}

/// Appends bytes of a value, escaped or as they are.
fn push_bytes(pen: Pen, text: &mut Vec<u8>, bytes: &[u8]) -> Result<(), AllocError>
    ensures { OnOk result (text.new.items ≡ text.old.items ++ shown_bytes pen.look.is_escaped bytes.now) }
{
    let whole = String::from_utf8_lossy(pen.alloc, bytes)?;
    let shown = pen.shown_value(whole.as_str())?;
    text.extend_from_slice(shown.as_bytes())
}

/// Where two values of these lengths differ, and the lengths. Bytes of values in quotes are counted within them.
pub fn position(
    alloc: Global,
    parted: &Parted<'_>,
    recorded: usize,
    replayed: usize,
) -> Result<String, AllocError>
    ensures { IfOk result (λ text. string_bytes text
        ≡ position_text (quotes parted.now.front.now parted.now.back.now) (length parted.now.front.now) recorded
        replayed) }
{
    let quotes = quotes(parted.front, parted.back);
    let at = parted.front.len().saturating_sub(quotes);
    let length = recorded.saturating_sub(2 * quotes);
    let other = replayed.saturating_sub(2 * quotes);
    if length == other {
        return format!(in alloc; ": at byte {at} of {length}");
    }
    format!(in alloc; ": at byte {at} of {length} and {other}")
}

/// How many quotes are at each end of two values that begin and end so: one, or none.
fn quotes(front: &[u8], back: &[u8]) -> usize
    ensures quotes { result ≡ quotes front.now back.now }
    ensures few { result ≤ 1 }
{
    if front.starts_with(b"'") && back.ends_with(b"'") {
        1
    } else {
        0
    }
}
