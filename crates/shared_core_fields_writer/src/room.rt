//! Records written into a slice, from an index on, as far as there is room: what has none is only counted.
//!
//! Each function returns the index after what it writes, or would write, at most the greatest number of 64 bits. So one
//! pass over the parts of a payload measures it, and has written it if there is room for all of it.

ghost use Rattle.std.specs.Prelude.{◌≡◌, ◌+◌, ◌-◌, ◌<◌, ◌≤◌, ◌∷◌, [], Bool, true, length, take, drop, IfSome};
ghost use Rattle.std.specs.Prelude.{IfNone};
ghost use Rattle.std.specs.Str.{is_utf8};
ghost use Rattle.std.specs.List.{copy_within};
ghost use Rattle.shared_core_wire.specs.Encoding.{shortest_varint, key_bytes};
ghost use Rattle.shared_core_wire.specs.WrittenRecords.{number_record, content_record};
ghost use Rattle.shared_core_fields_writer.specs.Room.{Wrote, WroteLength, WroteFewHead};

use crate::few::{FEW, write_few, write_few_ascii};
use shared_core_codec::size::{LENGTH, SHORT_KEYS, VARINT, key};
use shared_core_wire::varint::varint_len;

/// Writes a byte.
#[inline(always)]
fn write_byte(out: &mut [u8], at: usize, byte: u8) -> usize
    ensures written { Wrote out.old at out.new result (byte ∷ []) }
    ensures after { drop result out.new ≡ drop result out.old }
{
    if at < out.len() {
        out[at] = byte;
        return at + 1;
    }
    at.saturating_add(1)
}

/// Writes the shortest varint of a number.
#[inline(always)]
pub(crate) fn write_varint(out: &mut [u8], at: usize, number: u64) -> usize
    ensures written { Wrote out.old at out.new result (shortest_varint number) }
    ensures after { drop result out.new ≡ drop result out.old }
{
    if number < 128 {
        return write_byte(out, at, number as u8);
    }
    write_long_varint(out, at, number)
}

/// Writes the shortest varint of a number of any length.
#[inline(never)]
fn write_long_varint(out: &mut [u8], at: usize, number: u64) -> usize
    ensures written { Wrote out.old at out.new result (shortest_varint number) }
    ensures after { drop result out.new ≡ drop result out.old }
{
    if number < 128 {
        return write_byte(out, at, number as u8);
    }
    let next = write_byte(out, at, (number % 128) as u8 + 128);
    write_long_varint(out, next, number / 128)
}

/// Writes the key of a record.
#[inline(always)]
pub(crate) fn write_key(out: &mut [u8], at: usize, number: u32, wire: u64) -> usize
    requires { wire < 8 }
    ensures { Wrote out.old at out.new result (key_bytes number wire) }
{
    write_varint(out, at, key(number, wire))
}

/// How many bytes there is room for from an index on.
#[inline(always)]
fn room(out: &[u8], at: usize) -> usize
    ensures { result ≡ length out.now - at }
{
    out.len().saturating_sub(at)
}

/// Writes the record of a number; 0 is left out in a plain field.
#[inline(always)]
pub(crate) fn write_number(out: &mut [u8], at: usize, plain: bool, number: u32, value: u64) -> usize
    ensures { Wrote out.old at out.new result (number_record plain number value) }
{
    if number >= SHORT_KEYS || value == 0 || value >= 128 || room(out, at) < 2 {
        return write_long_number(out, at, plain, number, value);
    }
    out[at] = 8 * number as u8;
    out[at + 1] = value as u8;
    at + 2
}

/// Writes the record of a number whose key or value is long, or which is 0.
#[inline(never)]
fn write_long_number(out: &mut [u8], at: usize, plain: bool, number: u32, value: u64) -> usize
    ensures { Wrote out.old at out.new result (number_record plain number value) }
{
    if plain && value == 0 {
        return at;
    }
    let start = write_key(out, at, number, VARINT);
    write_varint(out, start, value)
}

/// Writes the record of some bytes; no bytes are left out in a plain field.
#[inline(always)]
pub(crate) fn write_content(
    out: &mut [u8],
    at: usize,
    plain: bool,
    number: u32,
    content: &[u8],
) -> usize
    ensures { Wrote out.old at out.new result (content_record plain number content.now) }
{
    match write_few_bytes(out, at, number, content) {
        Some(end) => end,
        None => write_long_content(out, at, plain, number, content),
    }
}

/// Writes the record of 1 to 64 bytes (`FEW`) in a field whose number is below 16, if there is room for it, otherwise
/// nothing.
#[inline(always)]
pub(crate) fn write_few_bytes(
    out: &mut [u8],
    at: usize,
    number: u32,
    content: &[u8],
) -> Option<usize>
    ensures written { IfSome result (λ end. (plain : Bool)
        → Wrote out.old at out.new end (content_record plain number content.now)) }
    ensures unchanged { IfNone result (out.new ≡ out.old) }
    ensures before { take at out.new ≡ take at out.old }
{
    let end = write_few_head(out, at, number, content.len())?;
    write_few(out, at + 2, content);
    Some(end)
}

/// Writes the same record of a text, if that is ASCII; otherwise the bytes from the index on may be any.
#[inline(always)]
pub(crate) fn write_few_text(
    out: &mut [u8],
    at: usize,
    number: u32,
    content: &[u8],
) -> Option<usize>
    ensures written { IfSome result (λ end. ((plain : Bool)
        → Wrote out.old at out.new end (content_record plain number content.now)) × (is_utf8 content.now ≡ true)) }
    ensures length { length out.new ≡ length out.old }
    ensures before { take at out.new ≡ take at out.old }
{
    let end = write_few_head(out, at, number, content.len())?;
    let (_after, is_ascii) = write_few_ascii(out, at + 2, content);
    if is_ascii { Some(end) } else { None }
}

/// Writes the key and the length of 1 to 64 bytes in a field whose number is below 16, a byte each, if there is room
/// for all. Returns the index after the bytes.
#[inline(always)]
fn write_few_head(out: &mut [u8], at: usize, number: u32, len: usize) -> Option<usize>
    ensures written { IfSome result (WroteFewHead out.old at number len out.new) }
    ensures unchanged { IfNone result (out.new ≡ out.old) }
{
    if number >= SHORT_KEYS || len == 0 || len > FEW {
        return None;
    }
    let end = at.saturating_add(len + 2);
    if end > out.len() {
        return None;
    }
    out[at] = 8 * number as u8 + 2;
    out[at + 1] = len as u8;
    Some(end)
}

/// Writes the record of some bytes whose key is long, or which are not a few.
#[inline(never)]
fn write_long_content(out: &mut [u8], at: usize, plain: bool, number: u32, content: &[u8]) -> usize
    ensures { Wrote out.old at out.new result (content_record plain number content.now) }
{
    let len = content.len();
    if plain && len == 0 {
        return at;
    }
    let key = write_key(out, at, number, LENGTH);
    let start = write_varint(out, key, len as u64);
    write_bytes(out, start, content)
}

/// Writes bytes.
fn write_bytes(out: &mut [u8], at: usize, bytes: &[u8]) -> usize
    ensures { Wrote out.old at out.new result bytes.now }
{
    let end = at.saturating_add(bytes.len());
    if end <= out.len() {
        out[at..end].copy_from_slice(bytes);
    }
    end
}

/// Writes the length of the bytes from `start` to `end` at `at`, and these bytes after it. Between `at` and `start` is
/// room for a byte of it at least, and for no more than it has.
#[inline(always)]
pub(crate) fn write_length(out: &mut [u8], at: usize, start: usize, end: usize) -> usize
    requires before { at ≤ start }
    requires room { at < 18446744073709551615 → at < start }
    requires after { start ≤ end }
    requires few { start - at ≤ length (shortest_varint (end - start)) }
    ensures { WroteLength out.old at start end out.new result }
{
    let len = end - start;
    if len >= 128 || end > out.len() {
        return write_long_length(out, at, start, end);
    }
    out[at] = len as u8;
    end
}

/// Writes the length of any bytes, and these after it.
#[inline(never)]
fn write_long_length(out: &mut [u8], at: usize, start: usize, end: usize) -> usize
    requires before { at ≤ start }
    requires room { at < 18446744073709551615 → at < start }
    requires after { start ≤ end }
    requires few { start - at ≤ length (shortest_varint (end - start)) }
    ensures { WroteLength out.old at start end out.new result }
{
    let len = end - start;
    let moved = at.saturating_add(varint_len(len as u64) as usize);
    let last = moved.saturating_add(len);
    if last <= out.len() {
        move_bytes(out, start, end, moved);
    }
    write_varint(out, at, len as u64);
    last
}

/// Copies the bytes between two indices to another one. Those that are there are left, since the standard library's
/// `copy_within` is a loop over bytes.
#[tactic(auto, using(crate::proofs::Rooms::copied_here))]
fn move_bytes(out: &mut [u8], start: usize, end: usize, to: usize)
    requires order { start ≤ end }
    requires end { end ≤ length out.old }
    requires room { to + (end - start) ≤ length out.old }
    ensures after { out.new ≡ copy_within out.old start end to }
{
    if to != start {
        out.copy_within(start..end, to);
    }
}
