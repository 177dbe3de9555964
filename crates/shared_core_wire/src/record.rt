//! One record (proto3): a key, which is a field number and a wire type, and a value.

ghost use Rattle.std.specs.Prelude.{◌+◌};
ghost use Rattle.shared_core_wire.specs.Reader.{Gives, key_at, bytes_at, value_at, group_content_at, record_at};
ghost use Rattle.shared_core_wire.specs.View.{value_of};

use crate::varint::read_varint;

/// The value of a record. The slices borrow from the payload.
#[derive(Clone, Copy, Debug, PartialEq, Eq)]
pub enum WireValue<'a> {
    /// Wire type 0: a varint.
    Varint(u64),
    /// Wire type 1: eight bytes.
    Fixed64(&'a [u8]),
    /// Wire type 2: the bytes after the length.
    Length(&'a [u8]),
    /// Wire types 3 and 4: the bytes of the records between a group's start and its end.
    Group(&'a [u8]),
    /// Wire type 5: four bytes.
    Fixed32(&'a [u8]),
}

/// Reads a key. Returns its field number, its wire type and the bytes after it, or `None` if the bytes do not begin
/// with a key of at most 32 bits and a field number of at least 1.
#[inline(always)]
#[tactic(auto, unfolding(crate::specs::Reader::key_at))]
fn read_key(bytes: &[u8]) -> Option<(u32, u8, &[u8])>
    ensures { Gives (λ x. (x.0, x.1, x.2.now)) result (key_at bytes.now) }
{
    let (key, rest) = read_varint(bytes)?;
    if key < 8 || key > 4_294_967_295 {
        return None;
    }
    Some(((key / 8) as u32, (key % 8) as u8, rest))
}

/// Splits off the first `len` bytes. Returns `None` if there are fewer.
#[inline(always)]
#[tactic(auto, unfolding(crate::specs::Reader::bytes_at))]
fn read_bytes(len: u64, bytes: &[u8]) -> Option<(&[u8], &[u8])>
    ensures { Gives (λ x. (x.0.now, x.1.now)) result (bytes_at len bytes.now) }
{
    if (bytes.len() as u64) < len {
        return None;
    }
    Some(bytes.split_at(len as usize))
}

/// Reads the value after a key; groups may be nested `left` deep. Returns the value and the bytes after it, or `None`
/// if the bytes do not begin with such a value.
#[inline(always)]
#[cycle(value)]
#[tactic(auto, unfolding(crate::specs::Reader::value_with, crate::specs::Reader::group_content_at))]
fn read_value<'a>(
    number: u32,
    wire: u8,
    bytes: &'a [u8],
    left: u32,
) -> Option<(WireValue<'a>, &'a [u8])>
    ensures { Gives (λ x. (value_of x.0, x.1.now)) result (value_at left number wire bytes.now) }
{
    match wire {
        0 => {
            let (n, rest) = read_varint(bytes)?;
            Some((WireValue::Varint(n), rest))
        }
        1 => {
            let (content, rest) = read_bytes(8, bytes)?;
            Some((WireValue::Fixed64(content), rest))
        }
        2 => {
            let (len, rest) = read_varint(bytes)?;
            let (content, rest) = read_bytes(len, rest)?;
            Some((WireValue::Length(content), rest))
        }
        3 => {
            // the group would exceed the nesting depth
            if left == 0 {
                return None;
            }
            let (content, rest) = read_group(number, bytes, left - 1)?;
            Some((WireValue::Group(content), rest))
        }
        5 => {
            let (content, rest) = read_bytes(4, bytes)?;
            Some((WireValue::Fixed32(content), rest))
        }
        _ => None,
    }
}

/// Reads the content of a group after its start key; groups within it may be nested `left` deep. Returns the content
/// and the bytes after the end key, or `None` if the content is not records or the group does not end.
#[cycle(value)]
#[tactic(auto, using(crate::proofs::GroupLoop::group_ends, crate::proofs::GroupLoop::group_other))]
fn read_group<'a>(number: u32, bytes: &'a [u8], left: u32) -> Option<(&'a [u8], &'a [u8])>
    ensures { Gives (λ x. (x.0.now, x.1.now)) result (group_content_at (left + 1) number bytes.now) }
{
    let mut rest = bytes;
    while !rest.is_empty() {
        let (inner, wire, after) = read_key(rest)?;
        if wire == 4 {
            if inner != number {
                return None;
            }
            let content = &bytes[..bytes.len() - rest.len()];
            return Some((content, after));
        }
        let (_, beyond) = read_value(inner, wire, after, left)?;
        rest = beyond;
    }
    None
}

/// Reads a record; groups may be nested `left` deep. Returns its field number, its value and the bytes after it, or
/// `None` if the bytes do not begin with a record.
#[inline(always)]
#[tactic(auto, unfolding(crate::specs::Reader::record_at, crate::specs::Reader::record_with))]
pub fn read_record(bytes: &[u8], left: u32) -> Option<(u32, WireValue<'_>, &[u8])>
    ensures { Gives (λ x. (record { number = x.0; value = value_of x.1 }, x.2.now)) result
        (record_at left bytes.now) }
{
    let (number, wire, rest) = read_key(bytes)?;
    let (value, rest) = read_value(number, wire, rest, left)?;
    Some((number, value, rest))
}
