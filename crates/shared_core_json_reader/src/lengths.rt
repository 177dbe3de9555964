//! Lengths put before what they count.
//!
//! The length of a nested message comes before its fields, and is known once they are there. So `append_prefix` leaves
//! room for it, and `put_length` puts it there. After an error no content of the buffer is promised: it was empty when
//! the reader began, and `payload_into` says so to the caller.

ghost use Rattle.std.specs.Prelude.{◌≡◌, ◌+◌, ◌-◌, ◌<◌, ◌≤◌, [], ◌∷◌, ◌++◌, IfOk, OnOk, length};
ghost use Rattle.std.specs.Prelude.{max, take, drop};
ghost use Rattle.shared_core_wire.specs.Encoding.{shortest_varint, key_bytes};
ghost use Rattle.shared_core_wire.specs.WrittenRecords.{number_record, content_size, at_most_64_bits};

use shared_core_canonical::append::{append_key, append_varint};
use shared_core_codec::size::{LENGTH, VARINT, key};
use shared_core_wire::varint::varint_len;
use std::alloc::AllocError;

/// Appends what a record of bytes begins with: its key, and their number as a varint. Returns where the latter begins.
pub fn append_prefix(out: &mut Vec<u8>, number: u32, size: u64) -> Result<usize, AllocError>
    ensures bytes { OnOk result (out.new.items
        ≡ (out.old.items ++ key_bytes number 2) ++ shortest_varint size) }
    ensures place { IfOk result (λ place. place ≡ length (out.old.items ++ key_bytes number 2)) }
{
    append_key(out, number, LENGTH)?;
    let place = out.len();
    append_varint(out, size)?;
    Ok(place)
}

/// Puts the length of what comes from `end` on in the place of the bytes from `place` to there, as a varint. What comes
/// after is moved only if these were more or fewer bytes.
pub fn put_length(out: &mut Vec<u8>, place: usize, end: usize) -> Result<(), AllocError>
    requires place { place ≤ end }
    requires end { end ≤ length out.old.items }
    ensures { OnOk result (out.new.items ≡ take place out.old.items
        ++ (shortest_varint (length out.old.items - end) ++ drop end out.old.items)) }
{
    let mut rest = (out.len() - end) as u64;
    let mut at = place;
    while rest >= 128 {
        put_byte(out, at, end, (rest % 128) as u8 + 128)?;
        at += 1;
        rest /= 128;
    }
    put_byte(out, at, end, rest as u8)?;
    remove_until(out, at + 1, end);
    Ok(())
}

/// Puts a byte at an index: in the place of the one that is there, if that is before `end`, and otherwise before it.
fn put_byte(out: &mut Vec<u8>, at: usize, end: usize, byte: u8) -> Result<(), AllocError>
    requires at { at ≤ length out.old.items }
    requires end { end ≤ length out.old.items }
    ensures length { OnOk result (at + 1 ≤ length out.new.items) }
    ensures end { OnOk result (end ≤ length out.new.items) }
    ensures before { OnOk result (take (at + 1) out.new.items ≡ take at out.old.items ++ byte ∷ []) }
    ensures after { OnOk result (drop (max (at + 1) end) out.new.items ≡ drop (max at end) out.old.items) }
{
    if at < end {
        out[at] = byte;
    } else {
        out.insert(at, byte)?;
    }
    Ok(())
}

/// Removes the bytes from an index on that are before `end`.
fn remove_until(out: &mut Vec<u8>, at: usize, end: usize)
    requires at { at ≤ length out.old.items }
    requires end { end ≤ length out.old.items }
    ensures { out.new.items ≡ take at out.old.items ++ drop (max at end) out.old.items }
{
    let mut more = end.saturating_sub(at);
    while more > 0 {
        out.remove(at);
        more -= 1;
    }
}

/// The number of bytes of the record of a number; 0 is left out in a plain field.
pub fn number_len(plain: bool, number: u32, value: u64) -> u64
    ensures { result ≡ length (number_record plain number value) }
{
    if plain && value == 0 {
        return 0;
    }
    key_len(number, VARINT) + varint_len(value)
}

/// The number of bytes of the record of some bytes, by how many these are, or the greatest number of 64 bits if that is
/// fewer. No bytes are left out in a plain field.
pub fn content_len(plain: bool, number: u32, length: u64) -> u64
    ensures { result ≡ at_most_64_bits (content_size plain number length) }
{
    if plain && length == 0 {
        return 0;
    }
    (key_len(number, LENGTH) + varint_len(length)).saturating_add(length)
}

/// The number of bytes of the key of a record.
fn key_len(number: u32, wire: u64) -> u64
    requires { wire < 8 }
    ensures len { result ≡ length (key_bytes number wire) }
    ensures bound { result ≤ 10 }
{
    varint_len(key(number, wire))
}
