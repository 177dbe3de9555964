//! Reading the records of a payload that is known to be canonical: no step can fail, and none is checked again.

ghost use Rattle.std.specs.Prelude.{◌≡◌, true, is_some, Some};
ghost use Rattle.shared_core_wire.specs.Reader.{varint_at, key_at};
ghost use Rattle.shared_core_fields.specs.KnownValues.{front_at};

use shared_core_wire::varint::{low_32, read_varint};

/// Reads the varint that the bytes begin with. Returns its number and the bytes after it.
#[inline(always)]
pub(crate) fn known_varint(bytes: &[u8]) -> (u64, &[u8])
    requires { is_some (varint_at bytes.now) ≡ true }
    ensures { varint_at bytes.now ≡ Some (result.0, result.1.now) }
{
    let Some(found) = read_varint(bytes) else {
        unreachable!();
    };
    found
}

/// Reads the key of the record that the bytes begin with. Returns its field number, its wire type and the bytes after
/// it.
#[inline(always)]
pub(crate) fn known_key(bytes: &[u8]) -> (u32, u8, &[u8])
    requires { is_some (key_at bytes.now) ≡ true }
    ensures { key_at bytes.now ≡ Some (result.0, result.1, result.2.now) }
{
    let (key, rest) = known_varint(bytes);
    (low_32(key / 8), (key % 8) as u8, rest)
}

/// Reads the key of the record that the bytes begin with, and the varint after it: its number, or the length of its
/// content. Returns the field number, the wire type, that varint and the bytes after it.
#[inline(always)]
pub(crate) fn known_front(bytes: &[u8]) -> (u32, u8, u64, &[u8])
    requires { is_some (front_at bytes.now) ≡ true }
    ensures { front_at bytes.now ≡ Some (result.0, result.1, result.2, result.3.now) }
{
    // both are one byte each of most
    let key = bytes[0];
    let number = bytes[1];
    if key < 128 && number < 128 {
        return (u32::from(key / 8), key % 8, u64::from(number), &bytes[2..]);
    }
    let (field, wire, rest) = known_key(bytes);
    let (number, rest) = known_varint(rest);
    (field, wire, number, rest)
}
