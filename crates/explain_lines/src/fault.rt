//! Why bytes do not begin with a record.

ghost use Rattle.std.specs.Prelude.{◌≡◌, nat_le};
ghost use Rattle.std.specs.List.{list_all};
ghost use Rattle.shared_core_wire.specs.Reader.{varint_at};
ghost use Rattle.explain_lines.specs.Reasons.{length_reason, record_fault, value_reason, varint_reason};

use crate::reason::Reason;
use shared_core_wire::varint::{low_32, read_varint};

/// The most bytes of a varint.
const MOST_OF_A_VARINT: usize = 10;

/// The number of the field in the key that bytes begin with, if that is one, and why they do not begin with a record in
/// which groups may be nested `left` deep.
pub fn fault_of(bytes: &[u8], left: u32) -> (Option<u32>, Reason)
    ensures { result ≡ record_fault left bytes.now }
{
    let Some((key, rest)) = read_varint(bytes) else {
        return (None, varint_fault(bytes));
    };
    if key > 4_294_967_295 {
        return (None, Reason::LongKey);
    }
    if key < 8 {
        return (None, Reason::NoNumber);
    }
    let number = (key / 8) as u32;
    let reason = value_fault(left, number, (key % 8) as u8, rest);
    (Some(number), reason)
}

/// Why the bytes after a key do not begin with a value.
fn value_fault(left: u32, number: u32, wire: u8, bytes: &[u8]) -> Reason
    ensures { result ≡ value_reason left number wire bytes.now }
{
    match wire {
        0 => varint_fault(bytes),
        1 => Reason::Beyond(8),
        2 => length_fault(bytes),
        3 if left == 0 => Reason::TooDeep,
        3 => Reason::OpenGroup(number),
        4 => Reason::NoGroup(number),
        5 => Reason::Beyond(4),
        wire => Reason::NoWireType(wire),
    }
}

/// Why bytes do not begin with a varint.
pub fn varint_fault(bytes: &[u8]) -> Reason
    ensures { result ≡ varint_reason bytes.now }
{
    if bytes.len() < MOST_OF_A_VARINT && all_go_on(bytes) {
        Reason::CutVarint
    } else {
        Reason::LongVarint
    }
}

/// Whether each of the bytes says that a varint goes on.
fn all_go_on(bytes: &[u8]) -> bool
    ensures { result ≡ list_all (λ byte. nat_le 128 byte) bytes.now }
{
    bytes.iter().all(|byte| 128 <= *byte)
}

/// Why bytes do not begin with a length and as many bytes.
fn length_fault(bytes: &[u8]) -> Reason
    ensures { result ≡ length_reason (varint_at bytes.now) bytes.now }
{
    match read_varint(bytes) {
        Some((size, _)) => Reason::Beyond(size),
        None => varint_fault(bytes),
    }
}
