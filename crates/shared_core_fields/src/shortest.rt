//! Reading records as they are written: with their keys, lengths and numbers in the shortest form.

ghost use Rattle.std.specs.Prelude.{◌≡◌, Some, IfSome};
ghost use Rattle.shared_core_wire.specs.Reader.{Gives};
ghost use Rattle.shared_core_wire.specs.View.{value_of};
ghost use Rattle.shared_core_fields.specs.WrittenRecords.{IsWrittenVarint, written_record_at};

use shared_core_codec::canonical::written_size;
use shared_core_wire::record::{WireValue, read_record};
use shared_core_wire::records::Record;
use shared_core_wire::varint::read_varint;

/// Reads the record that the bytes begin with. Returns its field number, its value and the bytes after it, or `None` if
/// the bytes do not begin with a record as it is written.
#[inline(always)]
pub(crate) fn read_written(bytes: &[u8]) -> Option<(u32, WireValue<'_>, &[u8])>
    ensures { Gives (λ x. (record { number = x.0; value = value_of x.1 }, x.2.now)) result
        (written_record_at bytes.now) }
{
    if let Some(found) = read_short(bytes) {
        return Some(found);
    }
    read_other(bytes)
}

/// The same again, inlined, so that what the call returns in memory is cleared where it is made.
#[inline(always)]
fn read_other(bytes: &[u8]) -> Option<(u32, WireValue<'_>, &[u8])>
    ensures { Gives (λ x. (record { number = x.0; value = value_of x.1 }, x.2.now)) result
        (written_record_at bytes.now) }
{
    let (number, value, rest) = read_long(bytes)?;
    Some((number, value, rest))
}

/// The same of a record whose key is one byte, as those of most are. `None` says nothing.
#[inline(always)]
pub(crate) fn read_short(bytes: &[u8]) -> Option<(u32, WireValue<'_>, &[u8])>
    ensures { IfSome result (λ x. written_record_at bytes.now
        ≡ Some (record { number = x.0; value = value_of x.1 }, x.2.now)) }
{
    let (key, rest) = bytes.split_first()?;
    if *key < 8 || *key >= 128 {
        return None;
    }
    let (number, rest) = read_written_varint(rest)?;
    let field = u32::from(*key / 8);
    match *key % 8 {
        0 => Some((field, WireValue::Varint(number), rest)),
        2 => {
            if (rest.len() as u64) < number {
                return None;
            }
            let (content, rest) = rest.split_at(number as usize);
            Some((field, WireValue::Length(content), rest))
        }
        _ => None,
    }
}

/// Reads the varint that the bytes begin with, if no fewer bytes would do. Returns its number and the bytes after it.
/// `None` says nothing.
#[inline(always)]
fn read_written_varint(bytes: &[u8]) -> Option<(u64, &[u8])>
    ensures { IfSome result (λ x. IsWrittenVarint bytes.now x.0 x.1.now) }
{
    let (first, rest) = bytes.split_first()?;
    if *first < 128 {
        return Some((u64::from(*first), rest));
    }
    let (number, rest) = read_varint(bytes)?;
    // a last byte that is 0 would not be needed
    if bytes[bytes.len() - rest.len() - 1] == 0 {
        return None;
    }
    Some((number, rest))
}

/// The same of any record.
#[inline(never)]
#[tactic(auto, unfolding(crate::specs::WrittenRecords::written_record_at))]
pub(crate) fn read_long(bytes: &[u8]) -> Option<(u32, WireValue<'_>, &[u8])>
    ensures { Gives (λ x. (record { number = x.0; value = value_of x.1 }, x.2.now)) result
        (written_record_at bytes.now) }
{
    let (number, value, rest) = read_record(bytes, 0)?;
    let found = Record {
        number,
        value,
        span: (0, 0),
    };
    if written_size(&found) == (bytes.len() - rest.len()) as u64 {
        Some((number, value, rest))
    } else {
        None
    }
}
