//! Writing a payload at other field numbers: one pass over the records finds those of the table, which are then put in
//! the order of the groups, and appended. Messages within are appended by the same functions.

ghost use Rattle.std.specs.Prelude.{◌≡◌, ◌≤◌, ◌++◌, true, false, IfOk, OnOk, drop, flat_map, length};
ghost use Rattle.std.specs.List.{list_all};
ghost use Rattle.shared_core_wire.specs.View.{value_of};
ghost use Rattle.shared_core_wire.specs.WrittenRecords.{content_record};
ghost use Rattle.shared_core_renumber.specs.Allowed.{nested_allows, payload_allows, value_allows};
ghost use Rattle.shared_core_renumber.specs.Written.{allows_found, found_bytes, found_values, nested_bytes};
ghost use Rattle.shared_core_renumber.specs.Written.{payload_bytes, value_bytes};

use crate::entries::{Renumbering, from_schema};
use crate::found::{Found, sorted_records};
use crate::source::Source;
use shared_core_canonical::append::{append_content, append_key, append_number, append_varint};
use shared_core_canonical::places::{Placed, front_at};
use shared_core_codec::size::LENGTH;
use shared_core_wire::record::WireValue;
use shared_core_wire::varint::low_32;
use std::alloc::AllocError;

/// Appends a message at its other field numbers.
#[cycle(message)]
pub fn append_message(
    entries: &[Renumbering],
    source: &Source<'_>,
    out: &mut Vec<u8>,
) -> Result<(), AllocError>
    requires { payload_allows entries.now source.now.left source.now.schema source.now.bytes.now ≡ true }
    ensures { OnOk result (out.new.items ≡ out.old.items
        ++ payload_bytes entries.now source.now.left source.now.schema source.now.bytes.now) }
{
    let own = from_schema(entries, source.schema);
    let found = sorted_records(own, source)?;
    let mut rest = own;
    let mut before = 0;
    let mut start = 0;
    while let Some((entry, after)) = rest.split_first() {
        if entry.schema != source.schema {
            return Ok(());
        }
        let group = front_at(found.as_slice(), start, own.len() - rest.len());
        if entry.group != before {
            append_group(entries, group, source, out)?;
        }
        start += group.len();
        before = entry.group;
        rest = after;
    }
    Ok(())
}

/// Appends the records of the fields of a group, in their order.
#[cycle(message)]
fn append_group(
    entries: &[Renumbering],
    group: &[Placed<Found<'_>>],
    source: &Source<'_>,
    out: &mut Vec<u8>,
) -> Result<(), AllocError>
    requires { list_all (allows_found (nested_allows entries.now source.now.left)) (found_values group.now) ≡ true }
    ensures { OnOk result (out.new.items ≡ out.old.items
        ++ flat_map (found_bytes (nested_bytes entries.now source.now.left)) (found_values group.now)) }
{
    for found in group {
        append_found(entries, &found.value, source, out)?;
    }
    Ok(())
}

/// Appends the record of a field that a table has.
#[cycle(message)]
fn append_found(
    entries: &[Renumbering],
    found: &Found<'_>,
    source: &Source<'_>,
    out: &mut Vec<u8>,
) -> Result<(), AllocError>
    requires { value_allows (nested_allows entries.now source.now.left) found.now.entry
        (value_of found.now.value) ≡ true }
    ensures { OnOk result (out.new.items ≡ out.old.items
        ++ value_bytes (nested_bytes entries.now source.now.left) found.now.entry (value_of found.now.value)) }
{
    let number = low_32(found.entry.renumbered);
    match found.value {
        WireValue::Varint(value) => append_number(out, false, number, value),
        WireValue::Length(bytes) => {
            if found.entry.nested == 0 {
                return append_content(out, false, number, bytes);
            }
            let inner = Inner {
                number,
                schema: found.entry.nested - 1,
                bytes,
            };
            append_inner(entries, &inner, source, out)
        }
        _ => Ok(()),
    }
}

/// The bytes of a message within, by its schema, and the number of what is written of it.
#[derive(Clone, Copy)]
struct Inner<'a> {
    number: u32,
    schema: u64,
    bytes: &'a [u8],
}

/// Appends the record of a message within, at its other field numbers. Its length is written as it was, and once more
/// if the message then has another one.
#[cycle(message)]
fn append_inner(
    entries: &[Renumbering],
    inner: &Inner<'_>,
    source: &Source<'_>,
    out: &mut Vec<u8>,
) -> Result<(), AllocError>
    requires { nested_allows entries.now source.now.left inner.now.schema inner.now.bytes.now ≡ true }
    ensures { OnOk result (out.new.items ≡ out.old.items ++ content_record false inner.now.number
        (nested_bytes entries.now source.now.left inner.now.schema inner.now.bytes.now)) }
{
    let start = out.len();
    append_key(out, inner.number, LENGTH)?;
    append_varint(out, inner.bytes.len() as u64)?;
    let front = out.len();
    append_nested(entries, inner, source, out)?;
    if out.len() - front == inner.bytes.len() {
        return Ok(());
    }
    let content = copy_from(out, front, source)?;
    out.truncate(start);
    append_content(out, false, inner.number, content.as_slice())
}

/// A copy of the bytes of a buffer from a place on.
fn copy_from(out: &Vec<u8>, front: usize, source: &Source<'_>) -> Result<Vec<u8>, AllocError>
    requires { front ≤ length out.now.items }
    ensures { IfOk result (λ copy. copy.items ≡ drop front out.now.items) }
{
    Vec::from_slice(source.alloc, &out.as_slice()[front..])
}

/// Appends the bytes of a message within the source, at its other field numbers.
#[cycle(message)]
fn append_nested(
    entries: &[Renumbering],
    inner: &Inner<'_>,
    source: &Source<'_>,
    out: &mut Vec<u8>,
) -> Result<(), AllocError>
    requires { nested_allows entries.now source.now.left inner.now.schema inner.now.bytes.now ≡ true }
    ensures { OnOk result (out.new.items ≡ out.old.items
        ++ nested_bytes entries.now source.now.left inner.now.schema inner.now.bytes.now) }
{
    if source.left == 0 {
        // no message may be nested here, so none is allowed
        return Ok(());
    }
    let inner = Source {
        alloc: source.alloc,
        bytes: inner.bytes,
        schema: inner.schema,
        left: source.left - 1,
    };
    append_message(entries, &inner, out)
}
