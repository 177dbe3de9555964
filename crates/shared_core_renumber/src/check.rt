//! Whether a payload can be written at other field numbers.

ghost use Rattle.std.specs.Prelude.{◌≡◌};
ghost use Rattle.shared_core_wire.specs.View.{value_of};
ghost use Rattle.shared_core_codec.specs.Checking.{field_record_of};
ghost use Rattle.shared_core_renumber.specs.Allowed.{nested_allows, payload_allows, record_allows, value_allows};

use crate::entries::{Renumbering, find_in, from_schema};
use shared_core_wire::record::WireValue;
use shared_core_wire::records::{Record, Records};

/// The bytes of a message of a schema, whose records may be nested `left` deep.
#[derive(Clone, Copy)]
pub struct Level<'a> {
    pub bytes: &'a [u8],
    pub schema: u64,
    pub left: u32,
}

/// Whether the bytes of a message are records, and so are those of the messages within it that the table names.
#[cycle(payload)]
pub fn allows_payload(entries: &[Renumbering], source: &Level<'_>) -> bool
    ensures { result ≡ payload_allows entries.now source.now.left source.now.schema source.now.bytes.now }
{
    let own = from_schema(entries, source.schema);
    for item in Records::within(source.bytes, source.left) {
        let Ok(found) = item else {
            return false;
        };
        if !allows_record(entries, own, source, &found) {
            return false;
        }
    }
    true
}

/// Whether the entries of a schema, which are at the front of some, allow a record.
#[cycle(payload)]
fn allows_record(
    entries: &[Renumbering],
    own: &[Renumbering],
    source: &Level<'_>,
    found: &Record<'_>,
) -> bool
    ensures { result ≡ record_allows (nested_allows entries.now source.now.left) source.now.schema own.now
        (field_record_of found.now) }
{
    match find_in(own, source.schema, found.number) {
        Some(placed) => allows_value(entries, &placed.value, source, found.value),
        None => true,
    }
}

/// Whether an entry allows a value: a number if it is of no message, and bytes.
#[cycle(payload)]
fn allows_value(
    entries: &[Renumbering],
    entry: &Renumbering,
    source: &Level<'_>,
    value: WireValue<'_>,
) -> bool
    ensures { result ≡ value_allows (nested_allows entries.now source.now.left) entry.now (value_of value.entry) }
{
    match value {
        WireValue::Varint(_) => entry.nested == 0,
        WireValue::Length(bytes) => {
            if entry.nested == 0 {
                return true;
            }
            allows_nested(entries, entry.nested - 1, source, bytes)
        }
        _ => false,
    }
}

/// The same of the bytes of a message within the source.
#[cycle(payload)]
fn allows_nested(entries: &[Renumbering], schema: u64, source: &Level<'_>, bytes: &[u8]) -> bool
    ensures { result ≡ nested_allows entries.now source.now.left schema bytes.now }
{
    if source.left == 0 {
        return false;
    }
    let inner = Level {
        bytes,
        schema,
        left: source.left - 1,
    };
    allows_payload(entries, &inner)
}
