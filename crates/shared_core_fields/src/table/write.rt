//! Writing the entries of a payload into the caller's memory.

ghost use Rattle.std.specs.Prelude.{◌≡◌, ◌<◌, ◌≤◌, ℕ, ◌+◌, ◌^◌, List, true, length, set};
ghost use Rattle.shared_core_codec.specs.Canonicity.{is_canonical_payload};
ghost use Rattle.shared_core_codec.specs.Payloads.{payload_meaning};
ghost use Rattle.shared_core_codec.specs.Table.{table};
ghost use Rattle.shared_core_fields.specs.Fields.{message_fields};
ghost use Rattle.shared_core_fields.specs.Rows.{field_rows, fields_rows, table_rows, run_rows, value_entry};
ghost use Rattle.shared_core_fields.specs.Rows.{WritesRows, IsExact, bytes_entry};
ghost use Rattle.shared_core_fields.specs.NumberValues.{number_value};
ghost use Rattle.shared_core_fields.specs.Runs.{held_numbers, run_numbers};
ghost use Rattle.shared_core_fields.specs.Views.{IsAt, field_part, value_bytes};
ghost use Rattle.shared_core_wire.specs.Schema.{Enumeration, Message};
ghost use Rattle.shared_core_wire.specs.Canonical.{canonical_payload, written_number};
ghost use Rattle.shared_core_codec.specs.FieldParts.{enum_number, parts_of};
ghost use Rattle.shared_core_codec.specs.ProgramRows.{kind_view};
ghost use Rattle.shared_core_wire.specs.Value.{Number};

use super::{FieldEntry, kind_number};
use crate::fields::{CanonicalPayload, Field, FieldValue};
use crate::runs::Run;
use shared_core_codec::any_table::ProtocolSchemas;
use shared_core_codec::rows::Kind;
use shared_core_wire::records::LEVELS;
use shared_core_wire::varint::low_32;

/// Writes the entries of the fields of all levels of a canonical payload, in order, at the front of a slice: as many as
/// there is room for. Returns how many the payload has, at most as many as it has bytes. Does not allocate, and makes
/// one pass over the bytes.
pub(super) fn write_payload(out: &mut [FieldEntry], schema: u32, bytes: &[u8]) -> usize
    requires short { length bytes.now < 4294967296 }
    requires canonical { is_canonical_payload 100 schema bytes.now ≡ true }
    ensures rows { WritesRows bytes.now (table_rows schema (payload_meaning schema bytes.now)) 0 out.old out.new }
    ensures count { result ≡ length (table_rows schema (payload_meaning schema bytes.now)) }
    ensures few { result ≤ length bytes.now }
{
    let place = Place {
        whole: bytes,
        offset: 0,
        level: 0,
    };
    let payload = CanonicalPayload {
        schemas: ProtocolSchemas,
        schema,
        bytes,
    };
    write_within(out, 0, payload, place, LEVELS)
}

/// Where a message is: the payload that it is in, the offset of its bytes there, and its level.
#[derive(Clone, Copy)]
pub(super) struct Place<'a> {
    pub whole: &'a [u8],
    pub offset: usize,
    pub level: u32,
}

/// Writes the entries of a payload that is at a place, from an index on; messages may be nested `left` deep. Returns
/// the index after the last one.
fn write_within<'a>(
    out: &mut [FieldEntry],
    at: usize,
    payload: CanonicalPayload<'a>,
    place: Place<'a>,
    left: u32,
) -> usize
    requires levels { place.level + left ≤ 100 }
    requires place { IsAt place.whole.now place.offset payload.bytes.now }
    requires few { at + length (fields_rows left place.level
        (message_fields (table payload.schema) (payload_meaning payload.schema payload.bytes.now))) < 2 ^ 63 }
    ensures rows { WritesRows place.entry.whole.now (fields_rows left place.entry.level
        (message_fields (table payload.entry.schema) (payload_meaning payload.entry.schema payload.entry.bytes.now)))
        at out.old out.new }
    ensures count { result ≡ at + length (fields_rows left place.entry.level
        (message_fields (table payload.entry.schema) (payload_meaning payload.entry.schema payload.entry.bytes.now))) }
{
    let mut count = at;
    for field in payload.fields() {
        let inner = Place {
            whole: place.whole,
            offset: place.offset + field.offset,
            level: place.level,
        };
        count = write_field(out, count, field, inner);
        if let FieldValue::Message(message) = field.value {
            if left > 0 {
                let inner = Place {
                    level: place.level + 1,
                    ..inner
                };
                count = write_within(out, count, message, inner, left - 1);
            }
        }
    }
    count
}

/// Writes the entries of a field whose bytes are at a place, without those within it.
fn write_field<'a>(out: &mut [FieldEntry], at: usize, field: Field<'a>, place: Place<'a>) -> usize
    requires place { IsAt place.whole.now place.offset (value_bytes field.value) }
    requires few { at + length (field_rows place.level (field_part field)) < 2 ^ 63 }
    ensures rows { WritesRows place.entry.whole.now (field_rows place.entry.level (field_part field.entry))
        at out.old out.new }
    ensures count { result ≡ at + length (field_rows place.entry.level (field_part field.entry)) }
{
    if let FieldValue::Numbers(run) = field.value {
        return write_run(out, at, run, place.level, field.number);
    }
    put(
        out,
        at,
        entry_of(field.value, field.number, place.offset, place.level),
    );
    at + 1
}

/// Writes an entry for each number of a packed run.
pub(super) fn write_run(
    out: &mut [FieldEntry],
    at: usize,
    run: Run<'_>,
    level: u32,
    number: u32,
) -> usize
    requires few { at + length (run_numbers run.bytes.now) < 2 ^ 63 }
    // numbers have no bytes, whatever the payload
    ensures rows { (payload : List ℕ) → WritesRows payload
        (run_rows level number (kind_view run.entry.kind)
        (parts_of Number (held_numbers (kind_view run.entry.kind) run.entry.bytes.now))) at out.old out.new }
    ensures count { result ≡ at + length (run_numbers run.entry.bytes.now) }
{
    let kind = kind_number(run.kind);
    let mut count = at;
    for value in run.numbers() {
        let written = written_number(run.kind, value);
        put(out, count, number_entry(kind, written, number, level));
        count += 1;
    }
    count
}

/// Writes an entry at an index, if there is room for it.
pub(super) fn put(out: &mut [FieldEntry], at: usize, entry: FieldEntry)
    ensures { out.new ≡ set out.old at entry }
{
    if at < out.len() {
        out[at] = entry;
    }
}

/// The entry of a value. Only a run has no entry of its own.
fn entry_of(value: FieldValue<'_>, number: u32, offset: usize, level: u32) -> FieldEntry
    ensures is { result ≡ value_entry value.entry number offset level }
    ensures exact { IsExact value.entry }
{
    match value {
        FieldValue::U32(value) => number_entry(FieldEntry::U32, u64::from(value), number, level),
        FieldValue::U64(value) => number_entry(FieldEntry::U64, value, number, level),
        FieldValue::Boolean(value) => {
            number_entry(FieldEntry::BOOLEAN, u64::from(value), number, level)
        }
        FieldValue::Enumeration(value) => number_entry(
            FieldEntry::ENUMERATION,
            sign_extended(value),
            number,
            level,
        ),
        FieldValue::Text(text) => {
            bytes_entry(FieldEntry::TEXT, 0, text.len(), number, offset, level)
        }
        FieldValue::ByteString(bytes) => {
            bytes_entry(
                FieldEntry::BYTE_STRING,
                0,
                bytes.len(),
                number,
                offset,
                level,
            )
        }
        FieldValue::Message(message) => {
            message_entry(message.schema, message.bytes, number, offset, level)
        }
        FieldValue::Numbers(run) => bytes_entry(
            kind_number(run.kind),
            0,
            run.bytes.len(),
            number,
            offset,
            level,
        ),
    }
}

/// The entry of a message, whose bytes are those of a canonical payload.
fn message_entry(schema: u32, bytes: &[u8], number: u32, offset: usize, level: u32) -> FieldEntry
    requires short { length bytes.now < 4294967296 }
    requires canonical { is_canonical_payload 100 schema bytes.now ≡ true }
    ensures is { result ≡ bytes_entry (Message schema) schema (length bytes.now) number offset level }
    ensures exact { bytes.now ≡ canonical_payload table schema (payload_meaning schema bytes.now) }
{
    bytes_entry(
        FieldEntry::MESSAGE,
        u64::from(schema),
        bytes.len(),
        number,
        offset,
        level,
    )
}

/// The entry of bytes at an offset.
pub(super) fn bytes_entry(
    kind: u64,
    value: u64,
    length: usize,
    number: u32,
    offset: usize,
    level: u32,
) -> FieldEntry
    ensures { result ≡ record {
      level = level;
      number = number;
      kind = kind;
      value = value;
      offset = offset;
      length = length;
    } }
{
    FieldEntry {
        offset: offset as u64,
        length: length as u64,
        ..number_entry(kind, value, number, level)
    }
}

/// The entry of a number.
pub(super) fn number_entry(kind: u64, value: u64, number: u32, level: u32) -> FieldEntry
    ensures { result ≡ record {
      level = level;
      number = number;
      kind = kind;
      value = value;
      offset = 0;
      length = 0;
    } }
{
    FieldEntry {
        level: u64::from(level),
        number: u64::from(number),
        kind,
        value,
        offset: 0,
        length: 0,
    }
}

/// The number that is written for one that a value of a kind holds.
fn written_number(kind: Kind, value: u64) -> u64
    requires { number_value (kind_view kind) value ≡ value }
    ensures { result ≡ written_number (kind_view kind) value }
{
    match kind {
        Kind::Enumeration => sign_extended(low_32(value).cast_signed()),
        _ => value,
    }
}

/// The number of an enum, sign-extended to 64 bits.
#[tactic(auto, using(shared_core_codec::proofs::Measuring::sign_extended_is))]
fn sign_extended(value: i32) -> u64
    ensures { result ≡ written_number Enumeration (enum_number value) }
{
    i64::from(value).cast_unsigned()
}
