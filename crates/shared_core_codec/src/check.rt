//! Checking payloads by the rows of their schema: in one pass, without a record and without allocating.

ghost use Rattle.std.specs.Prelude.{◌≡◌, ◌↔◌, ◌≤◌, IsTrue, drop, length, map, true};
ghost use Rattle.std.specs.Option.{is_some};
ghost use Rattle.shared_core_wire.specs.Acceptance.{accepts_payload, accepts_message, accepts_record};
ghost use Rattle.shared_core_wire.specs.Acceptance.{NestedAcceptance, accepts_element, accepts_numbers, accepts_value};
ghost use Rattle.shared_core_wire.specs.Reader.{packed_numbers};
ghost use Rattle.shared_core_wire.specs.Schema.{are_distinct, all_numbers};
ghost use Rattle.shared_core_wire.specs.View.{value_of};
ghost use Rattle.shared_core_codec.specs.Payloads.{IsAccepted};
ghost use Rattle.shared_core_codec.specs.Tables.{IsAcceptedIn};
ghost use Rattle.shared_core_codec.specs.Checking.{field_record_of};
ghost use Rattle.shared_core_codec.specs.ProgramRows.{kind_view};

use crate::any_table::{ProtocolSchemas, Schemas};
pub use crate::rows::is_schema;
use crate::rows::{Kind, find_field};
use crate::utf8::is_text;
use shared_core_wire::record::WireValue;
use shared_core_wire::records::{LEVELS, Record, Records};
use shared_core_wire::varint::read_varint;

/// Whether a payload is well-formed for the schema at an index of the table and at most one hundred levels deep, so
/// that `WireRecord::decode` takes it. Past the table's end a schema has no fields. Does not allocate, and makes one
/// pass over the bytes.
pub fn is_well_formed(schema: u32, payload: &[u8]) -> bool
    ensures { IsTrue result ↔ IsAccepted schema payload.now }
{
    is_well_formed_in(&ProtocolSchemas, schema, payload)
}

/// The same for the schemas of any table.
pub fn is_well_formed_in<T: Schemas>(schemas: &T, schema: u32, payload: &[u8]) -> bool
    ensures { IsTrue result ↔ IsAcceptedIn (T.table schemas.now) schema payload.now }
{
    accepts_payload(schemas, schema, payload, LEVELS)
}

/// Whether a payload is well-formed for a schema; its records may be nested `left` deep.
#[cycle(payload)]
fn accepts_payload<T: Schemas>(schemas: &T, schema: u32, payload: &[u8], left: u32) -> bool
    ensures { result ≡ accepts_payload (T.table schemas.now) left schema payload.now }
{
    let rows = schemas.rows_of(schema);
    for item in Records::within(payload, left) {
        let Ok(found) = item else {
            return false;
        };
        let own = rows_from(schemas, schema, rows, &found);
        if !accepts_record(schemas, own, &found, left) {
            return false;
        }
    }
    true
}

/// The rows of a schema from which that of a record is looked for. None before them has the record's number.
#[inline(always)]
fn rows_from<'a, T: Schemas>(
    schemas: &T,
    schema: u32,
    rows: &'a [T::Row],
    found: &Record<'_>,
) -> &'a [T::Row]
    requires { map T.Row.view rows.now ≡ T.table schemas.now schema }
    ensures distinct { are_distinct (all_numbers (map T.Row.view result.now)) ≡ true }
    ensures same { (nested : NestedAcceptance) → accepts_record nested (map T.Row.view result.now)
        (field_record_of found.now) ≡ accepts_record nested (T.table schemas.now schema) (field_record_of found.now) }
{
    rows_after(rows, schemas.rows_before(schema, found.number))
}

/// The rows after the first ones.
#[inline(always)]
fn rows_after<R>(rows: &[R], count: usize) -> &[R]
    requires { count ≤ length rows.now }
    ensures { result.now ≡ drop count rows.now }
{
    &rows[count..]
}

/// Whether a payload with these rows may have a record.
#[cycle(payload)]
fn accepts_record<T: Schemas>(schemas: &T, rows: &[T::Row], found: &Record<'_>, left: u32) -> bool
    requires { are_distinct (all_numbers (map T.Row.view rows.now)) ≡ true }
    ensures { result ≡ accepts_record (accepts_message (T.table schemas.now) left) (map T.Row.view rows.now)
        (field_record_of found.now) }
{
    let Some(field) = find_field(rows, found.number) else {
        return true;
    };
    if field.is_repeated {
        accepts_element(schemas, field.kind, found.value, left)
    } else {
        accepts_value(schemas, field.kind, found.value, left)
    }
}

/// Whether a repeated field of a kind accepts the value of a record.
#[cycle(payload)]
fn accepts_element<T: Schemas>(schemas: &T, kind: Kind, value: WireValue<'_>, left: u32) -> bool
    ensures { result ≡ accepts_element (accepts_message (T.table schemas.now) left) (kind_view kind)
        (value_of value.entry) }
{
    if kind.is_number() {
        accepts_numbers(value)
    } else {
        accepts_value(schemas, kind, value, left)
    }
}

/// Whether a list of numbers accepts the value of a record.
fn accepts_numbers(value: WireValue<'_>) -> bool
    ensures { result ≡ accepts_numbers (value_of value.entry) }
{
    match value {
        WireValue::Varint(_number) => true,
        WireValue::Length(run) => is_run(run),
        _ => false,
    }
}

/// Whether a field of a kind accepts the value of a record.
#[cycle(payload)]
fn accepts_value<T: Schemas>(schemas: &T, kind: Kind, value: WireValue<'_>, left: u32) -> bool
    ensures { result ≡ accepts_value (accepts_message (T.table schemas.now) left) (kind_view kind)
        (value_of value.entry) }
{
    match value {
        WireValue::Varint(_number) => kind.is_number(),
        WireValue::Length(bytes) => match kind {
            Kind::Text => is_text(bytes),
            Kind::ByteString => true,
            Kind::Message(schema) => left > 0 && accepts_payload(schemas, schema, bytes, left - 1),
            _ => false,
        },
        _ => false,
    }
}

/// Whether bytes are a packed run: varints that fill them exactly.
fn is_run(run: &[u8]) -> bool
    ensures { result ≡ is_some (packed_numbers run.now) }
{
    let mut rest = run;
    while !rest.is_empty() {
        let Some((_number, after)) = read_varint(rest) else {
            return false;
        };
        rest = after;
    }
    true
}
