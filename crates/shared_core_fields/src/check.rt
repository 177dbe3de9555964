//! Checking that a payload is canonical: a walk over its records that takes nothing down.

ghost use Rattle.std.specs.Prelude.{◌≡◌, ◌↔◌, IsTrue, map, option_map};
ghost use Rattle.shared_core_wire.specs.Acceptance.{NestedAcceptance};
ghost use Rattle.shared_core_wire.specs.Grammar.{Varint, Length};
ghost use Rattle.shared_core_wire.specs.View.{value_of};
ghost use Rattle.shared_core_codec.specs.Canonicity.{IsCanonicalIn, is_canonical_message_in, is_canonical_payload_in};
ghost use Rattle.shared_core_codec.specs.Canonicity.{is_plain, is_written_field, is_written_number, rows_after};
ghost use Rattle.shared_core_codec.specs.ProgramRows.{kind_view};
ghost use Rattle.shared_core_fields.specs.Coming.{of_row};
ghost use Rattle.shared_core_fields.specs.WrittenRecords.{is_run, rows_and_rest};

use crate::next::{find_field, first_field, is_plain, is_repeated};
use crate::shortest::{read_long, read_short};
use crate::table::check::single_bytes;
use shared_core_codec::any_table::{SchemaRow, Schemas};
use shared_core_codec::canonical::{is_written_number, is_written_run};
use shared_core_codec::rows::{Field, Kind};
use shared_core_codec::size::Size;
use shared_core_codec::utf8::is_text;
use shared_core_wire::record::WireValue;
use shared_core_wire::records::LEVELS;

/// Whether a payload is canonical for the schema at an index of a table. Does not allocate, and makes one pass over the
/// bytes, up to the first record that is not canonical. `CanonicalPayload::check` is the same for the protocol's table.
pub fn is_canonical_in<T: Schemas>(schemas: &T, schema: u32, payload: &[u8]) -> bool
    ensures { IsTrue result ↔ IsCanonicalIn (T.table schemas.now) schema payload.now }
{
    if payload.len() as u64 >= Size::LIMIT {
        return false;
    }
    is_canonical_bytes(schemas, schema, payload, LEVELS)
}

/// Whether the bytes of a message are canonical for its schema; messages may be nested `left` deep.
#[cycle(check)]
fn is_canonical_bytes<T: Schemas>(schemas: &T, schema: u32, bytes: &[u8], left: u32) -> bool
    ensures { result ≡ is_canonical_payload_in (T.table schemas.now) left schema bytes.now }
{
    let mut rows = schemas.rows_of(schema);
    let mut rest = bytes;
    while !rest.is_empty() {
        let Some((next, after)) = rows_and_rest(schemas, rows, rest, left) else {
            return false;
        };
        rows = next;
        rest = after;
    }
    true
}

/// The rows of which records may come after the record that the bytes begin with, and the bytes after it; `None` if it
/// is not a record as it is written of one of these rows.
#[cycle(check)]
#[inline(always)]
fn rows_and_rest<'a, 'b, T: Schemas>(
    schemas: &T,
    rows: &'a [T::Row],
    bytes: &'b [u8],
    left: u32,
) -> Option<(&'a [T::Row], &'b [u8])>
    ensures { option_map (λ x. (map T.Row.view x.0.now, x.1.now)) result
        ≡ rows_and_rest (is_canonical_message_in (T.table schemas.now) left) (map T.Row.view rows.now) bytes.now }
{
    if let Some((number, value, rest)) = read_short(bytes) {
        return Some((rows_after(schemas, rows, number, value, left)?, rest));
    }
    other_rows_and_rest(schemas, rows, bytes, left)
}

/// The same of a record that is not short, inlined, so that what the call returns in memory is cleared where it is
/// made.
#[cycle(check)]
#[inline(always)]
fn other_rows_and_rest<'a, 'b, T: Schemas>(
    schemas: &T,
    rows: &'a [T::Row],
    bytes: &'b [u8],
    left: u32,
) -> Option<(&'a [T::Row], &'b [u8])>
    ensures { option_map (λ x. (map T.Row.view x.0.now, x.1.now)) result
        ≡ rows_and_rest (is_canonical_message_in (T.table schemas.now) left) (map T.Row.view rows.now) bytes.now }
{
    let (rows, rest) = long_rows_and_rest(schemas, rows, bytes, left)?;
    Some((rows, rest))
}

/// The same of any record.
#[cycle(check)]
#[inline(never)]
fn long_rows_and_rest<'a, 'b, T: Schemas>(
    schemas: &T,
    rows: &'a [T::Row],
    bytes: &'b [u8],
    left: u32,
) -> Option<(&'a [T::Row], &'b [u8])>
    ensures { option_map (λ x. (map T.Row.view x.0.now, x.1.now)) result
        ≡ rows_and_rest (is_canonical_message_in (T.table schemas.now) left) (map T.Row.view rows.now) bytes.now }
{
    let (number, value, rest) = read_long(bytes)?;
    Some((rows_after(schemas, rows, number, value, left)?, rest))
}

/// The rows of which records may come after a record, if it is one of these rows.
#[cycle(check)]
#[inline(always)]
fn rows_after<'a, T: Schemas>(
    schemas: &T,
    rows: &'a [T::Row],
    number: u32,
    value: WireValue<'_>,
    left: u32,
) -> Option<&'a [T::Row]>
    ensures { option_map (λ x. map T.Row.view x.now) result
        ≡ rows_after (is_canonical_message_in (T.table schemas.now) left) (map T.Row.view rows.now)
        (record { number = number; value = value_of value.entry }) }
{
    // the wire type first, and the first row by itself, so that each is compiled on its own
    match value {
        WireValue::Varint(value) => {
            if let Some((row, field, after)) = first_field(rows, number) {
                return if is_number(row, field, value) {
                    Some(after)
                } else {
                    None
                };
            }
            let (row, field, after) = find_field(rows, number)?;
            if is_number(row, field, value) {
                Some(after)
            } else {
                None
            }
        }
        WireValue::Length(content) => {
            if let Some((row, field, after)) = first_field(rows, number) {
                return if is_content(schemas, row, field, content, left) {
                    Some(after)
                } else {
                    None
                };
            }
            let (row, field, after) = find_field(rows, number)?;
            if is_content(schemas, row, field, content, left) {
                Some(after)
            } else {
                None
            }
        }
        _ => None,
    }
}

/// Whether a number is written for a field of a row.
#[inline(always)]
fn is_number<R: SchemaRow>(row: &R, field: &Field, value: u64) -> bool
    ensures { (nested : NestedAcceptance) → result ≡ is_written_field nested (is_plain (R.view row.now))
        (of_row (R.view row.now) field.now) (Varint value) }
{
    if is_plain(row) && value == 0 {
        return false;
    }
    // numbers of a list are in a packed run
    if is_repeated(row) {
        return false;
    }
    if let Kind::U32 = field.kind {
        return value < Size::LIMIT;
    }
    is_other_number(field.kind, value)
}

/// Whether a number is written for a kind, out of line.
#[inline(never)]
fn is_other_number(kind: Kind, value: u64) -> bool
    ensures { result ≡ is_written_number (kind_view kind) value }
{
    is_written_number(kind, value)
}

/// Whether bytes are written for a field of a row.
#[cycle(check)]
#[inline(always)]
fn is_content<T: Schemas>(
    schemas: &T,
    row: &T::Row,
    field: &Field,
    content: &[u8],
    left: u32,
) -> bool
    ensures { result ≡ is_written_field (is_canonical_message_in (T.table schemas.now) left)
        (is_plain (T.Row.view row.now)) (of_row (T.Row.view row.now) field.now) (Length content.now) }
{
    if is_plain(row) && content.is_empty() {
        return false;
    }
    // one after the other, and not a jump
    if let Kind::Text = field.kind {
        return is_text(content);
    }
    if let Kind::ByteString = field.kind {
        return true;
    }
    if let Kind::Message(schema) = field.kind {
        return left > 0 && is_message(schemas, schema, content, left - 1);
    }
    is_run(field.kind, is_repeated(row), content)
}

/// Whether the bytes of a message within another one are canonical: most are one record of bytes, which is checked in
/// its place, without a call.
#[cycle(check)]
#[inline(always)]
fn is_message<T: Schemas>(schemas: &T, schema: u32, bytes: &[u8], left: u32) -> bool
    ensures { result ≡ is_canonical_payload_in (T.table schemas.now) left schema bytes.now }
{
    if let Some(_number) = single_bytes(schemas, schema, bytes) {
        return true;
    }
    is_canonical_bytes(schemas, schema, bytes, left)
}

/// Whether bytes are a packed run of a field of a kind, out of line.
#[inline(never)]
fn is_run(kind: Kind, is_repeated: bool, run: &[u8]) -> bool
    ensures { result ≡ is_run (kind_view kind) is_repeated run.now }
{
    kind.is_number() && is_repeated && is_written_run(kind, run)
}
