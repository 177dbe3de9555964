//! Checking a payload and writing its entries, in one pass.

ghost use Rattle.std.specs.Prelude.{◌≡◌, ◌↔◌, ◌+◌, ◌-◌, ◌<◌, ◌≤◌, ◌^◌, ℕ, List, length, map, true, is_some, option_map};
ghost use Rattle.std.specs.Prelude.{IfSome, IfNone};
ghost use Rattle.shared_core_wire.specs.Grammar.{Varint, Length, content};
ghost use Rattle.shared_core_wire.specs.View.{value_of};
ghost use Rattle.shared_core_codec.specs.Canonicity.{IsCanonical, is_canonical_payload, is_canonical_message};
ghost use Rattle.shared_core_codec.specs.Canonicity.{rows_after, is_written_field};
ghost use Rattle.shared_core_codec.specs.Checking.{field_record_of};
ghost use Rattle.shared_core_codec.specs.Payloads.{payload_meaning};
ghost use Rattle.shared_core_codec.specs.ProgramRows.{found_view, row_view, rows_view};
ghost use Rattle.shared_core_codec.specs.Table.{table};
ghost use Rattle.shared_core_fields.specs.Checked.{IsSingleOf, WritesNext, WritesTo, record_rows};
ghost use Rattle.shared_core_fields.specs.Fields.{message_fields};
ghost use Rattle.shared_core_fields.specs.Rows.{fields_rows, table_rows};
ghost use Rattle.shared_core_fields.specs.Views.{IsAt, content_offset};

use super::write::{bytes_entry, number_entry, put, write_payload, write_run};
use super::{FieldEntry, kind_number};
use crate::next::find_next;
use crate::runs::Run;
use crate::shortest::read_written;
use shared_core_codec::any_table::{ProtocolSchemas, RowShape, SchemaRow, Schemas};
use shared_core_codec::canonical::{NextField, is_written_number, is_written_run};
use shared_core_codec::rows::{Kind, Row, rows_of};
use shared_core_codec::size::Size;
use shared_core_codec::utf8::is_text;
use shared_core_wire::record::WireValue;
use shared_core_wire::records::{LEVELS, Record};

/// How many entries are kept until a payload is known to be canonical, of one of fewer than 32 bytes, of one of fewer
/// than 64, and of another one. The room for them is set first, at each call.
const KEPT_TINY: usize = 5;

const KEPT_SHORT: usize = 8;

const KEPT: usize = 24;

/// No entry.
const NOTHING: FieldEntry = FieldEntry {
    level: 0,
    number: 0,
    kind: 0,
    value: 0,
    offset: 0,
    length: 0,
};

/// Checks a payload for the schema at an index of the table, and writes the entries of the fields of all levels, in
/// order, at the front of a slice, as many as there is room for. Returns how many the payload has, at most as many as
/// it has bytes; or `None` if it is not canonical, and then the slice is unchanged. Does not allocate, and makes one
/// pass over the bytes. It makes a second one if there are more than twenty-four entries, more than eight in fewer than
/// 64 bytes, or more than five in fewer than 32.
pub fn write_checked(out: &mut [FieldEntry], schema: u32, payload: &[u8]) -> Option<usize>
    ensures canonical { (is_some result ≡ true) ↔ IsCanonical schema payload.now }
    ensures rows { IfSome result (λ n. WritesTo payload.now (table_rows schema (payload_meaning schema payload.now)) 0
        out.old out.new n) }
    ensures few { IfSome result (λ n. n ≤ length payload.now) }
    ensures unchanged { IfNone result (out.new ≡ out.old) }
{
    if payload.len() < 32 {
        write_kept(out, &mut [NOTHING; KEPT_TINY], schema, payload)
    } else if payload.len() < 64 {
        write_kept(out, &mut [NOTHING; KEPT_SHORT], schema, payload)
    } else {
        write_kept(out, &mut [NOTHING; KEPT], schema, payload)
    }
}

/// The same, where entries are kept in another slice first. If it has too little room, the bytes are read again.
fn write_kept(
    out: &mut [FieldEntry],
    kept: &mut [FieldEntry],
    schema: u32,
    payload: &[u8],
) -> Option<usize>
    ensures canonical { (is_some result ≡ true) ↔ IsCanonical schema payload.now }
    ensures rows { IfSome result (λ n. WritesTo payload.now (table_rows schema (payload_meaning schema payload.now)) 0
        out.old out.new n) }
    ensures few { IfSome result (λ n. n ≤ length payload.now) }
    ensures unchanged { IfNone result (out.new ≡ out.old) }
{
    let count = check_payload(kept, schema, payload)?;
    if count <= kept.len() {
        let shown = count.min(out.len());
        out[..shown].copy_from_slice(&kept[..shown]);
    } else {
        write_payload(out, schema, payload);
    }
    Some(count)
}

/// Checks a payload and writes its entries as it goes: where it is not canonical, some of them may have been written.
fn check_payload(out: &mut [FieldEntry], schema: u32, payload: &[u8]) -> Option<usize>
    ensures canonical { (is_some result ≡ true) ↔ IsCanonical schema payload.now }
    ensures rows { IfSome result (λ n. WritesTo payload.now (table_rows schema (payload_meaning schema payload.now)) 0
        out.old out.new n) }
    ensures few { IfSome result (λ n. n ≤ length payload.now) }
{
    if payload.len() as u64 >= Size::LIMIT {
        return None;
    }
    let place = Inside {
        whole: payload,
        offset: 0,
        left: LEVELS,
    };
    check_message(out, 0, schema, payload, place)
}

/// Where the message is whose records are checked: the payload that it is in, the offset of its bytes there, and how
/// deep messages may be nested in it.
#[derive(Clone, Copy)]
struct Inside<'a> {
    whole: &'a [u8],
    offset: usize,
    left: u32,
}

/// Checks the bytes of a message for its schema, which are at a place, and writes its entries, from an index on.
/// Returns the index after the last one, or `None` if the bytes are not canonical.
#[cycle(check)]
fn check_message<'a>(
    out: &mut [FieldEntry],
    at: usize,
    schema: u32,
    bytes: &[u8],
    place: Inside<'a>,
) -> Option<usize>
    requires short { length bytes.now < 4294967296 }
    requires place { IsAt place.whole.now place.offset bytes.now }
    requires levels { place.left ≤ 100 }
    requires few { at + length bytes.now < 2 ^ 63 }
    ensures canonical { is_some result ≡ is_canonical_payload place.entry.left schema bytes.now }
    ensures rows { IfSome result (λ n. WritesTo place.entry.whole.now (fields_rows place.entry.left
        (100 - place.entry.left) (message_fields (table schema) (payload_meaning schema bytes.now))) at
        out.old out.new n) }
    ensures few { IfSome result (λ n. n ≤ at + length bytes.now) }
{
    let mut rows = rows_of(schema);
    let mut count = at;
    let mut left = bytes;
    while !left.is_empty() {
        let (number, value, after) = read_written(left)?;
        let found = Record {
            number,
            value,
            span: (bytes.len() - left.len(), bytes.len() - after.len()),
        };
        let (next, rest) = check_record(out, count, &found, rows, place)?;
        count = next;
        rows = rest;
        left = after;
    }
    Some(count)
}

/// The same of a record of a message. One of these rows may come next. Returns also the rows that may come after it.
#[cycle(check)]
#[inline(always)]
fn check_record<'a, 'b>(
    out: &mut [FieldEntry],
    at: usize,
    found: &Record<'_>,
    rows: &'a [Row],
    place: Inside<'b>,
) -> Option<(usize, &'a [Row])>
    requires short { length (content (value_of found.now.value)) < 4294967296 }
    requires within { length (content (value_of found.now.value)) ≤ found.now.span.1 }
    requires place { IsAt place.whole.now (place.offset + content_offset (value_of found.now.value) found.now.span.1)
        (content (value_of found.now.value)) }
    requires levels { place.left ≤ 100 }
    requires few { at + 1 + length (content (value_of found.now.value)) < 2 ^ 63 }
    ensures canonical { option_map (λ x. rows_view x.1) result
        ≡ rows_after (is_canonical_message place.entry.left) (map row_view rows.now) (field_record_of found.now) }
    ensures rows { IfSome result (λ x. WritesNext place.entry.whole.now place.entry.left (map row_view rows.now)
        (field_record_of found.now) at out.old out.new x.0 (rows_view x.1)) }
    ensures few { IfSome result (λ x. x.0 ≤ at + 1 + length (content (value_of found.now.value))) }
{
    // the wire type first, so that each is compiled on its own
    match found.value {
        WireValue::Varint(number) => {
            let next = find_next(rows, found.number)?;
            let count = check_number(out, at, found.number, next, number, place.left)?;
            Some((count, next.rows))
        }
        WireValue::Length(content) => {
            let next = find_next(rows, found.number)?;
            let inner = Inside {
                offset: place.offset + (found.span.1 - content.len()),
                ..place
            };
            let count = check_content(out, at, found.number, next, content, inner)?;
            Some((count, next.rows))
        }
        _ => None,
    }
}

/// Checks the number of a record for its field, and writes its entry.
#[inline(always)]
fn check_number(
    out: &mut [FieldEntry],
    at: usize,
    number: u32,
    next: NextField<'_>,
    value: u64,
    left: u32,
) -> Option<usize>
    requires levels { left ≤ 100 }
    requires few { at + 1 < 2 ^ 63 }
    ensures canonical { is_some result ≡ is_written_field (is_canonical_message left) next.entry.is_plain
        (found_view next.entry.field) (Varint value) }
    // numbers have no bytes, whatever the payload
    ensures rows { IfSome result (λ n. (payload : List ℕ) → WritesTo payload (record_rows left number
        (found_view next.entry.field) (Varint value)) at out.old out.new n) }
    ensures few { IfSome result (λ n. n ≡ at + 1) }
{
    if !is_written_number(next.field.kind, value) {
        return None;
    }
    // numbers of a list are in a packed run
    if next.field.is_repeated || next.is_plain && value == 0 {
        return None;
    }
    put(
        out,
        at,
        number_entry(kind_number(next.field.kind), value, number, LEVELS - left),
    );
    Some(at + 1)
}

/// Checks the content of a record for its field, which is at the offset in the whole payload, and writes its entry and
/// those within it, or one for each number of a packed run.
#[cycle(check)]
#[inline(always)]
fn check_content<'a>(
    out: &mut [FieldEntry],
    at: usize,
    number: u32,
    next: NextField<'_>,
    content: &[u8],
    place: Inside<'a>,
) -> Option<usize>
    requires short { length content.now < 4294967296 }
    requires place { IsAt place.whole.now place.offset content.now }
    requires levels { place.left ≤ 100 }
    requires few { at + 1 + length content.now < 2 ^ 63 }
    ensures canonical { is_some result ≡ is_written_field (is_canonical_message place.entry.left) next.entry.is_plain
        (found_view next.entry.field) (Length content.now) }
    ensures rows { IfSome result (λ n. WritesTo place.entry.whole.now (record_rows place.entry.left number
        (found_view next.entry.field) (Length content.now)) at out.old out.new n) }
    ensures few { IfSome result (λ n. n ≤ at + 1 + length content.now) }
{
    if next.is_plain && !next.field.is_repeated && content.is_empty() {
        return None;
    }
    let offset = place.offset;
    let level = LEVELS - place.left;
    match next.field.kind {
        Kind::Text => {
            if !is_text(content) {
                return None;
            }
            put(
                out,
                at,
                bytes_entry(FieldEntry::TEXT, 0, content.len(), number, offset, level),
            );
            Some(at + 1)
        }
        Kind::ByteString => {
            put(
                out,
                at,
                bytes_entry(
                    FieldEntry::BYTE_STRING,
                    0,
                    content.len(),
                    number,
                    offset,
                    level,
                ),
            );
            Some(at + 1)
        }
        Kind::Message(schema) => {
            if place.left == 0 {
                return None;
            }
            put(
                out,
                at,
                bytes_entry(
                    FieldEntry::MESSAGE,
                    u64::from(schema),
                    content.len(),
                    number,
                    offset,
                    level,
                ),
            );
            if let Some(inner) = single_bytes(&ProtocolSchemas, schema, content) {
                put(
                    out,
                    at + 1,
                    bytes_entry(
                        FieldEntry::BYTE_STRING,
                        0,
                        content.len() - 2,
                        inner,
                        offset + 2,
                        level + 1,
                    ),
                );
                return Some(at + 2);
            }
            let inner = Inside {
                left: place.left - 1,
                ..place
            };
            check_message(out, at + 1, schema, content, inner)
        }
        kind => {
            if !next.field.is_packed() || !is_written_run(kind, content) {
                return None;
            }
            let run = Run {
                kind,
                bytes: content,
            };
            Some(write_run(out, at, run, level, number))
        }
    }
}

/// The number of the only field of a schema, if that is a plain field of bytes, and these are one record of it whose
/// key and length are one byte each. Most messages within others are such.
#[inline(always)]
pub(crate) fn single_bytes<T: Schemas>(schemas: &T, schema: u32, bytes: &[u8]) -> Option<u32>
    ensures { IfSome result (λ n. IsSingleOf n (T.table schemas.now schema) bytes.now) }
{
    // the bytes first, so that each test is compiled on its own
    if bytes.len() < 3 || bytes.len() >= 130 || usize::from(bytes[1]) != bytes.len() - 2 {
        return None;
    }
    let key = bytes[0];
    if key < 8 || key >= 128 {
        return None;
    }
    let (row, others) = schemas.rows_of(schema).split_first()?;
    if !others.is_empty() {
        return None;
    }
    let RowShape::Plain(field) = row.shape() else {
        return None;
    };
    let Kind::ByteString = field.kind else {
        return None;
    };
    if u64::from(key) == 8 * u64::from(field.number) + 2 {
        Some(field.number)
    } else {
        None
    }
}
