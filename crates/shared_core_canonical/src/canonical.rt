//! The canonical payloads of messages, row by row: the records are read once and put in the order of the rows, and what
//! is written of the records of each row is appended. Those of nested messages are made by the same functions.

ghost use Rattle.std.specs.Prelude.{◌≡◌, ◌++◌, ℕ, true, None, IfOk, OnOk, flat_map, map};
ghost use Rattle.std.specs.List.{list_all};
ghost use Rattle.shared_core_wire.specs.Acceptance.{accepts_payload, accepts_message, accepts_record, row_allows};
ghost use Rattle.shared_core_wire.specs.Canonical.{canonical_payload};
ghost use Rattle.shared_core_wire.specs.Overlay.{meaning};
ghost use Rattle.shared_core_wire.specs.Schema.{Repeated};
ghost use Rattle.shared_core_codec.specs.Canonicity.{is_plain};
ghost use Rattle.shared_core_codec.specs.ProgramRows.{field_view, kind_view};
ghost use Rattle.shared_core_canonical.specs.Found.{found_records, found_views, places_record};
ghost use Rattle.shared_core_canonical.specs.Places.{values_at};
ghost use Rattle.shared_core_canonical.specs.Places.{rise_from};
ghost use Rattle.shared_core_canonical.specs.Rows.{nested_bytes, row_record, repeated_record};
ghost use Rattle.shared_core_canonical.specs.Rows.{message_element, message_allows};
ghost use Rattle.shared_core_canonical.specs.Rows.{single_record, last_over};
ghost use Rattle.shared_core_canonical.specs.Singles.{whole};
ghost use Rattle.shared_core_wire.specs.Grammar.{content};
ghost use Rattle.shared_core_wire.specs.View.{value_of};

use crate::append::append_content;
use crate::elements::{append_elements, append_run};
use crate::found::sorted_records;
use crate::single::{Single, append_scalar, content_of, read_last};
use crate::source::{FoundRecords, Source};
use shared_core_codec::any_table::{RowShape, SchemaRow, Schemas};
use shared_core_codec::rows::{Field, Kind};
use std::alloc::AllocError;

/// The canonical payload of what a message means.
#[cycle(message)]
pub fn message<T: Schemas>(
    schemas: &T,
    schema: u32,
    source: &Source<'_>,
) -> Result<Vec<u8>, AllocError>
    requires { accepts_payload (T.table schemas.now) source.now.left schema source.now.bytes.now ≡ true }
    ensures { IfOk result (λ out. out.items ≡ canonical_payload (T.table schemas.now) schema
        (meaning (T.table schemas.now) source.now.left schema source.now.bytes.now)) }
{
    let rows = schemas.rows_of(schema);
    let found = sorted_records(schemas, schema, rows, source)?;
    let mut out = Vec::new(source.alloc);
    let all = FoundRecords {
        alloc: source.alloc,
        records: found.as_slice(),
        left: source.left,
    };
    append_rows(schemas, rows, &all, &mut out)?;
    Ok(out)
}

/// Appends what is written of records, which are in the order of their rows.
#[cycle(message)]
fn append_rows<T: Schemas>(
    schemas: &T,
    rows: &[T::Row],
    source: &FoundRecords<'_>,
    out: &mut Vec<u8>,
) -> Result<(), AllocError>
    requires rising { rise_from 0 source.now.records.now ≡ true }
    requires allowed { (place : ℕ) → list_all (accepts_record (accepts_message (T.table schemas.now) source.now.left)
        (map T.Row.view rows.now)) (values_at place (found_views source.now.records.now)) ≡ true }
    ensures { OnOk result (out.new.items ≡ out.old.items
        ++ places_record (nested_bytes (T.table schemas.now) source.now.left) (map T.Row.view rows.now) 0
        (found_views source.now.records.now)) }
{
    let mut rest = rows;
    let mut start = 0;
    while let Some((row, after)) = rest.split_first() {
        let own = source.of_row(start, rows.len() - rest.len());
        append_row(schemas, row, &own, out)?;
        start += own.records.len();
        rest = after;
    }
    Ok(())
}

/// Appends what is written of the records of a row.
#[cycle(message)]
fn append_row<T: Schemas>(
    schemas: &T,
    row: &T::Row,
    source: &FoundRecords<'_>,
    out: &mut Vec<u8>,
) -> Result<(), AllocError>
    requires { list_all (λ r. row_allows (accepts_message (T.table schemas.now) source.now.left) r
        (T.Row.view row.now)) (found_records source.now.records.now) ≡ true }
    ensures { OnOk result (out.new.items ≡ out.old.items
        ++ row_record (nested_bytes (T.table schemas.now) source.now.left) (T.Row.view row.now)
        (found_records source.now.records.now)) }
{
    if source.records.is_empty() {
        return Ok(());
    }
    if let RowShape::Repeated(field) = row.shape() {
        return append_repeated(schemas, *field, source, out);
    }
    append_single(schemas, row, source, out)
}

/// Appends what is written of the records of a row that is not repeated.
#[cycle(message)]
fn append_single<T: Schemas>(
    schemas: &T,
    row: &T::Row,
    source: &FoundRecords<'_>,
    out: &mut Vec<u8>,
) -> Result<(), AllocError>
    requires { list_all (λ r. row_allows (accepts_message (T.table schemas.now) source.now.left) r
        (T.Row.view row.now)) (found_records source.now.records.now) ≡ true }
    ensures { OnOk result (out.new.items ≡ out.old.items
        ++ single_record (nested_bytes (T.table schemas.now) source.now.left) (is_plain (T.Row.view row.now))
        (last_over (T.Row.view row.now) None (found_records source.now.records.now))) }
{
    let mut joined = Vec::new(source.alloc);
    let Some(last) = read_last(row, source, &mut joined)? else {
        return Ok(());
    };
    let Kind::Message(schema) = last.field.kind else {
        return append_scalar(out, is_plain(row), last.field, last.value);
    };
    let content = whole(&last, joined.as_slice());
    let inner = nested(schemas, schema, source, content)?;
    append_content(out, false, last.field.number, inner.as_slice())
}

/// Appends what is written of the records of a repeated field.
#[cycle(message)]
fn append_repeated<T: Schemas>(
    schemas: &T,
    field: Field,
    source: &FoundRecords<'_>,
    out: &mut Vec<u8>,
) -> Result<(), AllocError>
    requires { list_all (λ r. row_allows (accepts_message (T.table schemas.now) source.now.left) r
        (Repeated field.number (kind_view field.kind))) (found_records source.now.records.now) ≡ true }
    ensures { OnOk result (out.new.items ≡ out.old.items
        ++ repeated_record (nested_bytes (T.table schemas.now) source.now.left) field.number (kind_view field.kind)
        (found_records source.now.records.now)) }
{
    if field.kind.is_number() {
        return append_run(field, source, out);
    }
    match field.kind {
        Kind::Message(schema) => {
            let messages = Messages {
                number: field.number,
                schema,
            };
            append_messages(schemas, messages, source, out)
        }
        _ => append_elements(field, source, out),
    }
}

/// A repeated field whose elements are messages.
#[derive(Clone, Copy)]
struct Messages {
    number: u32,
    schema: u32,
}

/// Appends the records of a field whose elements are messages.
#[cycle(message)]
fn append_messages<T: Schemas>(
    schemas: &T,
    field: Messages,
    source: &FoundRecords<'_>,
    out: &mut Vec<u8>,
) -> Result<(), AllocError>
    requires { list_all (message_allows (accepts_message (T.table schemas.now) source.now.left) field.number
        field.schema) (found_records source.now.records.now) ≡ true }
    ensures { OnOk result (out.new.items ≡ out.old.items
        ++ flat_map (message_element (nested_bytes (T.table schemas.now) source.now.left) field.number field.schema)
        (found_records source.now.records.now)) }
{
    for found in source.records {
        let record = found.value;
        if record.number != field.number {
            continue;
        }
        let inner = nested(schemas, field.schema, source, content_of(record.value))?;
        append_content(out, false, field.number, inner.as_slice())?;
    }
    Ok(())
}

/// The canonical payload of what the bytes of a nested message mean.
#[cycle(message)]
fn nested<T: Schemas>(
    schemas: &T,
    schema: u32,
    source: &FoundRecords<'_>,
    bytes: &[u8],
) -> Result<Vec<u8>, AllocError>
    requires { accepts_message (T.table schemas.now) source.now.left schema bytes.now ≡ true }
    ensures { IfOk result (λ out. out.items
        ≡ nested_bytes (T.table schemas.now) source.now.left schema bytes.now) }
{
    if source.left == 0 {
        // no message may be nested here, so none is accepted
        return Ok(Vec::new(source.alloc));
    }
    let inner = Source {
        alloc: source.alloc,
        bytes,
        left: source.left - 1,
    };
    message(schemas, schema, &inner)
}

/// The contents that were joined, or else the last one.
fn whole<'a>(last: &Single<'a>, joined: &'a [u8]) -> &'a [u8]
    ensures { result.now ≡ whole (content (value_of last.now.value)) joined.now }
{
    if joined.is_empty() {
        return content_of(last.value);
    }
    joined
}

/// Whether a row is a plain field, whose default is not written.
fn is_plain<R: SchemaRow>(row: &R) -> bool
    ensures { result ≡ is_plain (R.view row.now) }
{
    match row.shape() {
        RowShape::Plain(_) => true,
        _ => false,
    }
}
