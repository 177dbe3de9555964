//! What an entry gives to a field.

ghost use Rattle.std.specs.Prelude.{◌≡◌, ℕ, true, List, map, Option, Ok, IfOk, IfSome};
ghost use Rattle.shared_core_wire.specs.Schema as schema;
ghost use Rattle.shared_core_codec.specs.Table.{table};
ghost use Rattle.shared_core_codec.specs.ProgramRows.{kind_view, row_view, rows_view};
ghost use Rattle.shared_core_codec.specs.Canonicity.{next_view};
ghost use Rattle.shared_core_fields_writer.specs.Given.{Content, given_view, content, given, number_given, text_given};
ghost use Rattle.shared_core_fields_writer.specs.Given.{absence};
ghost use Rattle.shared_core_fields_writer.specs.Given.{share_oneof, has_both, field_next, ok_view};

use crate::error::Reason;
use shared_core_codec::canonical::{NextField, is_written_number, next_field};
use shared_core_codec::rows::{Found, Kind, Row, find_field, find_in_row, rows_of};
use shared_core_codec::utf8::is_text;
use shared_core_fields::table::{FieldEntry, kind_number};

/// What an entry gives to a field of its kind.
#[derive(Clone, Copy)]
pub(crate) enum Given<'a> {
    /// A number, as a varint has it.
    Number(u64),
    /// A text or bytes.
    Content(&'a [u8]),
    /// A message of the schema at this index of the table, whose fields come next.
    Message(u32),
}

/// The bytes of an entry.
#[inline(always)]
fn content_of<'a>(entry: &FieldEntry, bytes: &'a [u8]) -> Result<&'a [u8], Reason>
    ensures { ok_view (λ b. b.now) result ≡ content bytes.now entry.now }
{
    let len = bytes.len() as u64;
    if entry.offset > len || entry.length > len - entry.offset {
        return Err(Reason::OutOfBounds);
    }
    let start = entry.offset as usize;
    Ok(&bytes[start..start + entry.length as usize])
}

/// The same, if the entry is of a kind and all of them are there.
#[inline(always)]
pub(crate) fn content_of_kind<'a>(
    entry: &FieldEntry,
    kind: u64,
    bytes: &'a [u8],
) -> Option<&'a [u8]>
    ensures kind { IfSome result (λ b. entry.now.kind ≡ kind) }
    ensures content { IfSome result (λ b. content bytes.now entry.now ≡ Ok b.now) }
{
    if entry.kind != kind {
        return None;
    }
    match content_of(entry, bytes) {
        Ok(content) => Some(content),
        Err(_) => None,
    }
}

/// The text of an entry.
#[inline(always)]
fn text_of<'a>(entry: &FieldEntry, bytes: &'a [u8]) -> Result<&'a [u8], Reason>
    ensures { ok_view (λ b. Content b.now) result ≡ text_given (content bytes.now entry.now) }
{
    let content = content_of(entry, bytes)?;
    if is_text(content) {
        Ok(content)
    } else {
        Err(Reason::NotUtf8)
    }
}

/// What an entry gives to a field of a kind.
#[inline(always)]
pub(crate) fn given_value<'a>(
    kind: Kind,
    entry: &FieldEntry,
    bytes: &'a [u8],
) -> Result<Given<'a>, Reason>
    ensures { ok_view given_view result ≡ given bytes.now (kind_view kind) entry.now }
{
    if entry.kind != kind_number(kind) {
        return Err(Reason::WrongKind);
    }
    match kind {
        Kind::Text => Ok(Given::Content(text_of(entry, bytes)?)),
        Kind::ByteString => Ok(Given::Content(content_of(entry, bytes)?)),
        Kind::Message(schema) => {
            if entry.value == u64::from(schema) {
                Ok(Given::Message(schema))
            } else {
                Err(Reason::WrongKind)
            }
        }
        // each kind by itself, so that there is one jump by the kind
        Kind::U32 => number_of(Kind::U32, entry),
        Kind::U64 => number_of(Kind::U64, entry),
        Kind::Boolean => number_of(Kind::Boolean, entry),
        Kind::Enumeration => number_of(Kind::Enumeration, entry),
    }
}

/// The number of an entry.
#[inline(always)]
fn number_of<'a>(kind: Kind, entry: &FieldEntry) -> Result<Given<'a>, Reason>
    ensures { ok_view given_view result ≡ number_given (kind_view kind) entry.now }
{
    if is_written_number(kind, entry.value) {
        Ok(Given::Number(entry.value))
    } else {
        Err(Reason::OutOfRange)
    }
}

/// The number of an entry's field, and that field, which may come next in a message of the schema where these rows are
/// left, after the last field. Most often it is that of the first row, which is plain.
#[inline(always)]
pub(crate) fn next_of(
    schema: u32,
    rows: &'static [Row],
    last: Option<u32>,
    number: u64,
) -> Result<(u32, NextField<'static>), Reason>
    ensures next { ok_view (λ x. next_view x.1) result ≡ field_next (table schema) (rows_view rows.entry) last number }
    ensures same { IfOk result (λ x. x.0 ≡ number) }
{
    if let Some(found) = first_plain(rows, number) {
        return Ok(found);
    }
    next_among(schema, rows, last, number)
}

/// The same of the first row, if that is plain.
#[inline(always)]
pub(crate) fn first_plain(rows: &'static [Row], number: u64) -> Option<(u32, NextField<'static>)>
    ensures next { IfSome result (λ x. (all : List schema.Row) (last : Option ℕ)
        → field_next all (rows_view rows.entry) last number ≡ Ok (next_view x.1)) }
    ensures same { IfSome result (λ x. x.0 ≡ number) }
    ensures plain { IfSome result (λ x. x.1.is_plain ≡ true) }
{
    let Some((Row::Plain(field), after)) = rows.split_first() else {
        return None;
    };
    if u64::from(field.number) != number {
        return None;
    }
    let next = NextField {
        field: Found {
            kind: field.kind,
            is_repeated: false,
        },
        is_plain: true,
        rows: after,
    };
    Some((field.number, next))
}

/// The same of any row.
#[inline(always)]
fn next_among(
    schema: u32,
    rows: &'static [Row],
    last: Option<u32>,
    number: u64,
) -> Result<(u32, NextField<'static>), Reason>
    ensures next { ok_view (λ x. next_view x.1) result ≡ field_next (table schema) (rows_view rows.entry) last number }
    ensures same { IfOk result (λ x. x.0 ≡ number) }
{
    if number > u64::from(u32::MAX) {
        return Err(Reason::UnknownField);
    }
    let number = number as u32;
    match next_field(rows, number) {
        Some(next) => Ok((number, next)),
        None => Err(absence(rows_of(schema), last, number)),
    }
}

/// Why no field of a number may come after the last one.
#[cold]
#[inline(never)]
fn absence(rows: &[Row], last: Option<u32>, number: u32) -> Reason
    ensures { result ≡ absence (map row_view rows.now) last number }
{
    if find_field(rows, number).is_none() {
        return Reason::UnknownField;
    }
    let Some(last) = last else {
        return Reason::OutOfOrder;
    };
    if share_oneof(rows, last, number) {
        Reason::SeveralMembers
    } else {
        Reason::OutOfOrder
    }
}

/// Whether two fields are members of one oneof.
fn share_oneof(rows: &[Row], last: u32, number: u32) -> bool
    ensures { result ≡ share_oneof (map row_view rows.now) last number }
{
    for row in rows {
        if has_both(row, last, number) {
            return true;
        }
    }
    false
}

/// Whether a row is a oneof that has both of these members.
fn has_both(row: &Row, last: u32, number: u32) -> bool
    ensures { result ≡ has_both (row_view row.now) last number }
{
    match row {
        Row::OneOf(_) => find_in_row(row, last).is_some() && find_in_row(row, number).is_some(),
        _ => false,
    }
}
