//! The value of a record, typed.

ghost use Rattle.std.specs.Prelude.{◌≡◌, ◌-◌, ◌==◌, if◌then◌else◌, true, length, option_map, Some};
ghost use Rattle.shared_core_wire.specs.Acceptance.{accepts_number};
ghost use Rattle.shared_core_codec.specs.ProgramRows.{found_view, kind_view};
ghost use Rattle.shared_core_fields.specs.KnownValues.{is_known_in, typed_parts_in, value_after};
ghost use Rattle.shared_core_fields.specs.Views.{message_schemas, value_bytes, value_kind, value_part, value_schemas};

use crate::fields::{CanonicalPayload, FieldValue};
use crate::payload_table::Tabled;
use crate::runs::Run;
use shared_core_codec::rows::{Found, Kind};
use shared_core_wire::varint::low_32;

/// The value of a record of a canonical payload of a table, for the field that it is of, by its wire type, the varint
/// after its key and the bytes after that. Returns it and the bytes after it.
#[inline(always)]
pub(crate) fn known_value<'a, T: Tabled + Copy>(
    schemas: T,
    found: Found,
    wire: u8,
    number: u64,
    bytes: &'a [u8],
) -> (FieldValue<'a, CanonicalPayload<'a, T>>, &'a [u8])
    requires { is_known_in (T.table_of schemas) (found_view found) (value_after wire (number, bytes.now)) ≡ true }
    ensures parts { option_map (typed_parts_in (T.table_of schemas) (found_view found))
        (value_after wire (number, bytes.now))
        ≡ Some (value_kind result.0, value_part result.0, value_bytes result.0, result.1.now) }
    ensures schemas { value_schemas result.0 ≡ message_schemas schemas (value_kind result.0) }
{
    // a kind has one wire type, except for numbers: the second one is that of a packed run
    match found.kind {
        Kind::Text => {
            let (content, rest) = bytes.split_at(number as usize);
            // the check has seen that it is UTF-8
            let text = unsafe { std::str::from_utf8_unchecked(content) };
            (FieldValue::Text(text), rest)
        }
        Kind::ByteString => {
            let (content, rest) = bytes.split_at(number as usize);
            (FieldValue::ByteString(content), rest)
        }
        Kind::Message(schema) => {
            let (bytes, rest) = bytes.split_at(number as usize);
            (
                FieldValue::Message(CanonicalPayload {
                    schemas,
                    schema,
                    bytes,
                }),
                rest,
            )
        }
        Kind::U32 => {
            if wire == 2 {
                known_run(schemas, found, number, bytes)
            } else {
                (FieldValue::U32(low_32(number)), bytes)
            }
        }
        Kind::U64 => {
            if wire == 2 {
                known_run(schemas, found, number, bytes)
            } else {
                (FieldValue::U64(number), bytes)
            }
        }
        Kind::Boolean => {
            if wire == 2 {
                known_run(schemas, found, number, bytes)
            } else {
                (FieldValue::Boolean(number != 0), bytes)
            }
        }
        Kind::Enumeration => {
            if wire == 2 {
                known_run(schemas, found, number, bytes)
            } else {
                (FieldValue::Enumeration(low_32(number).cast_signed()), bytes)
            }
        }
    }
}

/// The packed run of a record of a canonical payload of a table, for the list of numbers that it is of, by its length
/// and the bytes after that. Returns it and the bytes after it.
#[inline(always)]
fn known_run<'a, T: Tabled + Copy>(
    schemas: T,
    found: Found,
    number: u64,
    bytes: &'a [u8],
) -> (FieldValue<'a, CanonicalPayload<'a, T>>, &'a [u8])
    requires known { is_known_in (T.table_of schemas) (found_view found) (value_after 2 (number, bytes.now)) ≡ true }
    requires of_numbers { accepts_number (kind_view found.kind) ≡ true }
    ensures parts { option_map (typed_parts_in (T.table_of schemas) (found_view found)) (value_after 2 (
      number,
      bytes.now,
    ))
        ≡ Some (value_kind result.0, value_part result.0, value_bytes result.0, result.1.now) }
    ensures schemas { value_schemas result.0 ≡ message_schemas schemas (value_kind result.0) }
{
    let _ = schemas;
    let (bytes, rest) = bytes.split_at(number as usize);
    let run = Run {
        kind: found.kind,
        bytes,
    };
    (FieldValue::Numbers(run), rest)
}

/// Where the content of a record begins in a payload of a length, whose bytes from there on these are; 0 of a record
/// that is not length-delimited.
#[inline(always)]
pub(crate) fn content_offset(wire: u8, bytes: &[u8], end: usize) -> usize
    ensures { result ≡ if wire == 2 then end - length bytes.now else 0 }
{
    if wire == 2 {
        end.saturating_sub(bytes.len())
    } else {
        0
    }
}
