//! Tables of fields, written as payloads of any schema.

ghost use Rattle.journal_c_api.specs.FieldPayloads.{SaysKind, WritesPayload};

use crate::outcome::{CallError, write_over};
use shared_core_codec::check::is_schema;
use shared_core_fields::table::FieldEntry;
use shared_core_fields_writer::{Reason, write_payload};

/// The number of numbers that are written for a table.
const WRITING_NUMBERS: usize = 2;

/// Writes a table of fields for a schema: two numbers, the kind of the result and an index. As bytes it writes the
/// canonical payload whose fields of all levels the entries are, or nothing if one of them may not come. Texts and
/// bytes are at their offsets in `bytes`. Returns the number of these bytes; if there is no room for them, the numbers
/// are written nevertheless.
///
/// `UnknownSchema` if no schema has the number, otherwise `NoRoom` if there is room for fewer than two numbers, before
/// the table is read; `TooLong` if the payload would have more than 4,294,967,295 bytes. Nothing is allocated.
pub fn write_payload_of_fields(
    schema: u32,
    fields: &[FieldEntry],
    bytes: &[u8],
    numbers: &mut [u64],
    out: &mut [u8],
) -> Result<usize, CallError>
    ensures { WritesPayload schema fields.now bytes.now numbers.old numbers.new out.old out.new result }
{
    if !is_schema(schema) {
        return Err(CallError::UnknownSchema);
    }
    if numbers.len() < WRITING_NUMBERS {
        return Err(CallError::NoRoom);
    }
    match write_payload(schema, fields, bytes, out) {
        Ok(length) => {
            write_over(&[0, 0], numbers);
            Ok(length)
        }
        Err(error) => {
            let kind = rejected_kind(error.reason)?;
            write_over(&[kind, error.index as u64], numbers);
            Ok(0)
        }
    }
}

/// The number of the kind of a reason for which an entry may not come; the error, if it is one of the whole table.
fn rejected_kind(reason: Reason) -> Result<u64, CallError>
    ensures { SaysKind reason result }
{
    Ok(match reason {
        Reason::UnknownField => 1,
        Reason::OutOfOrder => 2,
        Reason::SeveralMembers => 3,
        Reason::WrongKind => 4,
        Reason::OutOfRange => 5,
        Reason::NotUtf8 => 6,
        Reason::OutOfBounds => 7,
        Reason::WrongLevel => 8,
        Reason::TooDeep => 9,
        Reason::TooLong => return Err(CallError::TooLong),
    })
}
