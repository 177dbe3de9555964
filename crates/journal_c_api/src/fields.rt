//! The fields of canonical payloads, as a table of numbers.

ghost use Rattle.journal_c_api.specs.Fields.{WritesFields};

use crate::outcome::CallError;
use shared_core_codec::check;
pub use shared_core_fields::table::FieldEntry;
use shared_core_fields::table::check::write_checked;

/// Writes the entries of the fields of all levels of a canonical payload at the front of a slice, as many as there is
/// room for. Returns how many the payload has, at most as many as it has bytes. Nothing is allocated.
///
/// `UnknownSchema` if the number denotes no schema, otherwise `Malformed` if the payload is not well-formed for it, or
/// `NotCanonical` if it is and is not canonical; then nothing is written.
pub fn write_fields(
    schema: u32,
    payload: &[u8],
    fields: &mut [FieldEntry],
) -> Result<usize, CallError>
    ensures { WritesFields schema payload.now fields.old fields.new result }
{
    if !check::is_schema(schema) {
        return Err(CallError::UnknownSchema);
    }
    if let Some(count) = write_checked(fields, schema, payload) {
        return Ok(count);
    }
    if check::is_well_formed(schema, payload) {
        Err(CallError::NotCanonical)
    } else {
        Err(CallError::Malformed)
    }
}
