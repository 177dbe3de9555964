//! Records of a caller's, written as payloads.

ghost use Rattle.journal_c_api.specs.Outcomes.{Writes};
ghost use Rattle.journal_c_api.specs.Records.{IsRecordPayload};

use crate::outcome::CallError;
use shared_core_borrowed::record::{Record, RecordError, fill_payload, payload_len};

impl From<RecordError> for CallError {
    ghost use Rattle.std.specs.Prelude.{◌≡◌};
    ghost use Rattle.journal_c_api.specs.Records.{record_error};

    ghost from_gives = { λ error failure. failure ≡ record_error error };

    fn from(error: RecordError) -> CallError {
        match error {
            RecordError::Malformed => CallError::Malformed,
            RecordError::TooLong => CallError::TooLong,
        }
    }
}

/// Writes the canonical payload of a record at the front of a slice if it has room for all of it, otherwise nothing.
/// Returns the number of its bytes in both cases. Allocates nothing.
///
/// `Malformed` if a text is not UTF-8 or a oneof's number is that of no member, otherwise `TooLong` if the payload
/// would have more than 4,294,967,295 bytes.
#[inline(always)]
#[tactic(auto, using(crate::proofs::RecordPayloads::written, crate::proofs::RecordPayloads::left))]
pub fn write_record<R: Record>(given: &R, out: &mut [u8]) -> Result<usize, CallError>
    ensures { Writes (IsRecordPayload R.schema (R.parts given.now)) out.old out.new result }
{
    let length = payload_len(given)?;
    if length <= out.len() {
        fill_payload(given, &mut out[..length]);
    }
    Ok(length)
}
