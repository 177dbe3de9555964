//! JSON texts, read as payloads of any schema.

ghost use Rattle.std.specs.Prelude.{◌≡◌};
ghost use Rattle.journal_c_api.specs.JsonPayloads.{IsIfShort, ReadsText, SaysNotTaken, SaysRejected, WritesReading};
ghost use Rattle.journal_c_api.specs.JsonPayloads.{reading_bytes, reading_numbers};

use crate::outcome::{CallError, write_over};
use shared_core_codec::check::is_schema;
use shared_core_json_reader::{JsonReadError, Reason, payload_of};
use std::alloc::Global;

/// The number of numbers that are written for a text.
const READ_NUMBERS: usize = 2;

/// Reads a JSON text for a schema, and writes two numbers, the kind of the result and an offset. As bytes it writes the
/// canonical payload of what the text means, or the path to the rejected value. Returns the number of these bytes; if
/// there is no room for them, the numbers are written nevertheless.
///
/// `UnknownSchema` if no schema has the number, otherwise `NoRoom` if there is room for fewer than two numbers, before
/// the text is read; `TooLong` if the payload would have more than 4,294,967,295 bytes.
pub fn write_payload_of_json(
    alloc: Global,
    schema: u32,
    json: &[u8],
    numbers: &mut [u64],
    out: &mut [u8],
) -> Result<usize, CallError>
    ensures { WritesReading schema json.now numbers.old numbers.new out.old out.new result }
{
    if !is_schema(schema) {
        return Err(CallError::UnknownSchema);
    }
    if numbers.len() < READ_NUMBERS {
        return Err(CallError::NoRoom);
    }
    let reading = read(alloc, schema, json)?;
    write_over(&numbers_of(&reading), numbers);
    let bytes = bytes_of(&reading);
    write_over(bytes, out);
    Ok(bytes.len())
}

/// What a JSON text is read as.
#[derive(Drop)]
enum Reading {
    /// The canonical payload of what it means.
    Payload(Vec<u8>),
    /// It is not JSON, from this byte on.
    NotJson(usize),
    /// It is JSON without a meaning: the number of the kind, and the path to the rejected value.
    NotTaken { kind: u64, path: String },
}

/// The two numbers of a reading.
fn numbers_of(reading: &Reading) -> [u64; READ_NUMBERS]
    ensures { result ≡ reading_numbers reading.now }
{
    match reading {
        Reading::Payload(_) => [0, 0],
        Reading::NotJson(offset) => [1, *offset as u64],
        Reading::NotTaken { kind, .. } => [*kind, 0],
    }
}

/// The bytes of a reading.
fn bytes_of(reading: &Reading) -> &[u8]
    ensures { result.now ≡ reading_bytes reading.now }
{
    match reading {
        Reading::Payload(payload) => payload.as_slice(),
        Reading::NotJson(_) => &[],
        Reading::NotTaken { path, .. } => path.as_bytes(),
    }
}

/// Reads a text for a schema.
#[tactic(auto, using(crate::proofs::JsonReadings::rejected_reads))]
fn read(alloc: Global, schema: u32, json: &[u8]) -> Result<Reading, CallError>
    ensures { ReadsText schema json.now result }
{
    match payload_of(alloc, schema, json) {
        Ok(payload) => if_short(payload),
        Err(error) => rejected(error),
    }
}

/// The reading of a text that means no value, by the error: one that is not JSON has an offset.
fn rejected(error: JsonReadError) -> Result<Reading, CallError>
    ensures { SaysRejected error result }
{
    match (error.reason, error.offset) {
        (Reason::OutOfMemory, _) => Err(CallError::OutOfMemory),
        (_, Some(offset)) => Ok(Reading::NotJson(offset)),
        (_, None) => not_taken(error),
    }
}

/// The reading of a payload, if a header can hold its length.
fn if_short(payload: Vec<u8>) -> Result<Reading, CallError>
    ensures { IsIfShort payload.items result }
{
    if u32::try_from(payload.len()).is_err() {
        return Err(CallError::TooLong);
    }
    Ok(Reading::Payload(payload))
}

/// The reading of a text that is JSON without a meaning, by the error.
fn not_taken(error: JsonReadError) -> Result<Reading, CallError>
    ensures { SaysNotTaken error result }
{
    let JsonReadError { reason, path, .. } = error;
    let kind = match reason {
        Reason::UnknownMember => 2,
        Reason::RepeatedMember => 3,
        Reason::SeveralMembers => 4,
        // the text is JSON, so `NotJson` does not occur
        Reason::WrongKind | Reason::UnknownName | Reason::NotJson => 5,
        Reason::OutOfRange => 6,
        Reason::NotBase64 => 7,
        Reason::TooDeep => 8,
        Reason::OutOfMemory => return Err(CallError::OutOfMemory),
    };
    Ok(Reading::NotTaken { kind, path })
}
