//! Benchmark work: reading the fields of payloads.

use journal_c_api::outcome::CallError;
use shared_core_fields::fields::{CanonicalPayload, FieldValue};
use shared_core_fields::runs::Run;

/// How deep messages are nested at most.
const LEVELS: u32 = 100;

/// A sum of fields is a remainder of this, so that it is not an error.
const MODULUS: usize = 4_294_967_296;

/// Checks a payload for a schema, and reads all of its fields, this many times (0 counts as 1). Returns the sum of what
/// they hold, modulo 2^32: numbers, and how many bytes texts and bytes have. `NotCanonical` if the payload
/// is not canonical.
pub fn sum(schema: u32, payload: &[u8], rounds: usize) -> Result<usize, CallError> {
    for _round in 1..rounds {
        sum_once(schema, payload)?;
    }
    Ok(sum_once(schema, payload)? % MODULUS)
}

/// The same, once.
fn sum_once(schema: u32, payload: &[u8]) -> Result<usize, CallError> {
    match CanonicalPayload::check(schema, payload) {
        Some(payload) => Ok(sum_within(payload, LEVELS)),
        None => Err(CallError::NotCanonical),
    }
}

/// The sum of the fields of a payload, in which messages may be nested `left` deep.
fn sum_within(payload: CanonicalPayload<'_>, left: u32) -> usize {
    let mut sum: usize = 0;
    for field in payload.fields() {
        let held = match field.value {
            FieldValue::U32(number) => number as usize,
            FieldValue::U64(number) => number as usize,
            FieldValue::Boolean(flag) => usize::from(flag),
            FieldValue::Enumeration(number) => number.cast_unsigned() as usize,
            FieldValue::Text(text) => text.len(),
            FieldValue::ByteString(bytes) => bytes.len(),
            FieldValue::Numbers(run) => sum_of(run),
            FieldValue::Message(message) => {
                if left > 0 {
                    sum_within(message, left - 1)
                } else {
                    0
                }
            }
        };
        sum = sum.wrapping_add(held);
    }
    sum
}

/// The sum of the numbers of a run.
fn sum_of(run: Run<'_>) -> usize {
    let mut sum: usize = 0;
    for number in run.numbers() {
        sum = sum.wrapping_add(number as usize);
    }
    sum
}
