//! Benchmark work: checking payloads.

use journal_c_api::outcome::CallError;
use journal_c_api::payloads;

/// Checks this many times (0 counts as 1) whether a payload is well-formed for a schema, and returns 1, otherwise 0.
pub fn is_well_formed(schema: u32, payload: &[u8], rounds: usize) -> Result<usize, CallError> {
    for _round in 1..rounds {
        payloads::is_well_formed(schema, payload)?;
    }
    payloads::is_well_formed(schema, payload)
}
