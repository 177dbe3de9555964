//! The results of the calls: their errors, and what they write.
//!
//! What is given the result of a call, or of a notification, names it `outcome`: in a contract `result` is what the
//! function itself returns.

ghost use Rattle.std.specs.Prelude.{◌≡◌};
ghost use Rattle.journal_c_api.specs.Outcomes.{outcome_number, bytes_of};
ghost use Rattle.journal_c_api.specs.Outcomes.{written_over, IsSpoken, Writes};

use shared_core::header::UnknownMessageType;
use shared_core::messages::EncodingError;
use shared_core::version::Version;
use shared_core::wire::WireError;
use shared_core_json::JsonError;
use std::alloc::AllocError;

/// The errors of the calls.
#[derive(Clone, Copy, Debug, PartialEq, Eq)]
pub enum CallError {
    /// The payload, or the first of two, is not well-formed for its schema.
    Malformed,
    /// The second payload is not well-formed for its schema, and the first one is.
    MalformedSecond,
    /// The payload is well-formed for its schema, and not canonical.
    NotCanonical,
    /// An allocation failed.
    OutOfMemory,
    /// The slice for numbers is too short.
    NoRoom,
    /// A payload would have more than 4,294,967,295 bytes.
    TooLong,
    /// The number denotes no supported version.
    UnknownVersion,
    /// The number denotes no schema.
    UnknownSchema,
    /// The code or the name is that of no type, or of none of the kind that the call is for.
    UnknownType,
    /// The options have an unknown bit.
    UnknownOption,
    /// A notification has no id.
    NoId,
    /// A notification has an id, and no result.
    NoResult,
}

impl From<AllocError> for CallError {
    ghost use Rattle.std.specs.Prelude.{◌≡◌};
    ghost use Rattle.journal_c_api.specs.declared.outcome.CallError.TheVariants.{OutOfMemory};

    ghost from_gives = { λ _ failure. failure ≡ OutOfMemory };

    fn from(_error: AllocError) -> CallError {
        CallError::OutOfMemory
    }
}

impl From<UnknownMessageType> for CallError {
    ghost use Rattle.std.specs.Prelude.{◌≡◌};
    ghost use Rattle.journal_c_api.specs.declared.outcome.CallError.TheVariants.{UnknownType};

    ghost from_gives = { λ _ failure. failure ≡ UnknownType };

    fn from(_error: UnknownMessageType) -> CallError {
        CallError::UnknownType
    }
}

impl From<WireError> for CallError {
    ghost use Rattle.std.specs.Prelude.{◌≡◌};
    ghost use Rattle.journal_c_api.specs.Outcomes.{wire_error};

    ghost from_gives = { λ error failure. failure ≡ wire_error error };

    fn from(error: WireError) -> CallError {
        match error {
            WireError::Malformed => CallError::Malformed,
            WireError::OutOfMemory => CallError::OutOfMemory,
        }
    }
}

impl From<EncodingError> for CallError {
    ghost use Rattle.std.specs.Prelude.{◌≡◌};
    ghost use Rattle.journal_c_api.specs.Outcomes.{encoding_error};

    ghost from_gives = { λ error failure. failure ≡ encoding_error error };

    fn from(error: EncodingError) -> CallError {
        match error {
            EncodingError::PayloadTooLong => CallError::TooLong,
            EncodingError::OutOfMemory => CallError::OutOfMemory,
        }
    }
}

impl From<JsonError> for CallError {
    ghost use Rattle.std.specs.Prelude.{◌≡◌};
    ghost use Rattle.journal_c_api.specs.Outcomes.{json_error};

    ghost from_gives = { λ error failure. failure ≡ json_error error };

    fn from(error: JsonError) -> CallError {
        match error {
            JsonError::Malformed => CallError::Malformed,
            JsonError::TooLong => CallError::TooLong,
            JsonError::OutOfMemory => CallError::OutOfMemory,
        }
    }
}

/// Returns a count unchanged, and an error as its number, whose remainder by 16 is that of its kind. A count of 2^63 or
/// more, which no slice holds, is `TooLong`.
pub fn outcome_of(outcome: Result<usize, CallError>) -> i64
    ensures { result ≡ outcome_number outcome }
{
    let failure = match outcome {
        Ok(count) => match i64::try_from(count) {
            Ok(count) => return count,
            Err(_) => CallError::TooLong,
        },
        Err(failure) => failure,
    };
    match failure {
        CallError::Malformed => -1,
        CallError::OutOfMemory => -2,
        CallError::NoRoom => -3,
        CallError::TooLong => -4,
        CallError::NoId => -6,
        CallError::NoResult => -7,
        CallError::NotCanonical => -8,
        CallError::MalformedSecond => -17,
        CallError::UnknownVersion => -21,
        CallError::UnknownSchema => -37,
        CallError::UnknownType => -53,
        CallError::UnknownOption => -69,
    }
}

/// The version that a number denotes, if it is supported.
pub fn version_of(number: u32) -> Result<Version, CallError>
    ensures { IsSpoken number result }
{
    Version::from_number(number).ok_or(CallError::UnknownVersion)
}

/// Writes elements at the front of a slice if it has room for all of them, otherwise nothing.
pub fn write_over<T: Copy>(elements: &[T], out: &mut [T])
    ensures { out.new ≡ written_over elements.now out.old }
{
    if elements.len() <= out.len() {
        out[..elements.len()].copy_from_slice(elements);
    }
}

/// Writes the bytes of a result at the front of a slice if it has room for all of them, otherwise nothing. Returns the
/// number of the bytes in both cases.
// a `Vec` that is copied and dropped: as `Bytes` the result would cost one more allocation
pub fn write_outcome(
    outcome: Result<Vec<u8>, CallError>,
    out: &mut [u8],
) -> Result<usize, CallError>
    ensures { Writes (λ written. written ≡ bytes_of outcome) out.old out.new result }
{
    let bytes = outcome?;
    write_over(bytes.as_slice(), out);
    Ok(bytes.len())
}
