//! Callers of the public calls, proved only from their contracts: the round trip of any message, and a loop over the
//! messages received. The program does not call them.

ghost use Rattle.std.specs.Prelude.{◌≡◌, ◌≤◌, ◌^◌, IfOk};
ghost use Rattle.std.specs.Result.{IsErrOf};
ghost use Rattle.shared_core.specs.Version.{version_number};
ghost use Rattle.shared_core.specs.Canonical.{levels};
ghost use Rattle.shared_core.specs.Frames.{wire_size};

use shared_core::Version;
use shared_core::encoding::{
    ConsumeNext, DecodeMessage, Decoder, DecodingError, Encoder, PushError,
};
use shared_core::messages::{EncodingError, RestateEncodableMessage};
use std::alloc::Global;

/// Why a message was not returned.
#[derive(Debug, Drop)]
pub enum RoundTripError {
    /// Its payload has more than 4,294,967,295 bytes.
    PayloadTooLong,
    /// An allocation failed.
    OutOfMemory,
}

/// Encodes a message, pushes its frame to a new decoder, consumes the message and decodes it. The message has to be
/// written as a record of its own schema, of nesting depth at most one hundred. Then the result is the message that was
/// written, unless it is too long or an allocation fails.
pub fn there_and_back<M: RestateEncodableMessage>(
    alloc: Global,
    version: Version,
    message: &M,
) -> Result<M, RoundTripError>
    requires spoken { 5 ≤ version_number version }
    requires own { (M.wire_form message.now version).schema ≡ M.schema }
    requires low { levels (M.wire_form message.now version).parts ≤ 100 }
    ensures same { IfOk result (λ found. M.parts found ≡ (M.wire_form message.now version).parts) }
    ensures too_long { IsErrOf result RoundTripError.PayloadTooLong
        → 2 ^ 32 ≤ wire_size (M.wire_form message.now version) }
{
    let frame = match Encoder::new(version).encode(alloc, message) {
        Ok(frame) => frame,
        Err(EncodingError::PayloadTooLong) => return Err(RoundTripError::PayloadTooLong),
        Err(EncodingError::OutOfMemory) => return Err(RoundTripError::OutOfMemory),
    };
    let mut decoder = Decoder::new(alloc, version);
    match decoder.push(frame) {
        Ok(()) => (),
        Err(PushError::OutOfMemory(_)) => return Err(RoundTripError::OutOfMemory),
        // a slice has less than 2^64 bytes
        Err(PushError::TooLong(_)) => unreachable!(),
    }
    let received = match decoder.consume_next() {
        Ok(Some(received)) => received,
        // the frame is one whole message
        Ok(None) => unreachable!(),
        Err(DecodingError::OutOfMemory) => return Err(RoundTripError::OutOfMemory),
        Err(_other) => unreachable!(),
    };
    match received.decode_to::<M>(alloc, 0) {
        Ok(found) => Ok(found),
        Err(DecodingError::OutOfMemory) => Err(RoundTripError::OutOfMemory),
        // its type and its payload are those that were written
        Err(_other) => unreachable!(),
    }
}

/// Takes all messages that are whole, and returns the lengths of their payloads. It ends, since each message takes
/// bytes.
pub fn payload_lengths(alloc: Global, decoder: &mut Decoder) -> Result<Vec<usize>, DecodingError> {
    let mut lengths = Vec::new(alloc);
    while let Some(message) = decoder.consume_next()? {
        let Ok(()) = lengths.push(message.payload().len()) else {
            return Err(DecodingError::OutOfMemory);
        };
    }
    Ok(lengths)
}
