//! The start message of a part, which announces how many entries follow it.

ghost use Rattle.std.specs.Prelude.{◌≤◌};
ghost use Rattle.shared_core_base.specs.Version.{version_number};

use bytes::Bytes;
use shared_core::encoding::{Encoder, RawMessage};
use shared_core::messages::StartMessage;
use shared_core_base::version::Version;
use shared_core_codec::error::EncodingError;
use shared_core_codec::record::decode_payload;
use shared_core_wire::error::WireError;
use std::alloc::{AllocError, Global};

/// The frame of a start message with this number of entries, or the greatest that there is room for; `None` if it
/// announces them already, or its payload is not well-formed: then it stays as it is.
pub fn announcing(
    alloc: Global,
    version: Version,
    start: &RawMessage,
    entries: u128,
) -> Result<Option<Bytes>, AllocError>
    requires { 5 ≤ version_number version }
{
    let mut message: StartMessage = match decode_payload(alloc, start.payload()) {
        Ok(message) => message,
        Err(WireError::Malformed) => return Ok(None),
        Err(WireError::OutOfMemory) => return Err(AllocError),
    };
    let announced = u32::try_from(entries).unwrap_or(u32::MAX);
    if message.known_entries == announced {
        return Ok(None);
    }
    message.known_entries = announced;
    match Encoder::new(version).encode(alloc, &message) {
        Ok(frame) => Ok(Some(frame)),
        Err(EncodingError::PayloadTooLong) => Ok(None),
        Err(EncodingError::OutOfMemory) => Err(AllocError),
    }
}
