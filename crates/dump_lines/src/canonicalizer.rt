//! What a payload that is not canonical needs to be printed: its canonical payload. The caller that dumps a stream
//! makes it by the records, on which this crate does not depend.

ghost use Rattle.shared_core_message.specs.Schemas.{schema_at};
ghost use Rattle.dump_lines.specs.Canonical.{ReturnsEncoding};

use bytes::Bytes;
use shared_core_base::header::MessageType;
use shared_core_base::version::Version;
use shared_core_json::JsonError;
use std::alloc::Global;

/// The payload of a message, and what decides how it is read.
#[derive(Clone, Copy)]
pub struct TypedPayload<'a> {
    /// The version of the protocol.
    pub version: Version,
    /// The type of the message.
    pub ty: MessageType,
    /// The bytes.
    pub bytes: &'a Bytes,
}

/// Makes the canonical payloads of messages.
pub trait Canonicalizer {
    /// Overwrites the buffer with the canonical payload of what a message's payload means, and returns the number of
    /// its schema; `None` for a custom entry, whose payload is opaque. `Malformed` only if the payload is not
    /// well-formed, `TooLong` only if the canonical payload has more than 4,294,967,295 bytes.
    fn canonical_of(
        &self,
        alloc: Global,
        payload: TypedPayload<'_>,
        canonical: &mut Vec<u8>,
    ) -> Result<Option<u32>, JsonError>
        ensures returned { ReturnsEncoding (schema_at payload.entry.version payload.entry.ty) payload.entry.bytes.now
            canonical.new.items result };
}
