//! A message as it is in the stream.

ghost use Rattle.std.specs.Prelude.{◌≡◌};

use bytes::Bytes;
use shared_core_base::header::{MessageHeader, MessageType};

/// A message as it is in the stream: its header and its undecoded payload.
#[derive(Debug, PartialEq, Drop)]
pub struct RawMessage {
    header: MessageHeader,
    payload: Bytes,
}

impl RawMessage {
    /// The message of a header and the bytes after it.
    pub(crate) fn new(header: MessageHeader, payload: Bytes) -> RawMessage
        ensures { result ≡ record { header = header; payload = payload } }
    {
        RawMessage { header, payload }
    }

    /// The type in the header.
    pub fn ty(&self) -> MessageType
        ensures { result ≡ self.now.header.ty }
    {
        self.header.message_type()
    }

    /// The header.
    pub fn header(&self) -> MessageHeader
        ensures { result ≡ self.now.header }
    {
        self.header
    }

    /// The payload: the bytes after the header.
    pub fn payload(&self) -> &Bytes
        ensures { result.now ≡ self.now.payload }
    {
        &self.payload
    }
}
