//! The type of the items that a decoder returns.

use crate::encoding::RawMessage;
use bytes::Bytes;

/// An item of a stream: a message, or what an unassigned code stands for.
#[derive(Debug, PartialEq, Drop)]
pub enum Item {
    /// A header and its payload.
    Message(RawMessage),
    /// The unassigned code of a header, before V9. No payload belongs to it.
    Unknown(u16),
    /// The unassigned code of a header, from V9 on, and the payload after it.
    Skipped(u16, Bytes),
}

impl Item {
    ghost use Rattle.std.specs.Prelude.{◌≡◌, ◌+◌};
    ghost use Rattle.shared_core_stream.specs.Limits.{payload_length};

    /// The number of bytes that it takes in the stream: those of its header and of its payload.
    #[inline(always)]
    pub fn size(&self) -> u64
        ensures { result ≡ 8 + payload_length self.now }
    {
        match self {
            Item::Message(message) => 8 + message.payload().len() as u64,
            Item::Unknown(_) => 8,
            Item::Skipped(_, payload) => 8 + payload.len() as u64,
        }
    }
}
