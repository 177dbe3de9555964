//! The parts of a record's frame: a header, and the canonical payload after it.

ghost use Rattle.std.specs.Prelude.{◌≡◌, ◌≤◌, ◌<◌, ◌+◌, ◌^◌, ◌++◌, IfOk, IsErr, Err, MatchOption, ℕ, length};
ghost use Rattle.std.specs.Int.{w64, to_be_bytes};
ghost use Rattle.shared_core_base.specs.MessageHeader.{word_of};
ghost use Rattle.shared_core_base.specs.declared.header.MessageType.{MessageType as AnyType};
ghost use Rattle.shared_core_wire.specs.Value.{Parts};
ghost use Rattle.shared_core_wire.specs.Canonical.{canonical_payload, size};
ghost use Rattle.shared_core_wire.specs.Fitting.{Fits};
ghost use Rattle.shared_core_codec.specs.Table.{table};
ghost use Rattle.shared_core_codec.specs.declared.error.EncodingError.TheVariants.{PayloadTooLong};

use crate::restate_message::RestateMessage;
use shared_core_base::header::{MessageHeader, MessageType};
use shared_core_codec::error::EncodingError;

/// What a frame is written from: the record of a message, or a view of one that is written as another record without
/// being made into it.
pub trait FramePayload {
    /// The type in the header.
    ghost frame_type: { AnyType };

    /// The index of the payload's schema in the table.
    ghost payload_schema: { ℕ };

    /// The value that the payload encodes.
    ghost payload_parts: { Self → Parts };

    /// The type in the header.
    fn frame_ty() -> MessageType
        ensures { result ≡ frame_type };

    /// The number of bytes of the canonical payload, or None if it is more than 4,294,967,295. Does not allocate.
    fn payload_len(&self) -> Option<u32>
        ensures len { MatchOption result (2 ^ 32 ≤ size table payload_schema (payload_parts self.now))
            (λ n. n ≡ size table payload_schema (payload_parts self.now)) }
        ensures fit { Fits table (payload_parts self.now) (table payload_schema) };

    /// Writes the canonical payload into a slice of exactly its length.
    fn fill(&self, out: &mut [u8])
        requires len { length out.old ≡ size table payload_schema (payload_parts self.now) }
        ensures { out.new ≡ canonical_payload table payload_schema (payload_parts self.now) };
}

/// A record is written unchanged.
impl<M: RestateMessage> FramePayload for M {
    ghost frame_type = { M.message_type };

    ghost payload_schema = { M.schema };

    ghost payload_parts = { λ message. M.parts message };

    #[inline]
    fn frame_ty() -> MessageType {
        M::ty()
    }

    #[inline]
    fn payload_len(&self) -> Option<u32> {
        self.encoded_len()
    }

    #[inline]
    fn fill(&self, out: &mut [u8]) {
        self.fill_payload(out);
    }
}

/// The header of a record's frame. `PayloadTooLong` if the canonical payload has more than 4,294,967,295 bytes.
// a call for each frame would have the header go through memory
#[inline(always)]
pub fn header_of<P: FramePayload>(
    payload: &P,
    requested_ack: Option<bool>,
) -> Result<MessageHeader, EncodingError>
    ensures header { IfOk result (λ header. header ≡ record {
      ty = P.frame_type;
      length = size table P.payload_schema (P.payload_parts payload.now);
      requested_ack = requested_ack;
    }) }
    ensures short { IfOk result (λ _. size table P.payload_schema (P.payload_parts payload.now) < 2 ^ 32) }
    ensures fits { Fits table (P.payload_parts payload.now) (table P.payload_schema) }
    ensures too_long { IsErr result → (result ≡ Err PayloadTooLong)
        × (2 ^ 32 ≤ size table P.payload_schema (P.payload_parts payload.now)) }
{
    let Some(length) = payload.payload_len() else {
        return Err(EncodingError::PayloadTooLong);
    };
    match requested_ack {
        Some(flag) => Ok(MessageHeader::new_with_requested_ack(P::frame_ty(), flag, length)),
        None => Ok(MessageHeader::new(P::frame_ty(), length)),
    }
}

/// Writes a header and the canonical payload of a record into a slice of exactly their length.
#[inline(always)]
pub fn fill_frame<P: FramePayload>(payload: &P, header: MessageHeader, out: &mut [u8])
    requires len { length out.old ≡ 8 + size table P.payload_schema (P.payload_parts payload.now) }
    ensures { out.new ≡ to_be_bytes w64 (word_of header)
        ++ canonical_payload table P.payload_schema (P.payload_parts payload.now) }
{
    let (head, rest) = out.split_at_mut(MessageHeader::SIZE);
    head.copy_from_slice(&header.to_bytes());
    payload.fill(rest);
}
