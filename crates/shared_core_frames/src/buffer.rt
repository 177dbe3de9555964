//! What frames are appended to.

ghost use Rattle.std.specs.Prelude.{◌≡◌, ◌≤◌, ◌<◌, ◌+◌, ◌^◌, ◌++◌, ℕ, List, OnOk, OnErr, Err, vec_len, vec_capacity};
ghost use Rattle.std.specs.Int.{w64, to_be_bytes};
ghost use Rattle.std.specs.Result.{IsErrOf};
ghost use Rattle.shared_core_base.specs.MessageHeader.{word_of};
ghost use Rattle.shared_core_wire.specs.Canonical.{canonical_payload, size};
ghost use Rattle.shared_core_wire.specs.Fitting.{Fits};
ghost use Rattle.shared_core_codec.specs.Table.{table};
ghost use Rattle.shared_core_codec.specs.declared.error.EncodingError.TheVariants.{PayloadTooLong, OutOfMemory};
ghost use Rattle.shared_core_message.specs.Frames.{frame};

use crate::chunks::FrameChunks;
use crate::frame::{append_from_front, share_frame};
use crate::record::AppendRecord;
use bytes::BytesMut;
use shared_core_base::header::MessageHeader;
use shared_core_codec::error::EncodingError;
use shared_core_message::frame::{FramePayload, fill_frame, header_of};
use shared_core_message::restate_message::RestateMessage;
use std::alloc::AllocError;

/// The number of bytes from which on a payload is appended to a vector from its front. It takes longer then to fill the
/// room with zeros.
const LONG: u32 = 65536;

/// A buffer that frames are appended to: a `Vec<u8>`, a `BytesMut`, whose room is initialized already, or the chunks of
/// `FrameChunks`. After an error nothing is appended.
///
/// An impl appends what was measured; what is the same for each of them is provided here.
pub trait FrameBuffer {
    /// Its bytes.
    ghost contents: { Self → List ℕ };

    /// It has no room for this many bytes more. A buffer that does not say what room it has says nothing here.
    ghost lacks: { Self → ℕ → Type 0 };

    /// What is left of its room, once this many bytes are appended.
    ghost keeps: { Self → Self → ℕ → Type 0 };

    /// Appends a header and a payload, which is written from its end.
    fn append_parts<P: FramePayload>(
        &mut self,
        payload: &P,
        header: MessageHeader,
    ) -> Result<(), AllocError>
        requires { header.length ≡ size table P.payload_schema (P.payload_parts payload.now) }
        ensures ok { OnOk result (contents self.new ≡ contents self.old
            ++ (to_be_bytes w64 (word_of header)
            ++ canonical_payload table P.payload_schema (P.payload_parts payload.now))) }
        ensures unchanged { OnErr result (contents self.new ≡ contents self.old) }
        ensures kept { OnOk result (keeps self.old self.new
            (8 + size table P.payload_schema (P.payload_parts payload.now))) }
        ensures kept_after_error { OnErr result (keeps self.old self.new 0) }
        ensures full { OnErr result
            (lacks self.old (8 + size table P.payload_schema (P.payload_parts payload.now))) };

    /// Appends a header and the payload of a record with `bytes` fields. One that is long may be written from its
    /// front.
    fn append_record_parts<M: AppendRecord + RestateMessage>(
        &mut self,
        message: &M,
        header: MessageHeader,
    ) -> Result<(), AllocError>
        requires { header.length ≡ size table M.schema (M.parts message.now) }
        ensures ok { OnOk result (contents self.new ≡ contents self.old
            ++ (to_be_bytes w64 (word_of header) ++ canonical_payload table M.schema (M.parts message.now))) }
        ensures unchanged { OnErr result (contents self.new ≡ contents self.old) }
        ensures kept { OnOk result (keeps self.old self.new (8 + size table M.schema (M.parts message.now))) }
        ensures kept_after_error { OnErr result (keeps self.old self.new 0) }
        ensures full { OnErr result (lacks self.old (8 + size table M.schema (M.parts message.now))) }
    {
        self.append_parts(message, header)
    }

    /// Nothing of its room is gone while nothing is appended.
    ghost keeps_itself: { (buffer : Self) → keeps buffer buffer 0 };

    /// Appends a frame, with or without the flag in its header. It is written from its end.
    #[inline]
    final fn append_frame<P: FramePayload>(
        &mut self,
        payload: &P,
        requested_ack: Option<bool>,
    ) -> Result<(), EncodingError>
        ensures ok { OnOk result (contents self.new ≡ contents self.old
            ++ frame P.frame_type requested_ack
            (canonical_payload table P.payload_schema (P.payload_parts payload.now))) }
        ensures short { OnOk result (size table P.payload_schema (P.payload_parts payload.now) < 2 ^ 32) }
        ensures fits { OnOk result (Fits table (P.payload_parts payload.now) (table P.payload_schema)) }
        ensures unchanged { OnErr result (contents self.new ≡ contents self.old) }
        ensures kept { OnOk result (keeps self.old self.new
            (8 + size table P.payload_schema (P.payload_parts payload.now))) }
        ensures kept_after_error { OnErr result (keeps self.old self.new 0) }
        ensures full { IsErrOf result OutOfMemory
            → lacks self.old (8 + size table P.payload_schema (P.payload_parts payload.now)) }
        ensures too_long { IsErrOf result PayloadTooLong
            → 2 ^ 32 ≤ size table P.payload_schema (P.payload_parts payload.now) }
        ensures rejected { 2 ^ 32 ≤ size table P.payload_schema (P.payload_parts payload.now)
            → result ≡ Err PayloadTooLong }
    {
        let header = header_of(payload, requested_ack)?;
        self.append_parts(payload, header)?;
        Ok(())
    }

    /// Appends the frame of a record with `bytes` fields. One that is long may be written from its front.
    #[inline]
    final fn append_record<M: AppendRecord + RestateMessage>(
        &mut self,
        message: &M,
        requested_ack: Option<bool>,
    ) -> Result<(), EncodingError>
        ensures ok { OnOk result (contents self.new ≡ contents self.old
            ++ frame M.message_type requested_ack (canonical_payload table M.schema (M.parts message.now))) }
        ensures short { OnOk result (size table M.schema (M.parts message.now) < 2 ^ 32) }
        ensures fits { OnOk result (Fits table (M.parts message.now) (table M.schema)) }
        ensures unchanged { OnErr result (contents self.new ≡ contents self.old) }
        ensures kept { OnOk result (keeps self.old self.new (8 + size table M.schema (M.parts message.now))) }
        ensures kept_after_error { OnErr result (keeps self.old self.new 0) }
        ensures full { IsErrOf result OutOfMemory → lacks self.old (8 + size table M.schema (M.parts message.now)) }
        ensures too_long { IsErrOf result PayloadTooLong → 2 ^ 32 ≤ size table M.schema (M.parts message.now) }
        ensures rejected { 2 ^ 32 ≤ size table M.schema (M.parts message.now) → result ≡ Err PayloadTooLong }
    {
        let header = header_of(message, requested_ack)?;
        self.append_record_parts(message, header)?;
        Ok(())
    }
}

/// Its capacity never shrinks.
impl FrameBuffer for Vec<u8> {
    ghost use Rattle.std.proofs.Math.Nat.{le_refl};

    ghost contents = { λ buffer. buffer.items };

    ghost lacks = { λ buffer count. vec_capacity buffer < vec_len buffer + count };

    ghost keeps = { λ old new _. vec_capacity old ≤ vec_capacity new };

    /// Its room is filled with zeros first.
    #[inline]
    fn append_parts<P: FramePayload>(
        &mut self,
        payload: &P,
        header: MessageHeader,
    ) -> Result<(), AllocError> {
        let start = self.len();
        let count = MessageHeader::SIZE + header.message_length() as usize;
        self.resize(start + count, 0)?;
        fill_frame(payload, header, &mut self[start..]);
        Ok(())
    }

    /// A long one is written once, from its front.
    #[inline]
    fn append_record_parts<M: AppendRecord + RestateMessage>(
        &mut self,
        message: &M,
        header: MessageHeader,
    ) -> Result<(), AllocError> {
        // the room is reserved first, and it allocates nothing after that; its contract does not say so
        if header.message_length() >= LONG {
            if let Ok(()) = append_from_front(message, header, self) {
                return Ok(());
            }
        }
        self.append_parts(message, header)
    }

    ghost keeps_itself = { λ buffer. le_refl (vec_capacity buffer) };
}

/// No more spare room is used than the frame takes, and no byte is written twice.
impl FrameBuffer for BytesMut {
    ghost use Rattle.std.proofs.Math.Nat.{le-add_right};

    ghost contents = { λ buffer. buffer.items };

    ghost lacks = { λ buffer count. buffer.spare < count };

    ghost keeps = { λ old new count. old.spare ≤ new.spare + count };

    #[inline]
    fn append_parts<P: FramePayload>(
        &mut self,
        payload: &P,
        header: MessageHeader,
    ) -> Result<(), AllocError> {
        let start = self.len();
        let count = MessageHeader::SIZE + header.message_length() as usize;
        self.reserve(count)?;
        self.advance_mut(count);
        fill_frame(payload, header, &mut self.as_mut_slice()[start..]);
        Ok(())
    }

    ghost keeps_itself = { λ buffer. le-add_right buffer.spare 0 };
}

/// Joined, the chunks are what `Encoder::encode` returns.
///
/// A `bytes` field of `SHARED_LEN` bytes or more is a chunk of its own, which shares its memory. All else is copied
/// into a buffer, whose room is used for the frames that come after it.
impl FrameBuffer for FrameChunks {
    ghost contents = { λ chunks. chunks };

    ghost lacks = { λ _ _. Unit {0} };

    ghost keeps = { λ _ _ _. Unit {0} };

    #[tactic(auto, using(crate::proofs::Joining::after_tail))]
    fn append_parts<P: FramePayload>(
        &mut self,
        payload: &P,
        header: MessageHeader,
    ) -> Result<(), AllocError> {
        self.tail.append_parts(payload, header)
    }

    fn append_record_parts<M: AppendRecord + RestateMessage>(
        &mut self,
        message: &M,
        header: MessageHeader,
    ) -> Result<(), AllocError> {
        // a shorter payload has nothing to share
        if (header.message_length() as usize) < FrameChunks::SHARED_LEN {
            return self.append_parts(message, header);
        }
        share_frame(message, header, self)
    }

    ghost keeps_itself = { λ _. tt };
}
