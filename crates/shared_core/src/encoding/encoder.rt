//! Messages into frames.

ghost use Rattle.std.specs.Prelude.{◌≡◌, ◌+◌, ◌≤◌, ◌^◌, IfOk, OnOk, OnErr, Err};
ghost use Rattle.std.specs.Result.{IsErrOf};
ghost use Rattle.shared_core_base.specs.Version.{version_number};
ghost use Rattle.shared_core_codec.specs.declared.error.EncodingError.TheVariants.{PayloadTooLong, OutOfMemory};
ghost use Rattle.shared_core_message.specs.Frames.{wire_size, wire_frame};

use bytes::Bytes;
use shared_core_base::version::Version;
use shared_core_codec::error::EncodingError;
use shared_core_frames::buffer::FrameBuffer;
use shared_core_frames::encodable_message::RestateEncodableMessage;
use std::alloc::Global;

/// Writes messages as frames of a version. A contract sees it as the record of its version.
#[derive(Drop)]
pub struct Encoder {
    version: Version,
}

impl Encoder {
    ghost use Rattle.std.specs.Prelude.{◌++◌};
    ghost use Rattle.shared_core.specs.Decoded.{IsFrameOf};

    /// An encoder of this version, which is at least V5.
    pub fn new(version: Version) -> Encoder
        requires { 5 ≤ version_number version }
        ensures { result ≡ record { version = version } }
    {
        Encoder { version }
    }

    /// Returns the frame of a message: the header's eight bytes and the canonical encoding of what the message is
    /// written as at this version. It encodes one item, with the message's type.
    ///
    /// `PayloadTooLong` if and only if that payload has more than 4,294,967,295 bytes, before anything is allocated.
    /// `OutOfMemory` if an allocation fails.
    #[tactic(auto, using(crate::proofs::DecodedFrames::is_frame_of))]
    pub fn encode<M: RestateEncodableMessage>(
        &self,
        alloc: Global,
        message: &M,
    ) -> Result<Bytes, EncodingError>
        // a decoder that the bytes were pushed to returns the message next
        ensures frame { IfOk result
            (IsFrameOf self.now.version M.message_type (M.wire_form message.now self.now.version)) }
        ensures too_long { IsErrOf result PayloadTooLong
            → 2 ^ 32 ≤ wire_size (M.wire_form message.now self.now.version) }
        ensures rejected { 2 ^ 32 ≤ wire_size (M.wire_form message.now self.now.version)
            → result ≡ Err PayloadTooLong }
    {
        // two allocations: the buffer of the frame's size, and the small block by which `Bytes` counts its owners
        message.encode(alloc, self.version)
    }

    /// Returns the frame of a message, as `encode` does, in a buffer of its own: one allocation, of the frame's size.
    ///
    /// The errors are those of `encode`.
    #[tactic(auto, using(crate::proofs::DecodedFrames::appended_is_frame_of))]
    pub fn encode_to_vec<M: RestateEncodableMessage>(
        &self,
        alloc: Global,
        message: &M,
    ) -> Result<Vec<u8>, EncodingError>
        ensures frame { IfOk result (λ frame.
            IsFrameOf self.now.version M.message_type (M.wire_form message.now self.now.version) frame.items) }
        ensures too_long { IsErrOf result PayloadTooLong
            → 2 ^ 32 ≤ wire_size (M.wire_form message.now self.now.version) }
        ensures rejected { 2 ^ 32 ≤ wire_size (M.wire_form message.now self.now.version)
            → result ≡ Err PayloadTooLong }
    {
        let mut frame = Vec::new(alloc);
        self.encode_into(message, &mut frame)?;
        Ok(frame)
    }

    /// Appends the frame of a message, as `encode` returns it, to a buffer: a `Vec<u8>`, a `BytesMut`, or
    /// `FrameChunks`.
    ///
    /// The errors are those of `encode`, and after one the buffer has the same bytes. A `Vec<u8>` or a `BytesMut`
    /// allocates only if it has too little room. So a `Vec<u8>` that is cleared and reused does not allocate once it
    /// has had room for the longest frame; its capacity never shrinks. `freeze_to` takes frames off a `BytesMut` as
    /// `Bytes` that share its block, so that many frames need few allocations.
    #[tactic(auto, using(crate::proofs::DecodedFrames::appended_is_frame_of))]
    pub fn encode_into<M: RestateEncodableMessage, B: FrameBuffer>(
        &self,
        message: &M,
        out: &mut B,
    ) -> Result<(), EncodingError>
        ensures appended { OnOk result (B.contents out.new
            ≡ B.contents out.old ++ wire_frame M.message_type (M.wire_form message.now self.now.version)) }
        ensures frame { OnOk result
            (IsFrameOf self.now.version M.message_type (M.wire_form message.now self.now.version)
            (wire_frame M.message_type (M.wire_form message.now self.now.version))) }
        ensures unchanged { OnErr result (B.contents out.new ≡ B.contents out.old) }
        ensures kept { OnOk result
            (B.keeps out.old out.new (8 + wire_size (M.wire_form message.now self.now.version))) }
        ensures kept_after_error { OnErr result (B.keeps out.old out.new 0) }
        ensures full { IsErrOf result OutOfMemory
            → B.lacks out.old (8 + wire_size (M.wire_form message.now self.now.version)) }
        ensures too_long { IsErrOf result PayloadTooLong
            → 2 ^ 32 ≤ wire_size (M.wire_form message.now self.now.version) }
        ensures rejected { 2 ^ 32 ≤ wire_size (M.wire_form message.now self.now.version)
            → result ≡ Err PayloadTooLong }
    {
        message.encode_into(self.version, out)
    }
}
