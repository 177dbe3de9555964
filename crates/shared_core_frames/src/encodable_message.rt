//! The trait of the messages that are written.
//!
//! A message that is written is one that is read, so a message's type is declared once. What is the same at every
//! version is written by one body, for each `PlainMessage`; `versions` has the others. That what is written fits its
//! schema is a clause of each `Ok`, and no law of the trait, since in a law an integer has no range.

ghost use Rattle.std.specs.Prelude.{◌≡◌, ◌≤◌, ◌<◌, ◌+◌, ◌^◌, ◌++◌, IfOk, OnOk, OnErr, Err};
ghost use Rattle.std.specs.Result.{IsErrOf};
ghost use Rattle.shared_core_base.specs.declared.version.Version.{Version as AnyVersion};
ghost use Rattle.shared_core_codec.specs.declared.error.EncodingError.TheVariants.{PayloadTooLong, OutOfMemory};
ghost use Rattle.shared_core_message.specs.Frames.{WireForm, WireFits, plain_form, wire_size, wire_frame};

use crate::buffer::FrameBuffer;
use crate::record::AppendRecord;
use bytes::Bytes;
use shared_core_base::version::Version;
use shared_core_codec::error::EncodingError;
use shared_core_message::restate_message::RestateMessage;
use std::alloc::Global;

/// A message that can be encoded. Its header has its type.
pub trait RestateEncodableMessage: RestateMessage {
    /// What it is written as at a version.
    ghost wire_form: { Self → AnyVersion → WireForm };

    /// Appends the frame to a buffer, as `Encoder::encode_into` says: the header's eight bytes, and the canonical
    /// payload of what it is written as.
    fn encode_into<B: FrameBuffer>(
        &self,
        version: Version,
        out: &mut B,
    ) -> Result<(), EncodingError>
        ensures ok { OnOk result (B.contents out.new ≡ B.contents out.old
            ++ wire_frame Self.message_type (wire_form self.now version)) }
        ensures short { OnOk result (wire_size (wire_form self.now version) < 2 ^ 32) }
        // what is written fits its schema
        ensures fits { OnOk result (WireFits (wire_form self.now version)) }
        ensures unchanged { OnErr result (B.contents out.new ≡ B.contents out.old) }
        ensures kept { OnOk result (B.keeps out.old out.new (8 + wire_size (wire_form self.now version))) }
        ensures kept_after_error { OnErr result (B.keeps out.old out.new 0) }
        ensures full { IsErrOf result OutOfMemory → B.lacks out.old (8 + wire_size (wire_form self.now version)) }
        ensures too_long { IsErrOf result PayloadTooLong → 2 ^ 32 ≤ wire_size (wire_form self.now version) }
        ensures rejected { 2 ^ 32 ≤ wire_size (wire_form self.now version) → result ≡ Err PayloadTooLong };

    /// Returns the frame: the header's eight bytes and the canonical payload of what it is written as.
    ///
    /// `PayloadTooLong` if and only if that payload has more than 4,294,967,295 bytes, before anything is allocated.
    /// `OutOfMemory` if an allocation fails.
    final fn encode(&self, alloc: Global, version: Version) -> Result<Bytes, EncodingError>
        ensures ok { IfOk result (λ bytes. bytes ≡ wire_frame Self.message_type (wire_form self.now version)) }
        ensures short { IfOk result (λ bytes. wire_size (wire_form self.now version) < 2 ^ 32) }
        // what is written fits its schema
        ensures fits { IfOk result (λ bytes. WireFits (wire_form self.now version)) }
        ensures too_long { IsErrOf result PayloadTooLong → 2 ^ 32 ≤ wire_size (wire_form self.now version) }
        ensures rejected { 2 ^ 32 ≤ wire_size (wire_form self.now version) → result ≡ Err PayloadTooLong }
    {
        let mut frame = Vec::new(alloc);
        self.encode_into(version, &mut frame)?;
        Ok(Bytes::from_vec(frame)?)
    }
}

/// A message that is written as it is at every version, without a flag in its header.
pub trait PlainMessage: RestateMessage + AppendRecord {}

impl<M: PlainMessage> RestateEncodableMessage for M {
    ghost wire_form = { λ message _. plain_form M.schema (M.parts message) };

    #[inline]
    fn encode_into<B: FrameBuffer>(
        &self,
        _version: Version,
        out: &mut B,
    ) -> Result<(), EncodingError> {
        out.append_record(self, None)
    }
}
