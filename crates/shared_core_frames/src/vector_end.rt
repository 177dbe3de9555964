//! The end of a vector, which a long frame is appended to.

ghost use Rattle.std.specs.Prelude.{◌≡◌, ◌≤◌, length, vec_capacity};

use crate::copied::{extend_by_member, extend_by_value};
use crate::sink::PayloadSink;
use bytes::Bytes;
use shared_core_codec::error::EncodingError;
use shared_core_codec::kind::FieldKind;
use shared_core_codec::oneof::OneOf;
use shared_core_codec::record::WireRecord;
use std::alloc::AllocError;

/// A vector, and the place in it from which on it is written. It is moved in and out, and not copied.
#[derive(Drop)]
pub(crate) struct VectorEnd {
    /// All bytes.
    pub(crate) bytes: Vec<u8>,
    /// Where the end begins.
    pub(crate) start: usize,
    /// The room that there was before.
    pub(crate) room: usize,
    ghost within: { start ≤ length bytes.items },
    ghost roomy: { room ≤ vec_capacity bytes },
}

impl VectorEnd {
    /// What comes after the bytes of a vector: nothing yet.
    pub(crate) fn after(bytes: Vec<u8>) -> VectorEnd
        ensures bytes { result.bytes ≡ bytes }
        ensures start { result.start ≡ length bytes.items }
        ensures room { result.room ≡ vec_capacity bytes }
    {
        let (start, room) = (bytes.len(), bytes.capacity());
        VectorEnd { bytes, start, room }
    }
}

impl PayloadSink for VectorEnd {
    ghost use Rattle.std.specs.Prelude.{drop, take};

    ghost contents = { λ end. drop end.start end.bytes.items };

    ghost rest = { λ end. (take end.start end.bytes.items, end.room) };

    #[tactic(auto, using(crate::proofs::Joining::end_appended, crate::proofs::Joining::front_kept, crate::proofs::Joining::still_within))]
    fn put(&mut self, bytes: &[u8]) -> Result<(), AllocError> {
        self.bytes.extend_from_slice(bytes)
    }

    #[tactic(auto, using(crate::proofs::Joining::end_appended, crate::proofs::Joining::front_kept, crate::proofs::Joining::still_within))]
    fn put_content(&mut self, content: &Bytes) -> Result<(), AllocError> {
        self.bytes.extend_from_slice(content.as_slice())
    }

    #[tactic(auto, using(crate::proofs::Joining::end_appended, crate::proofs::Joining::front_kept, crate::proofs::Joining::still_within))]
    fn put_value<V: FieldKind>(&mut self, value: &V, number: u32) -> Result<(), EncodingError> {
        extend_by_value(value, number, &mut self.bytes)
    }

    #[tactic(auto, using(crate::proofs::Joining::end_appended, crate::proofs::Joining::front_kept, crate::proofs::Joining::still_within))]
    fn put_member<O: OneOf>(&mut self, member: &O) -> Result<(), EncodingError> {
        extend_by_member(member, &mut self.bytes)
    }

    #[tactic(auto, using(crate::proofs::Joining::end_appended, crate::proofs::Joining::front_kept, crate::proofs::Joining::still_within))]
    fn put_record<M: WireRecord>(&mut self, message: &M) -> Result<(), EncodingError> {
        message.encode_payload_into(&mut self.bytes)
    }
}
