//! The chunks of frames.

ghost use Rattle.std.specs.Prelude.{◌≡◌, ◌<◌, ◌++◌, [], length, All, OnOk, OnErr, IfOk, MatchOption};
ghost use Rattle.std.specs.List.{concat};

use crate::copied::{copy_member, copy_value};
use crate::sink::PayloadSink;
use bytes::{Bytes, BytesMut};
use shared_core_codec::error::EncodingError;
use shared_core_codec::kind::FieldKind;
use shared_core_codec::oneof::OneOf;
use shared_core_codec::record::WireRecord;
use std::alloc::{AllocError, Global};
use std::collections::VecDeque;
use std::marker::Model;

/// The bytes of frames, in chunks: long `bytes` fields, which are shared, and between them what is small. A clause sees
/// the bytes of all of them.
#[derive(Drop)]
pub struct FrameChunks {
    alloc: Global,
    /// The first chunks.
    chunks: VecDeque<Bytes>,
    /// What is small and comes after them.
    pub(crate) tail: BytesMut,
}

impl Model for FrameChunks {
    ghost use Rattle.std.specs.Prelude.{ℕ, List, ◌++◌, ◌<◌, All, length};
    ghost use Rattle.std.specs.List.{concat};

    ghost Value = { List ℕ };

    ghost view = { λ frames. concat frames.chunks.items ++ frames.tail.items };

    ghost invariant = { λ frames. All (λ chunk. 0 < length chunk) frames.chunks.items };
}

impl FrameChunks {
    /// The number of bytes from which on a `bytes` field is shared, and not copied.
    pub const SHARED_LEN: usize = 4096;

    /// Returns no chunks. Does not allocate.
    pub fn new(alloc: Global) -> FrameChunks
        ensures { result ≡ [] }
    {
        FrameChunks {
            alloc,
            chunks: VecDeque::new(alloc),
            tail: BytesMut::new(alloc),
        }
    }

    /// The allocator of the chunks.
    pub(crate) fn alloc(&self) -> Global {
        self.alloc
    }

    /// Takes the first chunk, which has a byte at least, or `None` if there is no byte left. After an error nothing is
    /// taken.
    #[tactic(auto, using(crate::proofs::Joining::first_chunk, crate::proofs::Joining::small_chunk, crate::proofs::Joining::first_filled, crate::proofs::Joining::small_filled))]
    pub fn pop(&mut self) -> Result<Option<Bytes>, AllocError>
        ensures ok { IfOk result (λ found. MatchOption found ((self.old ≡ []) × (self.new ≡ []))
            (λ chunk. (0 < length chunk) × (self.old ≡ chunk ++ self.new))) }
        ensures err { OnErr result (self.new ≡ self.old) }
    {
        if let Some(chunk) = self.chunks.pop_front() {
            return Ok(Some(chunk));
        }
        if self.tail.is_empty() {
            return Ok(None);
        }
        let count = self.tail.len();
        Ok(Some(self.tail.freeze_to(count)?))
    }

    /// Drops all chunks. The room of what was small and is in no chunk yet stays.
    pub fn clear(&mut self)
        ensures { self.new ≡ [] }
    {
        self.chunks.clear();
        self.tail.clear();
    }

    /// Appends bytes, which are shared.
    #[tactic(auto, using(crate::proofs::Joining::after_shared, crate::proofs::Joining::shared_filled))]
    fn share(&mut self, content: &Bytes) -> Result<(), AllocError>
        requires { 0 < length content.now }
        ensures ok { OnOk result (self.new ≡ self.old ++ content.now) }
        ensures err { OnErr result (self.new ≡ self.old) }
    {
        let shared = content.clone()?;
        freeze_tail(&mut self.chunks, &mut self.tail)?;
        self.chunks.reserve(1)?;
        self.chunks.push_back_reserved(shared);
        Ok(())
    }

    /// Appends all of others, or nothing after an error.
    #[tactic(auto, using(crate::proofs::Joining::after_all, crate::proofs::Joining::all_filled))]
    pub(crate) fn append(&mut self, frame: FrameChunks) -> Result<(), AllocError>
        ensures ok { OnOk result (self.new ≡ self.old ++ frame) }
        ensures err { OnErr result (self.new ≡ self.old) }
    {
        let FrameChunks {
            alloc: _,
            mut chunks,
            mut tail,
        } = frame;
        freeze_tail(&mut chunks, &mut tail)?;
        freeze_tail(&mut self.chunks, &mut self.tail)?;
        self.chunks.append(&mut chunks)
    }
}

/// What is small is copied after the last chunk. After an error of one call nothing is appended by it.
impl PayloadSink for FrameChunks {
    ghost use Rattle.std.specs.Prelude.{[]};

    ghost contents = { λ chunks. chunks };

    ghost rest = { λ _. ([], 0) };

    #[tactic(auto, using(crate::proofs::Joining::after_tail))]
    fn put(&mut self, bytes: &[u8]) -> Result<(), AllocError> {
        self.tail.extend_from_slice(bytes)
    }

    /// Shared, if it is long.
    #[tactic(auto, using(crate::proofs::Joining::after_tail))]
    fn put_content(&mut self, content: &Bytes) -> Result<(), AllocError> {
        if content.len() < FrameChunks::SHARED_LEN {
            return self.put(content.as_slice());
        }
        self.share(content)
    }

    #[tactic(auto, using(crate::proofs::Joining::after_tail))]
    fn put_value<V: FieldKind>(&mut self, value: &V, number: u32) -> Result<(), EncodingError> {
        copy_value(value, number, &mut self.tail)
    }

    #[tactic(auto, using(crate::proofs::Joining::after_tail))]
    fn put_member<O: OneOf>(&mut self, member: &O) -> Result<(), EncodingError> {
        copy_member(member, &mut self.tail)
    }

    #[tactic(auto, using(crate::proofs::Joining::after_tail))]
    fn put_record<M: WireRecord>(&mut self, message: &M) -> Result<(), EncodingError> {
        message.encode_payload_into_bytes(&mut self.tail)
    }
}

/// Makes a chunk of what is small. After an error all is as it was.
#[tactic(auto, using(crate::proofs::Joining::tail_pushed, crate::proofs::Joining::none_left, crate::proofs::Joining::tail_filled))]
fn freeze_tail(chunks: &mut VecDeque<Bytes>, tail: &mut BytesMut) -> Result<(), AllocError>
    requires { All (λ chunk. 0 < length chunk) chunks.old.items }
    ensures same { concat chunks.new.items ++ tail.new.items ≡ concat chunks.old.items ++ tail.old.items }
    ensures filled { All (λ chunk. 0 < length chunk) chunks.new.items }
    ensures empty { OnOk result (tail.new.items ≡ []) }
{
    if tail.is_empty() {
        return Ok(());
    }
    chunks.reserve(1)?;
    let count = tail.len();
    let chunk = tail.freeze_to(count)?;
    chunks.push_back_reserved(chunk);
    Ok(())
}
