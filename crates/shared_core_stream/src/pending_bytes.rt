//! The bytes that were received and that no item has taken.

ghost use Rattle.std.specs.Prelude.{◌≡◌, ◌+◌, ◌^◌, ◌<◌, ◌≤◌, ◌↔◌, ◌++◌, [], length, IsTrue};
ghost use Rattle.std.specs.Prelude.{take, drop, IfOk, IfErr, IfSome, IsOk, OnOk, OnErr, MatchOption, Some};
ghost use Rattle.shared_core_stream.specs.Unread.{LosesPayload};

use crate::shared_chunks::SharedChunks;
use bytes::{Buf, Bytes, BytesMut};
use shared_core_base::header::MessageHeader;
use std::alloc::{AllocError, AllocFailed, Global};
use std::marker::Model;

/// A chunk of fewer bytes is gathered if it comes after shared bytes.
///
/// What keeps a chunk, its place and its count of owners, takes at most 160 bytes.
const SHARED_FROM: usize = 256;

/// A chunk of fewer bytes is gathered if it comes after gathered bytes, since these would become a chunk too, of a
/// single byte perhaps.
const SHARED_FROM_AFTER_BLOCK: usize = 1024;

/// The room in which small chunks are gathered, in bytes.
const BLOCK_SIZE: usize = 4096;

/// A queue of shared chunks, and after them a block of its own in which small ones are gathered. A contract sees their
/// bytes as one list.
#[derive(Drop)]
pub struct PendingBytes {
    chunks: SharedChunks,
    block: BytesMut,
}

impl Model for PendingBytes {
    ghost use Rattle.std.specs.Prelude.{List, ℕ, ◌++◌, ◌<◌, ◌^◌, length};

    ghost Value = { List ℕ };

    ghost view = { λ pending. pending.chunks ++ pending.block.items };

    ghost invariant = { λ pending. length (pending.chunks ++ pending.block.items) < 2 ^ 64 };
}

impl PendingBytes {
    /// No bytes. Does not allocate.
    pub fn new(alloc: Global) -> PendingBytes
        ensures { result ≡ [] }
    {
        PendingBytes {
            chunks: SharedChunks::new(alloc),
            block: BytesMut::new(alloc),
        }
    }

    /// The number of bytes.
    pub fn len(&self) -> usize
        ensures { result ≡ length self.now }
    {
        self.chunks.len() + self.block.len()
    }

    /// Whether there are `count` bytes.
    #[inline(always)]
    pub fn has(&self, count: usize) -> bool
        ensures { IsTrue result ↔ (count ≤ length self.now) }
    {
        // nearly always the shared chunks have them all
        count <= self.chunks.len() || count <= self.len()
    }

    /// The allocator.
    pub fn alloc(&self) -> Global {
        self.chunks.alloc()
    }

    /// Appends a copy of the bytes.
    pub fn copy_to(&self, bytes: &mut Vec<u8>) -> Result<(), AllocError>
        ensures { OnOk result (bytes.new.items ≡ bytes.old.items ++ self.now) }
    {
        self.chunks.copy_to(bytes)?;
        bytes.extend_from_slice(self.block.as_slice())
    }

    /// Appends a chunk, without copying it unless it is a small one after other bytes. An empty chunk is not kept.
    /// Allocates only if a chunk that is not empty comes after other bytes.
    pub fn push(&mut self, chunk: Bytes) -> Result<(), AllocFailed<Bytes>>
        requires { length self.old + length chunk < 2 ^ 64 }
        ensures ok { OnOk result (self.new ≡ self.old ++ chunk) }
        ensures err { OnErr result (self.new ≡ self.old) }
        ensures value_returned { IfErr result (λ failed. failed.value ≡ chunk) }
        ensures empty { length chunk ≡ 0 → IsOk result }
    {
        if chunk.is_empty() {
            return Ok(());
        }
        let shared_from = if self.block.is_empty() {
            SHARED_FROM
        } else {
            SHARED_FROM_AFTER_BLOCK
        };
        if chunk.len() < shared_from && self.len() > 0 {
            return match gather(&mut self.chunks, &mut self.block, chunk.as_slice()) {
                Ok(()) => Ok(()),
                Err(_) => Err(AllocFailed { value: chunk }),
            };
        }
        match share_block(&mut self.chunks, &mut self.block) {
            Ok(()) => self.chunks.push(chunk),
            Err(_) => Err(AllocFailed { value: chunk }),
        }
    }

    /// Takes the first eight bytes, a header's.
    pub fn take_head(&mut self) -> [u8; 8]
        requires { 8 ≤ length self.old }
        ensures head { result ≡ take 8 self.old }
        ensures rest { self.new ≡ drop 8 self.old }
    {
        if MessageHeader::SIZE <= self.chunks.len() {
            return self.chunks.take_head();
        }
        if self.chunks.len() == 0 {
            return take_head_of(&mut self.block);
        }
        let mut head = [0; 8];
        self.copy_to_slice(&mut head);
        head
    }

    /// The first eight bytes, a header's, if the front chunk has them.
    #[inline(always)]
    pub(crate) fn front_head(&self) -> Option<[u8; 8]>
        ensures { IfSome result (λ head. (8 ≤ length self.now) × (head ≡ take 8 self.now)) }
    {
        self.chunks.front_head()
    }

    /// Takes a header and the `count` bytes after it, and returns these, if the front chunk has both. Otherwise, and
    /// with an `Err`, nothing is taken.
    #[inline(always)]
    pub(crate) fn split_after_head(&mut self, count: u32) -> Result<Option<Bytes>, AllocError>
        ensures taken { IfOk result (λ found. MatchOption found (self.new ≡ self.old)
            (λ payload. (8 ≤ length self.old) × LosesPayload self.old count (Some payload) self.new)) }
        ensures rejected { OnErr result ((count ≤ length (drop 8 self.old)) × (self.new ≡ self.old)) }
    {
        self.chunks.split_after_head(count)
    }

    /// Takes the first `count` bytes: cut from the chunk or the block that has them all, otherwise joined in one copy.
    /// An `Err` takes nothing.
    #[inline(always)]
    pub fn split_to(&mut self, count: usize) -> Result<Bytes, AllocError>
        requires { count ≤ length self.old }
        ensures front { IfOk result (λ bytes. bytes ≡ take count self.old) }
        ensures rest { OnOk result (self.new ≡ drop count self.old) }
        ensures err { OnErr result (self.new ≡ self.old) }
    {
        if self.chunks.len() < count {
            // taken apart, so that what the other way returns need not be in memory
            let bytes = split_both_to(&mut self.chunks, &mut self.block, count)?;
            return Ok(bytes);
        }
        self.chunks.split_to(count)
    }
}

/// Takes the first eight bytes of the block.
fn take_head_of(block: &mut BytesMut) -> [u8; 8]
    requires { 8 ≤ length block.old.items }
    ensures head { result ≡ take 8 block.old.items }
    ensures rest { block.new.items ≡ drop 8 block.old.items }
{
    let Some(head) = block.as_slice().first_chunk::<8>() else {
        unreachable!();
    };
    let head = *head;
    block.advance(MessageHeader::SIZE);
    head
}

/// Takes the first `count` bytes if not all of them are shared: cut from the block if none are, otherwise joined in one
/// copy. An `Err` takes nothing.
fn split_both_to(
    chunks: &mut SharedChunks,
    block: &mut BytesMut,
    count: usize,
) -> Result<Bytes, AllocError>
    requires { (length chunks.old < count) × (count ≤ length (chunks.old ++ block.old.items)) }
    ensures front { IfOk result (λ bytes. bytes ≡ take count (chunks.old ++ block.old.items)) }
    ensures rest { OnOk result (chunks.new ++ block.new.items ≡ drop count (chunks.old ++ block.old.items)) }
    ensures err { OnErr result ((chunks.new ≡ chunks.old) × (block.new.items ≡ block.old.items)) }
{
    let shared = chunks.len();
    if shared == 0 {
        return block.freeze_to(count);
    }
    let gathered = count - shared;
    let bytes = joined(chunks, &block.as_slice()[..gathered], count)?;
    chunks.advance(shared);
    block.advance(gathered);
    Ok(bytes)
}

/// A copy of the shared chunks and of what is gathered after them, together this many bytes.
fn joined(chunks: &SharedChunks, gathered: &[u8], len: usize) -> Result<Bytes, AllocError>
    ensures { IfOk result (λ bytes. bytes ≡ chunks.now ++ gathered.now) }
{
    let mut bytes = Vec::with_capacity(chunks.alloc(), len)?;
    chunks.copy_to(&mut bytes)?;
    bytes.extend_from_slice(gathered)?;
    Ok(Bytes::from_vec(bytes)?)
}

/// Moves what is gathered to the shared chunks, in an allocation of its own size, so that the block can be filled anew.
/// An `Err` moves nothing.
fn share_block(chunks: &mut SharedChunks, block: &mut BytesMut) -> Result<(), AllocError>
    requires { length (chunks.old ++ block.old.items) < 2 ^ 64 }
    ensures same { chunks.new ++ block.new.items ≡ chunks.old ++ block.old.items }
    ensures shared { OnOk result (block.new.items ≡ []) }
{
    if !block.is_empty() {
        // and a place for the chunk that comes after it: if that were rejected, two small ones could be in a row
        chunks.reserve(2)?;
        let gathered = Bytes::copy_from_slice(chunks.alloc(), block.as_slice())?;
        chunks.push(gathered)?;
    }
    block.clear();
    Ok(())
}

/// Appends a copy of a small chunk to the block. An `Err` appends nothing.
fn gather(chunks: &mut SharedChunks, block: &mut BytesMut, chunk: &[u8]) -> Result<(), AllocError>
    requires { length (chunks.old ++ block.old.items) < 2 ^ 64 }
    ensures ok { OnOk result (chunks.new ++ block.new.items ≡ (chunks.old ++ block.old.items) ++ chunk.now) }
    ensures err { OnErr result (chunks.new ++ block.new.items ≡ chunks.old ++ block.old.items) }
{
    if block.capacity() - block.len() < chunk.len() {
        share_block(chunks, block)?;
        block.reserve(BLOCK_SIZE)?;
    }
    block.extend_from_slice(chunk)
}

impl Buf for PendingBytes {
    ghost unread = { λ bytes. bytes };

    fn remaining(&self) -> usize {
        self.len()
    }

    fn chunk(&self) -> &[u8] {
        if self.chunks.len() == 0 {
            return self.block.as_slice();
        }
        self.chunks.chunk()
    }

    fn advance(&mut self, count: usize) {
        let shared = count.min(self.chunks.len());
        self.chunks.advance(shared);
        self.block.advance(count - shared);
    }
}
