//! Chunks in a row, shared and not copied.

ghost use Rattle.std.specs.Prelude.{◌≡◌, ◌+◌, ◌^◌, ◌<◌, ◌≤◌, ◌++◌, [], length};
ghost use Rattle.std.specs.Prelude.{take, drop, All, IfOk, IfErr, IfSome, IsOk, OnOk, OnErr, MatchOption, Some};
ghost use Rattle.std.specs.List.{concat};
ghost use Rattle.shared_core_stream.specs.Segments.{AreSegments};
ghost use Rattle.shared_core_stream.specs.Unread.{LosesPayload};

use bytes::{Buf, Bytes};
use shared_core_base::header::MessageHeader;
use std::alloc::{AllocError, AllocFailed, Global};
use std::collections::VecDeque;
use std::marker::Model;

/// A queue of shared segments. A contract sees their bytes as one list.
///
/// The front segment is a field of its own, since nearly all work is on it. It is empty only if there is no other, and
/// no other is ever empty: a used segment is dropped.
#[derive(Drop)]
pub struct SharedChunks {
    alloc: Global,
    front: Bytes,
    after: VecDeque<Bytes>,
    len: usize,
}

impl Model for SharedChunks {
    ghost use Rattle.std.specs.Prelude.{List, ℕ, ◌++◌};
    ghost use Rattle.std.specs.List.{concat};
    ghost use Rattle.shared_core_stream.specs.Segments.{AreSegments};

    ghost Value = { List ℕ };

    ghost view = { λ chunks. chunks.front ++ concat chunks.after.items };

    ghost invariant = { λ chunks. AreSegments chunks.front chunks.after.items chunks.len };
}

impl SharedChunks {
    /// No bytes. Does not allocate.
    pub fn new(alloc: Global) -> SharedChunks
        ensures { result ≡ [] }
    {
        SharedChunks {
            alloc,
            front: Bytes::new(),
            after: VecDeque::new(alloc),
            len: 0,
        }
    }

    /// The number of bytes.
    pub fn len(&self) -> usize
        ensures { result ≡ length self.now }
    {
        self.len
    }

    /// The allocator of the segments.
    pub fn alloc(&self) -> Global {
        self.alloc
    }

    /// Appends a copy of the bytes.
    pub fn copy_to(&self, bytes: &mut Vec<u8>) -> Result<(), AllocError>
        ensures { OnOk result (bytes.new.items ≡ bytes.old.items ++ self.now) }
    {
        bytes.extend_from_slice(self.front.as_slice())?;
        for i in 0..self.after.len() {
            bytes.extend_from_slice(self.after[i].as_slice())?;
        }
        Ok(())
    }

    /// Appends a chunk, without copying it. An empty chunk is not kept. Allocates only if a chunk that is not empty
    /// comes after other bytes.
    pub fn push(&mut self, chunk: Bytes) -> Result<(), AllocFailed<Bytes>>
        requires { length self.old + length chunk < 2 ^ 64 }
        ensures ok { OnOk result (self.new ≡ self.old ++ chunk) }
        ensures err { OnErr result (self.new ≡ self.old) }
        ensures value_returned { IfErr result (λ failed. failed.value ≡ chunk) }
        ensures empty { length chunk ≡ 0 → IsOk result }
    {
        if chunk.is_empty() {
            return Ok(());
        }
        let len = self.len + chunk.len();
        if self.front.is_empty() {
            self.front = chunk;
            self.len = len;
            return Ok(());
        }
        self.after.push_back(chunk)?;
        self.len = len;
        Ok(())
    }

    /// Makes room for `count` further chunks, which are then pushed without allocating.
    pub fn reserve(&mut self, count: usize) -> Result<(), AllocError>
        ensures { self.new ≡ self.old }
    {
        self.after.reserve(count)
    }

    /// Takes the first eight bytes, a header's.
    pub fn take_head(&mut self) -> [u8; 8]
        requires { 8 ≤ length self.old }
        ensures head { result ≡ take 8 self.old }
        ensures rest { self.new ≡ drop 8 self.old }
    {
        // nearly always the front segment has them all
        if let Some(head) = self.front.as_slice().first_chunk::<8>() {
            let head = *head;
            self.front.advance(MessageHeader::SIZE);
            self.len -= MessageHeader::SIZE;
            drop_used_up(&mut self.front, &mut self.after);
            return head;
        }
        let mut head = [0; 8];
        self.copy_to_slice(&mut head);
        head
    }

    /// The first eight bytes, a header's, if the front segment has them.
    #[inline(always)]
    pub(crate) fn front_head(&self) -> Option<[u8; 8]>
        ensures { IfSome result (λ head. (8 ≤ length self.now) × (head ≡ take 8 self.now)) }
    {
        self.front.as_slice().first_chunk::<8>().copied()
    }

    /// Takes a header and the `count` bytes after it, and returns these, if the front segment has both. Otherwise, and
    /// with an `Err`, nothing is taken.
    #[inline(always)]
    pub(crate) fn split_after_head(&mut self, count: u32) -> Result<Option<Bytes>, AllocError>
        ensures taken { IfOk result (λ found. MatchOption found (self.new ≡ self.old)
            (λ payload. (8 ≤ length self.old) × LosesPayload self.old count (Some payload) self.new)) }
        ensures rejected { OnErr result ((count ≤ length (drop 8 self.old)) × (self.new ≡ self.old)) }
    {
        let end = MessageHeader::SIZE + count as usize;
        if self.front.len() < end {
            return Ok(None);
        }
        let payload = self.front.slice(MessageHeader::SIZE..end)?;
        self.front.advance(end);
        self.len -= end;
        drop_used_up(&mut self.front, &mut self.after);
        Ok(Some(payload))
    }

    /// Takes the first `count` bytes: cut from the front segment where it has them all, otherwise joined in one copy.
    /// An `Err` takes nothing.
    #[inline(always)]
    pub fn split_to(&mut self, count: usize) -> Result<Bytes, AllocError>
        requires { count ≤ length self.old }
        ensures front { IfOk result (λ bytes. bytes ≡ take count self.old) }
        ensures rest { OnOk result (self.new ≡ drop count self.old) }
        ensures err { OnErr result (self.new ≡ self.old) }
    {
        if self.front.len() < count {
            let bytes = self.joined(count)?;
            self.advance(count);
            return Ok(bytes);
        }
        let bytes = self.front.split_to(count)?;
        self.len -= count;
        drop_used_up(&mut self.front, &mut self.after);
        Ok(bytes)
    }

    /// A copy of the first `count` bytes. The front segment has a part of them.
    fn joined(&self, count: usize) -> Result<Bytes, AllocError>
        requires { count ≤ length self.now }
        ensures { IfOk result (λ bytes. bytes ≡ take count self.now) }
    {
        let mut bytes = Vec::with_capacity(self.alloc, count)?;
        let part = count.min(self.front.len());
        bytes.extend_from_slice(&self.front.as_slice()[..part])?;
        let mut wanted = count - part;
        for i in 0..self.after.len() {
            if wanted == 0 {
                break;
            }
            let segment = self.after[i].as_slice();
            let part = wanted.min(segment.len());
            append(&mut bytes, &segment[..part])?;
            wanted -= part;
        }
        Ok(Bytes::from_vec(bytes)?)
    }

    /// Takes up to `count` bytes of the front segment, and returns how many.
    fn advance_front(&mut self, count: usize) -> usize
        requires { (0 < count) × (count ≤ length self.old) }
        ensures count { (0 < result) × (result ≤ count) }
        ensures rest { self.new ≡ drop result self.old }
    {
        let taken = count.min(self.front.len());
        self.front.advance(taken);
        self.len -= taken;
        drop_used_up(&mut self.front, &mut self.after);
        taken
    }
}

/// Appends bytes. For a single byte, as in a stream that comes byte by byte, a call of `memcpy` would cost more than
/// the rest.
#[inline(always)]
fn append(bytes: &mut Vec<u8>, part: &[u8]) -> Result<(), AllocError>
    ensures { OnOk result (bytes.new.items ≡ bytes.old.items ++ part.now) }
{
    if part.len() == 1 {
        bytes.push(part[0])?;
        return Ok(());
    }
    bytes.extend_from_slice(part)
}

/// The places of a queue that is never made smaller, in 16 KiB: those that a message of 1 MiB takes in chunks of 4 KiB.
/// With fewer, each such message would have it grow and shrink again.
const MIN_PLACES: usize = 512;

/// Replaces a used front segment by the next one.
#[inline(always)]
fn drop_used_up(front: &mut Bytes, after: &mut VecDeque<Bytes>)
    requires { All (λ segment. 0 < length segment) after.old.items }
    ensures segments { AreSegments front.new after.new.items (length (front.old ++ concat after.old.items)) }
    ensures same { front.new ++ concat after.new.items ≡ front.old ++ concat after.old.items }
{
    if front.is_empty() {
        take_next(front, after);
    }
}

/// Replaces an empty front segment by the next one, and gives back places of the queue once three in four are free.
fn take_next(front: &mut Bytes, after: &mut VecDeque<Bytes>)
    requires { All (λ segment. 0 < length segment) after.old.items }
    ensures segments { AreSegments front.new after.new.items (length (concat after.old.items)) }
    ensures same { front.new ++ concat after.new.items ≡ concat after.old.items }
{
    *front = match after.pop_front() {
        Some(next) => next,
        None => Bytes::new(),
    };
    let places = after.capacity();
    if places > MIN_PLACES && after.len() < places / 4 {
        after.shrink_to(places / 2);
    }
}

impl Buf for SharedChunks {
    ghost unread = { λ bytes. bytes };

    fn remaining(&self) -> usize {
        self.len
    }

    fn chunk(&self) -> &[u8] {
        self.front.as_slice()
    }

    fn advance(&mut self, count: usize) {
        let mut left = count;
        while left > 0 {
            left -= self.advance_front(left);
        }
    }
}
