//! The decoder of a stream that comes in chunks.

ghost use Rattle.std.specs.Prelude.{◌≡◌, ◌+◌, ◌<◌, ◌≤◌, ◌++◌, length, drop, take, IfOk, IfSome, IfNone, OnErr};
ghost use Rattle.std.specs.Prelude.{MatchOption, Some, None};
ghost use Rattle.shared_core_stream.specs.Unread.{held_bytes, held_length, LosesPayload};

use crate::encoding::announced::Announced;
use crate::encoding::{Item, ItemError, Items, MessageTooLong, PushError, RawMessage};
use crate::pending_bytes::PendingBytes;
use bytes::Bytes;
use shared_core_base::header::MessageHeader;
use shared_core_base::version::Version;
use std::alloc::{AllocError, Global};
use std::marker::Model;

/// Takes a stream in chunks, and returns its items in order.
///
/// It may have a limit on the length of a payload. The first longer message ends the stream: `next_item` returns
/// `TooLong` as soon as that message's header is there, with or without bytes of its payload. From then on nothing is
/// held, each call returns this error, and `push` returns each chunk. A limit of `u32::MAX` is none.
///
/// A contract sees a decoder as its version; its pending bytes, those that no call has taken, where a header that was
/// read is still among them until its message is returned; its limit; the offset of the pending bytes; and the message
/// that was rejected.
#[derive(Drop)]
pub struct Decoder {
    version: Version,
    limit: u32,
    head: Option<[u8; 8]>,
    pending: PendingBytes,
    /// How many bytes were pushed, or 2^128 - 1 from there on. Those that a rejected message dropped do not count.
    pushed: u128,
    rejected: Option<MessageTooLong>,
}

impl Model for Decoder {
    ghost use Rattle.std.specs.Prelude.{◌≡◌, ◌++◌, ◌<◌, ◌≤◌, ◌^◌, [], length, IfSome};
    ghost use Rattle.shared_core_stream.specs.Unread.{Unread, held_bytes, held_length, offset_of};

    ghost Value = { Unread };

    ghost view = { λ decoder. record {
      version = decoder.version;
      bytes = held_bytes decoder.head ++ decoder.pending;
      limit = decoder.limit;
      offset = offset_of decoder.pushed (length (held_bytes decoder.head ++ decoder.pending));
      rejected = decoder.rejected;
    } };

    ghost invariant = { λ decoder. (length (held_bytes decoder.head ++ decoder.pending) < 2 ^ 64)
        × (length (held_bytes decoder.head) ≡ held_length decoder.head)
        × (length (held_bytes decoder.head ++ decoder.pending) ≤ decoder.pushed)
        × IfSome decoder.rejected (λ _. held_bytes decoder.head ++ decoder.pending ≡ []) };
}

/// The eight bytes that are held as a header. If none are held and eight are pending, these are held from now on.
fn hold_head(head: &mut Option<[u8; 8]>, pending: &mut PendingBytes) -> Option<[u8; 8]>
    requires { length (held_bytes head.old) ≡ held_length head.old }
    ensures same { held_bytes head.new ++ pending.new ≡ held_bytes head.old ++ pending.old }
    ensures held { IfSome result (λ bytes. (head.new ≡ Some bytes) × (length bytes ≡ 8)
        × (held_bytes head.old ++ pending.old ≡ bytes ++ pending.new)) }
    ensures short { IfNone result ((head.new ≡ None) × (length pending.new < 8)) }
{
    if let Some(bytes) = *head {
        return Some(bytes);
    }
    if !pending.has(MessageHeader::SIZE) {
        return None;
    }
    let bytes = pending.take_head();
    *head = Some(bytes);
    Some(bytes)
}

/// The first eight bytes, if as many are there: those that are held, or those at the front of the pending bytes, which
/// are held from now on only if the front chunk has not all of them.
#[inline(always)]
fn front_head(head: &mut Option<[u8; 8]>, pending: &mut PendingBytes) -> Option<[u8; 8]>
    requires { length (held_bytes head.old) ≡ held_length head.old }
    ensures same { held_bytes head.new ++ pending.new ≡ held_bytes head.old ++ pending.old }
    ensures length { length (held_bytes head.new) ≡ held_length head.new }
    ensures found { IfSome result (λ bytes. (length bytes ≡ 8)
        × (held_bytes head.old ++ pending.old ≡ bytes ++ drop 8 (held_bytes head.new ++ pending.new))) }
    ensures short { IfNone result (length (held_bytes head.old ++ pending.old) < 8) }
{
    if head.is_none() {
        if let Some(front) = pending.front_head() {
            return Some(front);
        }
    }
    hold_head(head, pending)
}

/// Takes the first eight bytes and the `count` after them, and returns these, if as many are there. Otherwise, and with
/// an `Err`, nothing is taken.
#[inline(always)]
fn take_payload(
    head: &mut Option<[u8; 8]>,
    pending: &mut PendingBytes,
    count: u32,
) -> Result<Option<Bytes>, AllocError>
    requires held { length (held_bytes head.old) ≡ held_length head.old }
    requires whole { 8 ≤ length (held_bytes head.old ++ pending.old) }
    ensures taken { IfOk result (λ found.
        LosesPayload (held_bytes head.old ++ pending.old) count found (held_bytes head.new ++ pending.new)) }
    ensures rejected { OnErr result ((count ≤ length (drop 8 (held_bytes head.old ++ pending.old)))
        × (held_bytes head.new ++ pending.new ≡ held_bytes head.old ++ pending.old)) }
    ensures length { length (held_bytes head.new) ≡ held_length head.new }
{
    if head.is_none() {
        // nearly always the front chunk has both
        if let Some(payload) = pending.split_after_head(count)? {
            return Ok(Some(payload));
        }
    }
    // taken apart, so that what the other way returns need not be in memory
    let Some(payload) = take_held_payload(head, pending, count as usize)? else {
        return Ok(None);
    };
    Ok(Some(payload))
}

/// The same, where the header is held, or is from now on.
fn take_held_payload(
    head: &mut Option<[u8; 8]>,
    pending: &mut PendingBytes,
    count: usize,
) -> Result<Option<Bytes>, AllocError>
    requires held { length (held_bytes head.old) ≡ held_length head.old }
    requires whole { 8 ≤ length (held_bytes head.old ++ pending.old) }
    ensures taken { IfOk result (λ found.
        LosesPayload (held_bytes head.old ++ pending.old) count found (held_bytes head.new ++ pending.new)) }
    ensures rejected { OnErr result ((count ≤ length (drop 8 (held_bytes head.old ++ pending.old)))
        × (held_bytes head.new ++ pending.new ≡ held_bytes head.old ++ pending.old)) }
    ensures length { length (held_bytes head.new) ≡ held_length head.new }
{
    hold_head(head, pending);
    if !pending.has(count) {
        return Ok(None);
    }
    let payload = pending.split_to(count)?;
    *head = None;
    Ok(Some(payload))
}

impl Decoder {
    ghost use Rattle.std.specs.Prelude.{◌≡◌, ◌+◌, ◌<◌, ◌≤◌, ◌++◌, ◌^◌, [], length, OnOk, OnErr, IfOk, IfErr, IfSome};
    ghost use Rattle.std.specs.Prelude.{IsOk, IsErr, IsSome, IsErrOf, MatchOption, None, Err, Ok, false};
    ghost use Rattle.shared_core_base.specs.Version.{version_number};
    ghost use Rattle.shared_core_stream.specs.Items.{front_word, NoItemBegins, PayloadIsNext, PushFails, TakesItem};
    ghost use Rattle.shared_core_stream.specs.Limits.{ReturnsWithin, too_long_by};
    ghost use Rattle.shared_core_stream.specs.Unread.{fresh, IsUnlimited};
    ghost use Rattle.shared_core_stream.specs.declared.encoding.error.ItemError.TheVariants as error;

    /// Returns a decoder of this version, which is at least V5, without a limit, at the start of a stream. Does not
    /// allocate.
    pub fn new(alloc: Global, version: Version) -> Decoder
        requires { 5 ≤ version_number version }
        ensures { result ≡ fresh version 4294967295 }
    {
        Decoder::with_limit(alloc, version, u32::MAX)
    }

    /// The same with a limit: the greatest length in bytes of a payload that is taken.
    pub fn with_limit(alloc: Global, version: Version, limit: u32) -> Decoder
        requires { 5 ≤ version_number version }
        ensures { result ≡ fresh version limit }
    {
        Decoder {
            version,
            limit,
            head: None,
            pending: PendingBytes::new(alloc),
            pushed: 0,
            rejected: None,
        }
    }

    /// The greatest length of a payload that is taken.
    pub fn limit(&self) -> u32
        ensures { result ≡ self.now.limit }
    {
        self.limit
    }

    /// The number of bytes of the stream that are in the items taken so far, or 2^64 - 1 from there on.
    pub fn offset(&self) -> u64
        ensures { result ≡ self.now.offset }
    {
        let taken = self.pushed - self.pending() as u128;
        if taken < u64::MAX as u128 {
            taken as u64
        } else {
            u64::MAX
        }
    }

    /// The message that was rejected, since it is longer than the limit, if one was.
    pub fn rejected(&self) -> Option<MessageTooLong>
        ensures { result ≡ self.now.rejected }
    {
        self.rejected
    }

    /// Returns the number of bytes that no call has taken yet.
    pub fn pending(&self) -> u64
        ensures { result ≡ length self.now.bytes }
    {
        let held = if self.head.is_some() {
            MessageHeader::SIZE as u64
        } else {
            0
        };
        held + self.pending.len() as u64
    }

    /// Returns a copy of the bytes that no call has taken yet: at the end of a stream, its trailing bytes.
    pub fn copy_pending(&self) -> Result<Vec<u8>, AllocError>
        ensures { IfOk result (λ bytes. bytes.items ≡ self.now.bytes) }
    {
        let mut bytes = Vec::new(self.pending.alloc());
        if let Some(head) = &self.head {
            bytes.extend_from_slice(head)?;
        }
        self.pending.copy_to(&mut bytes)?;
        Ok(bytes)
    }

    /// Appends a chunk of the stream, of any length, to the pending bytes, without copying it. Only one of fewer than
    /// 256 bytes that comes after pending ones is copied, or of fewer than 1,024 after one that was copied, so that
    /// pending bytes take at most twice their number and 64 KiB, besides what is used of the chunk that they begin in.
    ///
    /// An empty chunk is not kept and never rejected. A rejected chunk is returned in the error, and nothing has
    /// changed: `TooLong` if and only if the pending bytes would be more than 2^64 - 1 or a message was rejected,
    /// otherwise `OutOfMemory`.
    pub fn push(&mut self, chunk: Bytes) -> Result<(), PushError>
        ensures ok { OnOk result (self.new ≡ record self.old { bytes = self.old.bytes ++ chunk }) }
        ensures err { IfErr result (PushFails self.old chunk) }
        ensures too_long { 0 < length chunk → 2 ^ 64 ≤ length self.old.bytes + length chunk → IsErr result }
        ensures rejected { 0 < length chunk → IsSome self.old.rejected → IsErr result }
        ensures kept { OnErr result (self.new ≡ self.old) }
        ensures empty { length chunk ≡ 0 → IsOk result }
    {
        if chunk.is_empty() {
            return Ok(());
        }
        if let Some(_) = self.rejected {
            return Err(PushError::TooLong(chunk));
        }
        let count = chunk.len() as u64;
        if self.pending().checked_add(count).is_none() {
            return Err(PushError::TooLong(chunk));
        }
        match self.pending.push(chunk) {
            Ok(()) => {
                self.pushed = self.pushed.saturating_add(count as u128);
                Ok(())
            }
            Err(failed) => Err(PushError::OutOfMemory(failed.value)),
        }
    }

    /// The next item, of any kind, or `None` if and only if no whole one is left; then at most 4,294,967,302 bytes are
    /// pending, a header and all but one byte of its payload.
    ///
    /// A payload within one chunk shares its memory; one that straddles chunks is joined, once. A failed allocation
    /// takes nothing, and comes only if a whole payload would be taken: a later call returns as if this one had not
    /// been made. `TooLong` comes as soon as the header of a message over the limit is there, and from then on;
    /// without a limit it never comes.
    #[tactic(auto, using(crate::proofs::Returned::memory_of, crate::proofs::Returned::version_of))]
    #[inline(always)]
    pub fn next_item(&mut self) -> Result<Option<Item>, ItemError>
        ensures next { ReturnsWithin self.old result self.new }
        ensures taken { IfOk result (λ found. MatchOption found
            (NoItemBegins self.old.version self.old.bytes × (self.new.bytes ≡ self.old.bytes)
            × (length self.new.bytes ≤ 4294967302))
            (λ item. TakesItem self.old.version self.old.bytes item self.new.bytes)) }
        ensures out_of_memory { result ≡ Err error.OutOfMemory →
            (self.new.bytes ≡ self.old.bytes) × PayloadIsNext self.old.version self.old.bytes }
        ensures unlimited { IsUnlimited self.old → IsUnlimited self.new × (result ≡ Err error.TooLong → ⊥) }
        ensures shorter { IfOk result (λ found.
            IfSome found (λ item. length self.new.bytes + 8 ≤ length self.old.bytes)) }
        ensures version { self.new.version ≡ self.old.version }
    {
        let mut word = 0;
        self.next_with_word(&mut word)
    }

    /// The next item as of `next_item`. With an item, `word` is that of its header; an item holds only a part of it.
    #[inline(always)]
    pub fn next_with_word(&mut self, word: &mut u64) -> Result<Option<Item>, ItemError>
        ensures next { ReturnsWithin self.old result self.new }
        ensures word { IfOk result (λ found. IfSome found (λ _. word.new ≡ front_word self.old.bytes)) }
        ensures shorter { IfOk result (λ found.
            IfSome found (λ item. length self.new.bytes + 8 ≤ length self.old.bytes)) }
    {
        let Some(front) = front_head(&mut self.head, &mut self.pending) else {
            // after a rejection nothing is pending
            return match self.rejected {
                Some(_) => Err(ItemError::TooLong),
                None => Ok(None),
            };
        };
        *word = u64::from_be_bytes(front);
        match Announced::by(self.version, *word) {
            Announced::Message(header) => {
                let length = header.message_length();
                if length > self.limit {
                    return self.reject(*word);
                }
                let taken = take_payload(&mut self.head, &mut self.pending, length)?;
                let Some(payload) = taken else {
                    return Ok(None);
                };
                Ok(Some(Item::Message(RawMessage::new(header, payload))))
            }
            Announced::Skipped(unknown, length) => {
                if length > self.limit {
                    return self.reject(*word);
                }
                let skipped = take_payload(&mut self.head, &mut self.pending, length)?;
                let Some(payload) = skipped else {
                    return Ok(None);
                };
                Ok(Some(Item::Skipped(unknown.code(), payload)))
            }
            Announced::Unknown(unknown) => {
                hold_head(&mut self.head, &mut self.pending);
                self.head = None;
                Ok(Some(Item::Unknown(unknown.code())))
            }
        }
    }

    /// Drops what is held, since the message that this word announces is longer than the limit. Inline: a call would
    /// have each item of a loop go through memory.
    #[inline(always)]
    fn reject(&mut self, word: u64) -> Result<Option<Item>, ItemError>
        ensures error { result ≡ Err error.TooLong }
        ensures rejected { self.new ≡ record self.old {
          bytes = [];
          rejected = too_long_by self.old.version self.old.limit self.old.offset word;
        } }
    {
        let message = MessageTooLong::by(self.version, self.limit, self.offset(), word);
        self.pushed -= self.pending() as u128;
        self.head = None;
        self.pending = PendingBytes::new(self.pending.alloc());
        self.rejected = message;
        Err(ItemError::TooLong)
    }

    /// The items that the decoder holds, in order, for a loop: each is taken as it is returned, as by `next_item`.
    pub fn items(&mut self) -> Items<'_>
        ensures decoder { result.decoder.now ≡ self.old }
        ensures fresh { result.has_failed ≡ false }
        ensures same_reference { result.decoder.ghost_name ≡ self.entry.ghost_name }
    {
        Items {
            decoder: self,
            has_failed: false,
        }
    }
}
