//! The items of a stream whose reader each call borrows.
//!
//! What was read and not used is held for the next call, so no error loses a byte. A payload that lies in what one read
//! gave shares the memory that it was read into.

ghost use Rattle.std.specs.Prelude.{◌≡◌, ◌⊎◌, ◌+◌, ◌<◌, ◌≤◌, ◌++◌, ℕ, List, [], length, IfOk, IfErr, IfSome, OnOk};
ghost use Rattle.std.specs.Prelude.{OnErr, true, false, None, Err};
ghost use Rattle.std.specs.Io.KnownBytes.{Consumes, IsAtEnd};
ghost use Rattle.shared_core_base.specs.Version.{version_number};
ghost use Rattle.shared_core_stream.specs.Items.{TakesItem};
ghost use Rattle.shared_core_stream.specs.Unread.{fresh};
ghost use Rattle.shared_core_stream.specs.declared.encoding.item.Item.{Item as AnyItem};
ghost use Rattle.shared_core_io.specs.Reading.{most_held, most_of_a_part, result_at_end, with_more, HasWord};
ghost use Rattle.shared_core_io.specs.Reading.{without_word};
ghost use Rattle.shared_core_io.specs.Reading.{IsDrained, IsRead, IsTaken, IsTakenOf, LosesNothing};
ghost use Rattle.shared_core_io.specs.declared.error.ReadError.TheVariants.{OutOfMemory, TooLong};

use crate::error::ReadError;
use crate::one_read::read_some;
use bytes::{Bytes, BytesMut};
use shared_core_base::version::Version;
use shared_core_stream::encoding::{Decoder, Item, ItemError, PushError};
use std::alloc::{AllocError, Global};
use std::io::Read;
use std::{io, mem};

/// The bytes that a new block is read into, and the most that one read takes.
pub const CHUNK: usize = 65536;

/// The least room that a read is given. A block is read into until there is less, so that a stream that comes a few
/// bytes at a time does not take a block for each read.
const LEAST_ROOM: usize = 4096;

/// The most bytes that hold no complete item: a header, and all but one byte of the longest payload.
const MOST_OF_A_PART: u64 = 4_294_967_302;

/// What was read of a stream and is in no item that was returned.
///
/// It is what an `ItemReader` has in addition to its reader. Here each call that reads borrows the reader: so a reader
/// that is only borrowed can be read too, and what it has left is known.
#[derive(Drop)]
pub struct ItemBuffer {
    decoder: Decoder,
    /// A chunk that was read and could not be pushed.
    chunk: Bytes,
    /// What was read and is in no chunk yet, and the room for what is read next.
    buffer: BytesMut,
    /// The most bytes that one read takes.
    most: usize,
    ghost small: { length chunk ≤ 65536 },
    ghost few: { length buffer.items ≤ 65536 },
    ghost some: { 0 < most },
    ghost at_most: { most ≤ 65536 },
    ghost limited: { decoder.limit ≤ 4294967295 },
    ghost short: { length decoder.bytes ≤ 4295032838 },
}

impl ItemBuffer {
    ghost use Rattle.shared_core_io.specs.Reading.{held};

    /// Nothing yet of a stream of this version, which is at least V5. No message of it may have a payload of more bytes
    /// than a limit. One read takes at most a number of bytes, from 1 to 65,536. Does not allocate.
    pub fn new(alloc: Global, version: Version, limit: u32, most: usize) -> ItemBuffer
        requires spoken { 5 ≤ version_number version }
        requires low { 1 ≤ most }
        requires high { most ≤ 65536 }
        ensures { held result.decoder result.chunk result.buffer ≡ fresh version limit }
    {
        ItemBuffer {
            decoder: Decoder::with_limit(alloc, version, limit),
            chunk: Bytes::new(),
            buffer: BytesMut::new(alloc),
            most,
        }
    }

    /// Returns the next item with the word of its header, or `None` if the stream ends before it. It reads only while
    /// what was read holds no complete item, into blocks of 65,536 bytes. A block is read into until less than 4,096
    /// bytes of it are left.
    ///
    /// `TooLong` if the next message is longer than the limit. It comes as soon as the header was read. From then on
    /// nothing is held, and each call returns it. `Truncated` if the stream ends within an item; `Failed` if a read
    /// failed, though an interrupted one is repeated; `OutOfMemory`. After these three nothing that was read is lost: a
    /// later call goes on from there. At the end all that is held is in the decoder.
    pub fn next_with_word<R: Read>(
        &mut self,
        reader: &mut R,
    ) -> Result<Option<(u64, Item)>, ReadError>
        ensures read { (read : List ℕ) × Consumes (R.remaining reader.old) (R.remaining reader.new) read
            × IsRead (with_more (held self.old.decoder self.old.chunk self.old.buffer) read) (R.remaining reader.new)
            (without_word result) (held self.new.decoder self.new.chunk self.new.buffer)
            × HasWord result (with_more (held self.old.decoder self.old.chunk self.old.buffer) read).bytes }
        // a complete item is returned before anything is read, so it does not wait for what comes after it
        ensures idle { (item : AnyItem) (rest : List ℕ) → TakesItem self.old.decoder.version
            (held self.old.decoder self.old.chunk self.old.buffer).bytes item rest → reader.new ≡ reader.old }
        ensures drained { IsDrained result (self.new.chunk ++ self.new.buffer.items) }
        ensures bound { length (held self.new.decoder self.new.chunk self.new.buffer).bytes ≤ most_held }
    {
        for _ in 0..u64::MAX {
            if let Some(next) = self.take()? {
                return Ok(Some(next));
            }
            if !self.fill(reader)? {
                return end_of(&self.decoder);
            }
        }
        Err(ReadError::Failed(io::Error::from(io::ErrorKind::TimedOut)))
    }

    /// Returns the next item of what was read with the word of its header, and reads nothing; `None` if that holds no
    /// complete item.
    ///
    /// `TooLong` and `OutOfMemory` are as of `next_with_word`, and no other error comes.
    #[inline(always)]
    pub fn take_with_word(&mut self) -> Result<Option<(u64, Item)>, ReadError>
        ensures taken { IsTakenOf (held self.old.decoder self.old.chunk self.old.buffer) (without_word result)
            (held self.new.decoder self.new.chunk self.new.buffer) }
        ensures word { HasWord result (held self.old.decoder self.old.chunk self.old.buffer).bytes }
    {
        loop {
            if let Some(next) = self.take()? {
                return Ok(Some(next));
            }
            // bytes are outside the decoder only after it could not take them
            if self.chunk.is_empty() && self.buffer.is_empty() {
                return Ok(None);
            }
            self.push_held()?;
        }
    }

    /// Gives the decoder the next of the bytes that were read and that it does not hold, or else those that one read
    /// gives. Returns whether the stream goes on: if it does not, all that is held is in the decoder.
    ///
    /// So a loop that takes what was read by `take_with_word` reads on by this where that returns `None`. It reads
    /// nothing while the decoder holds more than 4,294,967,302 bytes, since a complete item is among them. `TooLong`
    /// after a message was rejected, and then nothing is read; `Failed` and `OutOfMemory` are as of `next_with_word`.
    pub fn fill<R: Read>(&mut self, reader: &mut R) -> Result<bool, ReadError>
        ensures filled { (read : List ℕ) × Consumes (R.remaining reader.old) (R.remaining reader.new) read
            × (held self.new.decoder self.new.chunk self.new.buffer
            ≡ with_more (held self.old.decoder self.old.chunk self.old.buffer) read) }
        ensures more { IfOk result (λ more. more ≡ true
            → (length self.old.decoder.bytes < length self.new.decoder.bytes)
            ⊎ (most_of_a_part < length self.old.decoder.bytes)) }
        ensures end { IfOk result (λ more. more ≡ false → IsAtEnd (R.remaining reader.new)
            × (self.new.decoder ≡ self.old.decoder) × (self.new.chunk ++ self.new.buffer.items ≡ [])) }
        ensures idle { 0 < length self.old.chunk + length self.old.buffer.items → reader.new ≡ reader.old }
        ensures full { most_of_a_part < length self.old.decoder.bytes → reader.new ≡ reader.old }
        ensures error { IfErr result (LosesNothing self.old.decoder.rejected
            (held self.old.decoder self.old.chunk self.old.buffer)
            (held self.new.decoder self.new.chunk self.new.buffer)) }
        ensures rejected { IfSome self.old.decoder.rejected
            (λ message. (result ≡ Err (TooLong message)) × (reader.new ≡ reader.old)) }
        ensures bound { length (held self.new.decoder self.new.chunk self.new.buffer).bytes ≤ most_held }
    {
        if let Some(message) = self.decoder.rejected() {
            return Err(ReadError::TooLong(message));
        }
        if self.decoder.pending() > MOST_OF_A_PART {
            return Ok(true);
        }
        if !self.next_chunk(reader)? {
            return Ok(false);
        }
        self.push()?;
        Ok(true)
    }

    /// Returns a copy of the bytes that were read and are in no item that was returned: after `Truncated` those of the
    /// item that is cut short, after `TooLong` none.
    #[tactic(auto, using(crate::proofs::Reading::all_held))]
    pub fn copy_pending(&self) -> Result<Vec<u8>, AllocError>
        ensures { IfOk result (λ bytes.
            bytes.items ≡ (held self.now.decoder self.now.chunk self.now.buffer).bytes) }
    {
        let mut bytes = self.decoder.copy_pending()?;
        bytes.extend_from_slice(self.chunk.as_slice())?;
        bytes.extend_from_slice(self.buffer.as_slice())?;
        Ok(bytes)
    }

    /// The decoder. At the end of a stream, and after `Truncated`, it holds all trailing bytes.
    pub fn decoder(&self) -> &Decoder
        ensures { result.now ≡ self.now.decoder }
    {
        &self.decoder
    }

    /// Takes the next item of what the decoder holds. If it is too long, all that is held is dropped.
    #[tactic(auto, using(crate::proofs::Reading::taken, crate::proofs::Reading::taken_not, crate::proofs::Reading::taken_long))]
    #[inline(always)]
    fn take(&mut self) -> Result<Option<(u64, Item)>, ReadError>
        ensures taken { IsTaken self.old.decoder (self.old.chunk ++ self.old.buffer.items) (without_word result)
            self.new.decoder (self.new.chunk ++ self.new.buffer.items) }
        ensures word { HasWord result self.old.decoder.bytes }
    {
        let mut word = 0;
        match self.decoder.next_with_word(&mut word) {
            Ok(Some(item)) => Ok(Some((word, item))),
            Ok(None) => Ok(None),
            Err(ItemError::OutOfMemory) => Err(ReadError::OutOfMemory),
            Err(ItemError::TooLong) => {
                self.chunk = Bytes::new();
                self.buffer.clear();
                let Some(message) = self.decoder.rejected() else {
                    unreachable!()
                };
                Err(ReadError::TooLong(message))
            }
        }
    }

    /// Gives the decoder the next of the bytes that are held outside it. There is at least one.
    fn push_held(&mut self) -> Result<(), ReadError>
        requires accepted { self.old.decoder.rejected ≡ None }
        requires short { length self.old.decoder.bytes ≤ most_of_a_part }
        requires some { 0 < length self.old.chunk + length self.old.buffer.items }
        ensures same { held self.new.decoder self.new.chunk self.new.buffer
            ≡ held self.old.decoder self.old.chunk self.old.buffer }
        ensures fewer { OnOk result (length self.new.chunk + length self.new.buffer.items
            < length self.old.chunk + length self.old.buffer.items) }
        ensures error { IfErr result (λ error. error ≡ OutOfMemory) }
    {
        if self.chunk.is_empty() {
            self.cut_chunk()?;
        }
        self.push()
    }

    /// Gives the decoder the chunk that is held, which has room for it.
    fn push(&mut self) -> Result<(), ReadError>
        requires accepted { self.old.decoder.rejected ≡ None }
        requires short { length self.old.decoder.bytes ≤ most_of_a_part }
        ensures ok { OnOk result ((self.new.decoder ≡ with_more self.old.decoder self.old.chunk)
            × (self.new.chunk ≡ [])) }
        ensures kept { OnErr result ((self.new.decoder ≡ self.old.decoder) × (self.new.chunk ≡ self.old.chunk)) }
        ensures error { IfErr result (λ error. error ≡ OutOfMemory) }
        ensures buffer { self.new.buffer ≡ self.old.buffer }
    {
        match self.decoder.push(mem::take(&mut self.chunk)) {
            Ok(()) => Ok(()),
            Err(PushError::OutOfMemory(chunk)) => {
                self.chunk = chunk;
                Err(ReadError::OutOfMemory)
            }
            Err(PushError::TooLong(_)) => unreachable!(),
        }
    }

    /// Takes what the buffer holds as the next chunk, if none is held. Returns whether the stream goes on.
    fn next_chunk<R: Read>(&mut self, reader: &mut R) -> Result<bool, ReadError>
        ensures cut { (read : List ℕ) × Consumes (R.remaining reader.old) (R.remaining reader.new) read
            × (self.new.chunk ++ self.new.buffer.items ≡ (self.old.chunk ++ self.old.buffer.items) ++ read) }
        ensures end { IfOk result (λ more. more ≡ false → IsAtEnd (R.remaining reader.new)
            × (self.new.chunk ++ self.new.buffer.items ≡ [])) }
        ensures some { IfOk result (λ more. more ≡ true → 0 < length self.new.chunk) }
        ensures idle { 0 < length self.old.chunk + length self.old.buffer.items → reader.new ≡ reader.old }
        ensures error { IfErr result (LosesNothing None (self.old.chunk ++ self.old.buffer.items)
            (self.new.chunk ++ self.new.buffer.items)) }
        ensures decoder { self.new.decoder ≡ self.old.decoder }
    {
        if !self.chunk.is_empty() {
            return Ok(true);
        }
        if !self.read(reader)? {
            return Ok(false);
        }
        self.cut_chunk()?;
        Ok(true)
    }

    /// Takes what the buffer holds as the chunk, where none is held.
    fn cut_chunk(&mut self) -> Result<(), ReadError>
        requires none { length self.old.chunk ≡ 0 }
        ensures cut { self.new.chunk ++ self.new.buffer.items ≡ self.old.chunk ++ self.old.buffer.items }
        ensures chunk { OnOk result (self.new.chunk ≡ self.old.buffer.items) }
        ensures rest { OnOk result (self.new.buffer.items ≡ []) }
        ensures error { IfErr result (λ error. error ≡ OutOfMemory) }
        ensures decoder { self.new.decoder ≡ self.old.decoder }
    {
        self.chunk = self.buffer.freeze_to(self.buffer.len())?;
        Ok(())
    }

    /// Reads once, if the buffer is empty. Returns whether the stream goes on.
    fn read<R: Read>(&mut self, reader: &mut R) -> Result<bool, ReadError>
        ensures bytes { (read : List ℕ) × Consumes (R.remaining reader.old) (R.remaining reader.new) read
            × (self.new.buffer.items ≡ self.old.buffer.items ++ read) }
        ensures end { IfOk result (λ more. more ≡ false → IsAtEnd (R.remaining reader.new)
            × (self.new.buffer.items ≡ [])) }
        ensures some { IfOk result (λ more. more ≡ true → 0 < length self.new.buffer.items) }
        ensures idle { 0 < length self.old.buffer.items → reader.new ≡ reader.old }
        ensures error { IfErr result (LosesNothing None self.old.buffer.items self.new.buffer.items) }
        ensures decoder { self.new.decoder ≡ self.old.decoder }
        ensures chunk { self.new.chunk ≡ self.old.chunk }
    {
        if !self.buffer.is_empty() {
            return Ok(true);
        }
        if self.buffer.capacity() < LEAST_ROOM {
            self.buffer.reserve(CHUNK)?;
        }
        let room = self.buffer.capacity().min(self.most);
        self.buffer.advance_mut(room);
        match read_some(reader, self.buffer.as_mut_slice()) {
            Ok(count) => {
                self.buffer.truncate(count);
                Ok(count > 0)
            }
            Err(reason) => {
                self.buffer.truncate(0);
                Err(ReadError::Failed(reason))
            }
        }
    }
}

/// The result at the end of a stream whose last bytes a decoder holds.
fn end_of(decoder: &Decoder) -> Result<Option<(u64, Item)>, ReadError>
    ensures result { without_word result ≡ result_at_end decoder.now.bytes }
    ensures word { (bytes : List ℕ) → HasWord result bytes }
{
    match decoder.pending() {
        0 => Ok(None),
        count => Err(ReadError::Truncated(count)),
    }
}
