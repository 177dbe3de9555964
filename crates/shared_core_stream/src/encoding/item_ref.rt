//! An item that is borrowed from the bytes of a stream.

ghost use Rattle.std.specs.Prelude.{◌≡◌, ◌+◌, length, IfOk, IfErr};
ghost use Rattle.std.specs.Int.{w64, to_be_bytes};
ghost use Rattle.shared_core_stream.specs.Borrowed.{IsAtFront, IsMissing};

use crate::encoding::announced::Announced;
use shared_core_base::header::MessageHeader;
use shared_core_base::version::Version;
use std::error::Error;
use std::fmt;

/// The kind of an item, by its first eight bytes at a version.
#[derive(Clone, Copy, Debug, PartialEq, Eq)]
pub enum ItemKind {
    /// A message with this header.
    Message(MessageHeader),
    /// A header whose code, this one, is unassigned, before V9. No payload belongs to it.
    Unknown(u16),
    /// A message whose code, this one, is unassigned, from V9 on.
    Skipped(u16),
}

/// An item of a stream, as an `Item` that owns nothing.
///
/// Its bytes are the eight of `head` and the payload. Written one after the other, they encode the same item, even if
/// its code is unassigned.
#[derive(Clone, Copy, Debug, PartialEq, Eq)]
pub struct ItemRef<'a> {
    /// Its first eight bytes as a number, the most significant byte first.
    pub word: u64,
    /// Its kind.
    pub kind: ItemKind,
    /// The bytes after them; none of an unknown header.
    pub payload: &'a [u8],
}

impl<'a> ItemRef<'a> {
    /// The item that the bytes begin with, and the bytes after it. It copies nothing and does not allocate.
    ///
    /// The error has the least number of missing bytes: of a header that is not whole, otherwise of the payload that it
    /// announces. With fewer bytes appended, no complete item is at the front.
    #[inline(always)]
    pub fn first(version: Version, bytes: &'a [u8]) -> Result<(ItemRef<'a>, &'a [u8]), MissingBytes>
        ensures item { IfOk result (λ found. IsAtFront version bytes.now found.0 found.1.now) }
        ensures missing { IfErr result (λ missing. IsMissing version bytes.now missing.count) }
    {
        let Some((head, body)) = bytes.split_first_chunk::<8>() else {
            return Err(MissingBytes {
                count: MessageHeader::SIZE - bytes.len(),
            });
        };
        let word = u64::from_be_bytes(*head);
        let announced = Announced::by(version, word);
        let length = announced.payload_len() as usize;
        if body.len() < length {
            return Err(MissingBytes {
                count: length - body.len(),
            });
        }
        let (payload, rest) = body.split_at(length);
        let item = ItemRef {
            word,
            kind: announced.kind(),
            payload,
        };
        Ok((item, rest))
    }

    /// Its first eight bytes.
    pub fn head(&self) -> [u8; 8]
        ensures { result ≡ to_be_bytes w64 self.now.word }
    {
        self.word.to_be_bytes()
    }

    /// The number of its bytes, those of the payload included.
    pub fn size(&self) -> u64
        ensures { result ≡ 8 + length self.now.payload.now }
    {
        8 + self.payload.len() as u64
    }
}

/// Bytes that do not begin with a complete item.
#[derive(Clone, Copy, Debug, PartialEq, Eq)]
pub struct MissingBytes {
    /// The least number of missing bytes, which is never 0.
    pub count: usize,
}

impl fmt::Display for MissingBytes {
    ghost use Rattle.std.specs.Prelude.{Some};
    ghost use Rattle.shared_core_stream.specs.Errors.{missing_bytes_text};

    ghost output = { λ missing. Some (missing_bytes_text missing) };

    fn fmt<W: fmt::Write>(&self, f: &mut fmt::Formatter<W>) -> fmt::Result {
        let count = self.count;
        write!(f, "at least {count} bytes are missing of an item")
    }
}

impl Error for MissingBytes {}
