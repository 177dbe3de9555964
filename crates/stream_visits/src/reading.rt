//! The loops that read a stream: to give its items to a visitor, or for one of them.

ghost use Rattle.std.specs.Prelude.{◌≤◌, ℕ, List, []};
ghost use Rattle.std.specs.Io.KnownBytes.{Consumes};
ghost use Rattle.shared_core_base.specs.Version.{version_number};
ghost use Rattle.stream_visits.specs.Visits.{AreVisited, IsItemAt};

use crate::visitor::Visitor;
use shared_core_base::version::Version;
use shared_core_io::{ItemBuffer, ReadError};
use shared_core_stream::encoding::Item;
use std::alloc::Global;
use std::io::Read;
use stream_lines::PrintError;

/// How a stream is read.
#[derive(Clone, Copy)]
pub struct Options {
    /// The version of the protocol, at least V5 where a stream is read.
    pub version: Version,
    /// The greatest length of a payload that is taken; `u32::MAX` means any length.
    pub limit: u32,
    /// The number of bytes that are read at a time, from 1 to 65,536 where a stream is read.
    pub chunk_size: usize,
}

/// Reads a stream to its end, gives each of its items to a visitor, and returns the number of trailing bytes.
///
/// It holds one item at a time. `Ok` comes only if the reader has no byte left, and then the visitor has all items.
/// `MessageTooLong` comes if a message is longer than the limit, as soon as its header is read; `TooLong` only if an
/// item is too long for the visitor; `Input` if a read fails; `OutOfMemory`. `Output` never comes.
pub fn visit<V: Visitor, R: Read>(
    alloc: Global,
    options: &Options,
    visitor: &mut V,
    input: &mut R,
) -> Result<u64, PrintError>
    requires spoken { 5 ≤ version_number options.now.version }
    requires low { 1 ≤ options.now.chunk_size }
    requires high { options.now.chunk_size ≤ 65536 }
    requires none { V.has_seen visitor.old options.now.version [] }
    ensures { (read : List ℕ) × Consumes (R.remaining input.old) (R.remaining input.new) read
        × AreVisited (V.has_seen visitor.new options.now.version) (V.is_long options.now.version) options.now.version
        options.now.limit result read (R.remaining input.new) }
{
    let mut items = ItemBuffer::new(alloc, options.version, options.limit, options.chunk_size);
    for _ in 0..u64::MAX {
        match items.next_with_word(input) {
            Ok(Some((_, item))) => visitor.note(options.version, &item)?,
            Ok(None) => return Ok(0),
            Err(ReadError::Truncated(count)) => return Ok(count),
            Err(ReadError::TooLong(message)) => return Err(PrintError::MessageTooLong(message)),
            Err(ReadError::Failed(_)) => return Err(PrintError::Input),
            Err(ReadError::OutOfMemory) => return Err(PrintError::OutOfMemory),
        }
    }
    Err(PrintError::Input)
}

/// Reads a stream up to the item of an index, counted from 0, and returns it; `None` if the stream ends before it.
///
/// `MessageTooLong` comes if that item, or one before it, is a message longer than the limit; `Input` if a read fails;
/// `OutOfMemory`. No other error comes.
pub fn item_at<R: Read>(
    alloc: Global,
    options: &Options,
    index: u64,
    input: &mut R,
) -> Result<Option<Item>, PrintError>
    requires spoken { 5 ≤ version_number options.now.version }
    requires low { 1 ≤ options.now.chunk_size }
    requires high { options.now.chunk_size ≤ 65536 }
    ensures { (read : List ℕ) × Consumes (R.remaining input.old) (R.remaining input.new) read
        × IsItemAt options.now.version options.now.limit index result read (R.remaining input.new) }
{
    let mut items = ItemBuffer::new(alloc, options.version, options.limit, options.chunk_size);
    for at in 0..u64::MAX {
        match items.next_with_word(input) {
            Ok(Some((_, item))) => {
                if at == index {
                    return Ok(Some(item));
                }
            }
            Ok(None) => return Ok(None),
            Err(ReadError::Truncated(_)) => return Ok(None),
            Err(ReadError::TooLong(message)) => return Err(PrintError::MessageTooLong(message)),
            Err(ReadError::Failed(_)) => return Err(PrintError::Input),
            Err(ReadError::OutOfMemory) => return Err(PrintError::OutOfMemory),
        }
    }
    Err(PrintError::Input)
}
