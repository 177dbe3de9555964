//! The items of a stream read, to find the commands of a range.

ghost use Rattle.std.specs.Prelude.{◌≤◌, ℕ, List};
ghost use Rattle.std.specs.Io.KnownBytes.{Consumes};
ghost use Rattle.shared_core_base.specs.Version.{version_number};
ghost use Rattle.stream_parts.specs.Parts.{IsLocated};

use crate::error::LocateError;
use crate::located::Located;
use crate::range::Range;
use crate::scan::Scan;
use shared_core_base::version::Version;
use shared_core_io::{ItemBuffer, ReadError};
use std::alloc::Global;
use std::io::Read;

/// How a stream is read.
#[derive(Clone, Copy)]
pub struct Options {
    /// The version of the protocol, at least V5 where a stream is read.
    pub version: Version,
    /// The greatest length of a payload that is taken; `u32::MAX` for any length.
    pub limit: u32,
    /// The number of bytes that are read at a time, from 1 to 65,536 where a stream is read.
    pub chunk_size: usize,
}

/// Reads a stream to its end, and returns where the commands of a range are in it.
///
/// It holds one item at a time, and the start message. `MessageTooLong` if a message is longer than the limit, as soon
/// as its header was read; `Input` if a read fails; `OutOfMemory`. A range with commands that the stream lacks is
/// accepted: `Range::is_lacking` decides it.
pub fn locate<R: Read>(
    alloc: Global,
    options: &Options,
    range: Range,
    input: &mut R,
) -> Result<Located, LocateError>
    requires spoken { 5 ≤ version_number options.now.version }
    requires low { 1 ≤ options.now.chunk_size }
    requires high { options.now.chunk_size ≤ 65536 }
    ensures { (read : List ℕ) × Consumes (R.remaining input.old) (R.remaining input.new) read
        × IsLocated options.now.version options.now.limit range result read (R.remaining input.new) }
{
    let mut items = ItemBuffer::new(alloc, options.version, options.limit, options.chunk_size);
    let mut scan = Scan::new(range);
    for _ in 0..u64::MAX {
        match items.next_with_word(input) {
            Ok(Some((_, item))) => scan.note(item),
            Ok(None) => return Ok(scan.finish(0)),
            Err(ReadError::Truncated(count)) => return Ok(scan.finish(count)),
            Err(ReadError::TooLong(message)) => return Err(LocateError::MessageTooLong(message)),
            Err(ReadError::Failed(_)) => return Err(LocateError::Input),
            Err(ReadError::OutOfMemory) => return Err(LocateError::OutOfMemory),
        }
    }
    Err(LocateError::Input)
}
