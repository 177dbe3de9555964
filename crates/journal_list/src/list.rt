//! The listing of a stream, from any reader to any writer.

ghost use Rattle.std.specs.Prelude.{◌≤◌, ℕ, List};
ghost use Rattle.std.specs.Io.KnownBytes.{Appends, Consumes};
ghost use Rattle.shared_core_base.specs.declared.version.Version.TheVariants.{V8};
ghost use Rattle.shared_core_base.specs.Version.{version_number};
ghost use Rattle.journal_list.specs.Listing.{IsListed};

use crate::error::ListError;
use list_lines::Options;
use shared_core_base::version::Version;
use std::alloc::Global;
use std::io::{Read, Write};
use stream_lines::{PrintError, Reading};

/// The listing of a V8 stream, as `list_at` writes it without a limit.
pub fn list<R: Read, W: Write>(
    alloc: Global,
    input: &mut R,
    output: &mut W,
    chunk_size: usize,
) -> Result<(), ListError>
    requires low { 1 ≤ chunk_size }
    requires high { chunk_size ≤ 65536 }
    ensures { (read : List ℕ) × (written : List ℕ)
        × Consumes (R.remaining input.old) (R.remaining input.new) read
        × Appends (W.contents output.old) (W.contents output.new) written
        × IsListed V8 4294967295 result read written (R.remaining input.new) }
{
    let reading = Reading {
        alloc,
        version: Version::V8,
        limit: u32::MAX,
        chunk: chunk_size,
    };
    list_at(reading, input, output)
}

/// Writes one line per item of a stream, and at its end the count of the trailing bytes.
///
/// It reads at most `chunk` bytes at a time, and writes the lines of the items that a chunk completes before it reads
/// the next. `Ok` comes only if the reader has no byte left, and then all is written. After
/// `Input` the lines of all items of what was read are written; after `Output` a prefix of these lines, or of all if
/// the input had ended; after `OutOfMemory` the lines of the first items. `MessageTooLong` comes after the lines of the
/// items before the first message whose payload is longer than the limit.
pub fn list_at<R: Read, W: Write>(
    reading: Reading,
    input: &mut R,
    output: &mut W,
) -> Result<(), ListError>
    requires spoken { 5 ≤ version_number reading.version }
    requires low { 1 ≤ reading.chunk }
    requires high { reading.chunk ≤ 65536 }
    ensures { (read : List ℕ) × (written : List ℕ)
        × Consumes (R.remaining input.old) (R.remaining input.new) read
        × Appends (W.contents output.old) (W.contents output.new) written
        × IsListed reading.version reading.limit result read written (R.remaining input.new) }
{
    let options = Options {
        version: reading.version,
        limit: reading.limit,
        chunk_size: reading.chunk,
        names: &[],
    };
    match list_lines::list(reading.alloc, &options, input, output) {
        Ok(_) => Ok(()),
        Err(PrintError::Input) => Err(ListError::Input),
        Err(PrintError::Output) => Err(ListError::Output),
        Err(PrintError::OutOfMemory) => Err(ListError::OutOfMemory),
        // no item is too long for its line
        Err(PrintError::TooLong) => unreachable!(),
        Err(PrintError::MessageTooLong(message)) => Err(ListError::MessageTooLong(message)),
    }
}
