//! Bytes of a stream copied to a writer.

ghost use Rattle.std.specs.Prelude.{◌≡◌, ◌≤◌, ◌<◌, ℕ, List, length};
ghost use Rattle.std.specs.Io.KnownBytes.{Appends, Consumes};
ghost use Rattle.stream_parts.specs.Copying.{ordered, IsCopied, IsPassedOn, IsPassedOver};
ghost use Rattle.stream_parts.specs.Copying.{IsReadPart};

use crate::error::CopyError;
use shared_core_io::read_some;
use std::alloc::Global;
use std::io::{Read, Write};
use stream_lines::output::write_whole;

/// The number of bytes that are read at a time.
const CHUNK: usize = 65536;

/// Two runs of bytes of a stream, one after the other, as offsets. One that is less than the one before it counts as
/// that one.
#[derive(Clone, Copy, Debug, PartialEq, Eq, Drop)]
pub struct Part {
    /// Where the first run begins.
    pub after: u128,
    /// Where the first run ends.
    pub front: u128,
    /// Where the second run begins.
    pub from: u128,
    /// Where the second run ends.
    pub until: u128,
}

/// Writes the two runs of bytes of a stream, one after the other, and reads no further than to the end of the second.
///
/// It reads and writes at most 65,536 bytes at a time. After `Input`, and after `Ended` if the stream has no byte left
/// before the second run ends, those of these bytes are written that were read; after `Output` a prefix of them; after
/// `OutOfMemory` nothing is read or written.
pub fn copy_part<R: Read, W: Write>(
    alloc: Global,
    part: &Part,
    input: &mut R,
    output: &mut W,
) -> Result<(), CopyError>
    ensures { (read : List ℕ) × (written : List ℕ)
        × Consumes (R.remaining input.old) (R.remaining input.new) read
        × Appends (W.contents output.old) (W.contents output.new) written
        × IsCopied (ordered part.now) result read written (R.remaining input.new) }
{
    let part = in_order(part);
    let mut buffer = Vec::from_elem(alloc, 0u8, CHUNK)?;
    let buffer = buffer.as_mut_slice();
    pass_over(input, buffer, part.after)?;
    pass_on(input, output, buffer, part.front - part.after)?;
    pass_over(input, buffer, part.from - part.front)?;
    pass_on(input, output, buffer, part.until - part.from)
}

/// The part with offsets of which none is less than the one before it.
fn in_order(part: &Part) -> Part
    ensures is { result ≡ ordered part.now }
    ensures first { result.after ≤ result.front }
    ensures between { result.front ≤ result.from }
    ensures second { result.from ≤ result.until }
{
    let front = part.front.max(part.after);
    let from = part.from.max(front);
    Part {
        after: part.after,
        front,
        from,
        until: part.until.max(from),
    }
}

/// Reads this many bytes.
fn pass_over<R: Read>(input: &mut R, buffer: &mut [u8], count: u128) -> Result<(), CopyError>
    requires { 0 < length buffer.old }
    ensures passed { (read : List ℕ) × Consumes (R.remaining input.old) (R.remaining input.new) read
        × IsPassedOver count result read (R.remaining input.new) }
    ensures room { length buffer.new ≡ length buffer.old }
{
    let mut left = count;
    while left > 0 {
        left -= read_part(input, buffer, left)? as u128;
    }
    Ok(())
}

/// Reads this many bytes, and writes them.
fn pass_on<R: Read, W: Write>(
    input: &mut R,
    output: &mut W,
    buffer: &mut [u8],
    count: u128,
) -> Result<(), CopyError>
    requires { 0 < length buffer.old }
    ensures passed { (read : List ℕ) × (written : List ℕ)
        × Consumes (R.remaining input.old) (R.remaining input.new) read
        × Appends (W.contents output.old) (W.contents output.new) written
        × IsPassedOn count result read written (R.remaining input.new) }
    ensures room { length buffer.new ≡ length buffer.old }
{
    let mut left = count;
    while left > 0 {
        let read = read_part(input, buffer, left)?;
        write_whole(output, &buffer[..read])?;
        left -= read as u128;
    }
    Ok(())
}

/// Reads once, at most this many bytes, and returns how many came to the front of the buffer, at least one.
fn read_part<R: Read>(input: &mut R, buffer: &mut [u8], most: u128) -> Result<usize, CopyError>
    requires room { 0 < length buffer.old }
    requires some { 0 < most }
    ensures read { IsReadPart most (R.remaining input.old) (R.remaining input.new) result buffer.new }
    ensures room { length buffer.new ≡ length buffer.old }
{
    let room = most.min(buffer.len() as u128) as usize;
    match read_some(input, &mut buffer[..room]) {
        Ok(0) => Err(CopyError::Ended),
        Ok(count) => Ok(count),
        Err(_) => Err(CopyError::Input),
    }
}
