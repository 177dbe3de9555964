//! The call that makes a stream of lines, from any reader to any writer.

ghost use Rattle.std.specs.Prelude.{◌≡◌, ◌++◌, ℕ, List, [], false, IfOk};
ghost use Rattle.std.specs.Io.KnownBytes.{Appends, Consumes};
ghost use Rattle.make_lines.specs.Lines.{line_made};
ghost use Rattle.make_lines.specs.Appending.{IsRejected, AppendsLine};
ghost use Rattle.make_lines.specs.Making.{making};
ghost use Rattle.make_lines.specs.Made.{has_newline, IsMade};
ghost use Rattle.make_lines.specs.Steps.{IsTaken, IsStep, IsFinished, LineIsTaken};

use crate::error::{LineError, LineReason, MakeError};
use crate::line::Buffers;
use crate::line_table::LineTable;
use crate::maker::Maker;
use crate::reject::out_of_memory;
use memchr::memchr;
use shared_core_io::read_some;
use shared_core_json_reader::Reason;
use std::alloc::AllocError;
use std::io::{Read, Write};
use stream_lines::output::write_whole;

/// The number of bytes that are read at a time.
const CHUNK: usize = 65536;

/// What was read and is not written yet.
#[derive(Drop)]
pub struct Lines {
    /// The bytes of the last line, whose newline has not come.
    pub pending: Vec<u8>,
    /// The number of lines that were taken, or 2^64 - 1 if it is greater.
    pub taken: u64,
    /// What these lines mean and is not written yet.
    pub made: Vec<u8>,
}

/// A rejected line, with its number.
#[derive(Drop)]
pub struct Rejected {
    pub number: u64,
    pub error: LineError,
}

/// The line that the pending bytes and then these are. A line that was received in one chunk is not copied.
#[inline(always)]
fn whole_line<'a>(pending: &'a mut Vec<u8>, end: &'a [u8]) -> Result<&'a [u8], AllocError>
    ensures { IfOk result (λ line. line.now ≡ pending.old.items ++ end.now) }
{
    if pending.is_empty() {
        return Ok(end);
    }
    pending.extend_from_slice(end)?;
    Ok(pending.as_slice())
}

impl<'a, M: LineTable> Maker<'a, M> {
    /// Appends what the line means that the pending bytes and then these are.
    #[inline(always)]
    fn append_ended(
        &self,
        end: &[u8],
        buffers: &mut Buffers,
        lines: &mut Lines,
    ) -> Result<(), LineError>
        ensures made { AppendsLine (making (M.messages self.now.messages.now) self.now.version)
            (lines.old.pending.items ++ end.now) result lines.old.made.items lines.new.made.items }
        ensures taken { lines.new.taken ≡ lines.old.taken }
    {
        match whole_line(&mut lines.pending, end) {
            Ok(line) => self.append_line(line, buffers, &mut lines.made),
            Err(_) => Err(out_of_memory(self.alloc)),
        }
    }

    /// Takes the pending bytes, and then these, as a line.
    #[inline(always)]
    fn take_line(
        &self,
        end: &[u8],
        buffers: &mut Buffers,
        lines: &mut Lines,
    ) -> Result<Option<Rejected>, AllocError>
        ensures { LineIsTaken (line_made (making (M.messages self.now.messages.now) self.now.version))
            (IsRejected (making (M.messages self.now.messages.now) self.now.version)) end.now result
            lines.old lines.new }
    {
        let number = lines.taken.saturating_add(1);
        match self.append_ended(end, buffers, lines) {
            Ok(()) => {
                lines.taken = number;
                lines.pending.clear();
                Ok(None)
            }
            Err(error) if error.reason == LineReason::Json(Reason::OutOfMemory) => Err(AllocError),
            Err(error) => Ok(Some(Rejected { number, error })),
        }
    }

    /// Takes the lines that a chunk ends, up to a rejected one.
    fn take_chunk(
        &self,
        chunk: &[u8],
        buffers: &mut Buffers,
        lines: &mut Lines,
    ) -> Result<Option<Rejected>, AllocError>
        requires { has_newline lines.old.pending.items ≡ false }
        ensures { IsTaken (line_made (making (M.messages self.now.messages.now) self.now.version))
            (IsRejected (making (M.messages self.now.messages.now) self.now.version))
            (lines.old.pending.items ++ chunk.now) result lines.old lines.new }
    {
        let mut rest = chunk;
        while let Some(at) = memchr(b'\n', rest) {
            if let Some(rejected) = self.take_line(&rest[..at], buffers, lines)? {
                return Ok(Some(rejected));
            }
            rest = &rest[at + 1..];
        }
        lines.pending.extend_from_slice(rest)?;
        Ok(None)
    }

    /// Takes the lines that a chunk ends, and writes what they mean.
    fn step<W: Write>(
        &self,
        chunk: &[u8],
        buffers: &mut Buffers,
        lines: &mut Lines,
        output: &mut W,
    ) -> Result<(), MakeError>
        requires written { lines.old.made.items ≡ [] }
        requires unended { has_newline lines.old.pending.items ≡ false }
        ensures { (written : List ℕ)
            × Appends (W.contents output.old) (W.contents output.new) written
            × IsStep (line_made (making (M.messages self.now.messages.now) self.now.version))
            (IsRejected (making (M.messages self.now.messages.now) self.now.version))
            (lines.old.pending.items ++ chunk.now) result written lines.old lines.new }
    {
        let rejected = self.take_chunk(chunk, buffers, lines)?;
        write_whole(output, lines.made.as_slice())?;
        lines.made.clear();
        match rejected {
            Some(rejected) => Err(MakeError::Line(rejected.number, rejected.error)),
            None => Ok(()),
        }
    }

    /// Takes the pending bytes as the last line, and writes what it means.
    fn finish<W: Write>(
        &self,
        buffers: &mut Buffers,
        lines: &mut Lines,
        output: &mut W,
    ) -> Result<(), MakeError>
        requires { lines.old.made.items ≡ [] }
        ensures { (written : List ℕ)
            × Appends (W.contents output.old) (W.contents output.new) written
            × IsFinished (line_made (making (M.messages self.now.messages.now) self.now.version))
            (IsRejected (making (M.messages self.now.messages.now) self.now.version)) result written lines.old }
    {
        if let Some(rejected) = self.take_line(&[], buffers, lines)? {
            return Err(MakeError::Line(rejected.number, rejected.error));
        }
        write_whole(output, lines.made.as_slice())?;
        Ok(())
    }

    /// Writes the bytes that lines of JSON mean: each line means an item, or the bytes after the last item. Messages
    /// are read by a table.
    ///
    /// It reads at most 65,536 bytes at a time, and writes what the lines mean that a chunk ends before it reads the
    /// next. The last line may lack its newline. `Ok` comes only if the reader has no byte left, and then all is
    /// written. After `Input` what all lines mean that were read is written; after `Output` a prefix of what the first
    /// lines mean; after `OutOfMemory` what the first lines mean; after `Line` what the lines before the rejected one
    /// mean.
    pub fn make<R: Read, W: Write>(&self, input: &mut R, output: &mut W) -> Result<(), MakeError>
        ensures { (read : List ℕ) × (written : List ℕ)
            × Consumes (R.remaining input.old) (R.remaining input.new) read
            × Appends (W.contents output.old) (W.contents output.new) written
            × IsMade (making (M.messages self.now.messages.now) self.now.version) result read written
            (R.remaining input.new) }
    {
        let mut lines = Lines {
            pending: Vec::new(self.alloc),
            taken: 0,
            made: Vec::new(self.alloc),
        };
        let mut buffer = Vec::from_elem(self.alloc, 0u8, CHUNK)?;
        let buffer = buffer.as_mut_slice();
        let mut buffers = Buffers::new(self.alloc);
        for _ in 0..u64::MAX {
            let Ok(count) = read_some(input, buffer) else {
                return Err(MakeError::Input);
            };
            if count == 0 {
                return self.finish(&mut buffers, &mut lines, output);
            }
            self.step(&buffer[..count], &mut buffers, &mut lines, output)?;
        }
        Err(MakeError::Input)
    }
}
