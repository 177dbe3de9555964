//! Writing all of some bytes, or saying how many were written.

ghost use Rattle.std.specs.Prelude.{◌≡◌, ◌<◌, ◌≤◌, length, IfOk, IfErr, Err};
ghost use Rattle.std.specs.Io.KnownBytes.{Appends, WriteAppends};
ghost use Rattle.shared_core_io.specs.Writing.{written};

use std::error::Error;
use std::io::Write;
use std::{fmt, io};

/// Not all bytes were written.
#[derive(Clone, Copy, Debug, Drop)]
pub struct WriteError {
    /// How many of them were: the first ones.
    pub written: usize,
    /// Why no more were. A write that was interrupted is not a reason, and is repeated.
    pub reason: io::Error,
}

// std says nothing of the text of the reason, so this has no output that a contract could name
impl fmt::Display for WriteError {
    fn fmt<W: fmt::Write>(&self, f: &mut fmt::Formatter<W>) -> fmt::Result {
        write!(
            f,
            "writing failed after {} bytes: {}",
            self.written, self.reason
        )
    }
}

impl Error for WriteError {}

/// Writes until all bytes are written, a write fails, or one writes nothing (`WriteZero`). The error has the number of
/// bytes that were written, the first ones and not all.
pub fn write_whole<W: Write>(output: &mut W, bytes: &[u8]) -> Result<(), WriteError>
    ensures written { Appends (W.contents output.old) (W.contents output.new) (written result bytes.now) }
    ensures part { IfErr result (λ error. error.written < length bytes.now) }
{
    if bytes.is_empty() {
        return Ok(());
    }
    let mut written = 0;
    for _ in 0..u64::MAX {
        match write_some(output, &bytes[written..]) {
            Ok(count) => written += count,
            Err(reason) => return fail(written, reason),
        }
        if written == bytes.len() {
            return Ok(());
        }
    }
    fail(written, io::Error::from(io::ErrorKind::TimedOut))
}

/// Writes once, some of the bytes; none, if the write is interrupted.
fn write_some<W: Write>(output: &mut W, bytes: &[u8]) -> io::Result<usize>
    ensures bound { IfOk result (λ count. count ≤ length bytes.now) }
    ensures written { WriteAppends (W.contents output.old) (W.contents output.new) result bytes.now }
{
    match output.write(bytes) {
        Ok(0) => Err(io::Error::from(io::ErrorKind::WriteZero)),
        Err(reason) if reason.kind() == io::ErrorKind::Interrupted => Ok(0),
        result => result,
    }
}

/// The error that this many bytes were written.
fn fail(written: usize, reason: io::Error) -> Result<(), WriteError>
    ensures { result ≡ Err (record { written = written; reason = reason }) }
{
    Err(WriteError { written, reason })
}
