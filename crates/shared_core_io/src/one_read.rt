//! One read of a stream.

ghost use Rattle.std.specs.Prelude.{◌≢◌, ◌≤◌, length, IfOk, IfErr};
ghost use Rattle.std.specs.IoError.{error_kind};
ghost use Rattle.std.specs.declared.io.ErrorKind.TheVariants.{Interrupted};
ghost use Rattle.std.specs.Io.KnownBytes.{ReadConsumes};

use std::io;
use std::io::Read;

/// Reads once into a buffer, and returns how many bytes came; none in a buffer with room mean the end of the stream. A
/// read that is interrupted takes nothing, and is repeated.
///
/// The error is that of the read. A reader that is interrupted 2^64 times, and so would never answer, has timed out.
pub fn read_some<R: Read>(reader: &mut R, buffer: &mut [u8]) -> io::Result<usize>
    ensures bound { IfOk result (λ count. count ≤ length buffer.old) }
    ensures bytes { ReadConsumes (R.remaining reader.old) (R.remaining reader.new) result buffer.new }
    ensures retried { IfErr result (λ reason. error_kind reason ≢ Interrupted) }
{
    for _ in 0..u64::MAX {
        match reader.read(buffer) {
            Err(reason) if reason.kind() == io::ErrorKind::Interrupted => {}
            result => return result,
        }
    }
    Err(io::Error::from(io::ErrorKind::TimedOut))
}
