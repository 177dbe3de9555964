//! Writing all bytes, or a prefix of them if the output fails. (The contract of the standard library's `write_all` does
//! not say what is written after an error.) Of an error of `shared_core_io::write_whole` the lines of programs need
//! neither the count nor the reason.

ghost use Rattle.std.specs.Prelude.{ℕ, List};
ghost use Rattle.std.specs.Io.KnownBytes.{Appends};
ghost use Rattle.stream_lines.specs.Written.{IsWritten};

use std::error::Error;
use std::fmt;
use std::io::Write;

/// A write failed, or wrote no byte.
#[derive(Debug, Clone, Copy, Drop)]
pub struct OutputFailed;

impl fmt::Display for OutputFailed {
    ghost use Rattle.std.specs.Prelude.{Some, codes};

    ghost output = { λ _. Some (codes "output failed") };

    fn fmt<W: fmt::Write>(&self, f: &mut fmt::Formatter<W>) -> fmt::Result {
        f.write_str("output failed")
    }
}

impl Error for OutputFailed {}

/// Writes until all bytes are written, a write fails, or one writes nothing. In the last two cases a prefix of the
/// bytes is written. A write that was interrupted is repeated.
pub fn write_whole<W: Write>(output: &mut W, bytes: &[u8]) -> Result<(), OutputFailed>
    ensures { (written : List ℕ)
        × Appends (W.contents output.old) (W.contents output.new) written
        × IsWritten result written bytes.now }
{
    match shared_core_io::write_whole(output, bytes) {
        Ok(()) => Ok(()),
        Err(_) => Err(OutputFailed),
    }
}
