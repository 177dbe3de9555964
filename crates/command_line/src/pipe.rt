//! An output that its reader may close.

ghost use Rattle.std.specs.Prelude.{◌≡◌};
ghost use Rattle.std.specs.Io.{WritesAtMost};
ghost use Rattle.std.specs.Io.KnownBytes.{WriteAppends};
ghost use Rattle.command_line.specs.Pipe.{finds_broken};

use std::io::{self, ErrorKind, Write};

/// A writer that records whether its reader has closed it, as `| head -1` does after the first line. A write then
/// fails, which the program does not report.
#[derive(Drop)]
pub struct Pipe<W> {
    writer: W,
    is_broken: bool,
}

impl<W> Pipe<W> {
    ghost use Rattle.std.specs.Prelude.{◌≡◌, false};

    /// Writes to this writer, which is open.
    pub fn new(writer: W) -> Pipe<W>
        ensures { result ≡ record { writer = writer; is_broken = false } }
    {
        Pipe {
            writer,
            is_broken: false,
        }
    }

    /// Whether a write found that the reader has closed it.
    pub fn is_broken(&self) -> bool
        ensures { result ≡ self.now.is_broken }
    {
        self.is_broken
    }
}

impl<W: Write> Write for Pipe<W> {
    ghost contents = { λ pipe. W.contents pipe.writer };

    fn write(&mut self, buf: &[u8]) -> io::Result<usize>
        ensures bound { WritesAtMost result buf.now }
        ensures bytes { WriteAppends (W.contents self.old.writer) (W.contents self.new.writer) result buf.now }
        ensures broken { self.new.is_broken ≡ finds_broken self.old.is_broken result }
    {
        let written = self.writer.write(buf);
        if let Err(error) = &written {
            self.is_broken = matches!(error.kind(), ErrorKind::BrokenPipe);
        }
        written
    }

    fn flush(&mut self) -> io::Result<()> {
        self.writer.flush()
    }
}
