//! Streams that are opened, and printed: one is read to its end, and what is made of it is written to the output.

ghost use Rattle.std.specs.Prelude.{◌≡◌, IfErr, IfOk, IfSome, unwrap_or, length, []};
ghost use Rattle.std.specs.Io.Cursor.{cursor_position};
ghost use Rattle.std.specs.Process.{exit_status};
ghost use Rattle.either.specs.Either.{ForRight};
ghost use Rattle.journal.specs.Opened.{made_bytes, IsOpenedBy, IsReadBy};

use crate::beginning::{Beginning, Begun};
use crate::call::Call;
use crate::file::File;
use command_line::{Decoding, Input, Pipe, Progress, input_size};
use either::Either;
use encoded_input::Encoding;
use std::io::{Cursor, Read, Write};
use std::process::ExitCode;
use stream_lines::PrintError;

/// What a stream is read from: a file or the standard input, or a stream that was made of it.
pub type Source = Either<Input, Cursor<Vec<u8>>>;

/// What is printed of a stream.
pub trait Print {
    /// What is reported of it afterwards.
    type Found: Drop;

    /// It can be called: its version is a supported one, say.
    ghost is_ready: { Self → Type 0 };

    /// Reads the stream, and writes what is made of it.
    fn print<R: Read, W: Write>(
        &self,
        call: &Call<'_>,
        input: &mut R,
        output: &mut W,
    ) -> Result<Self::Found, PrintError>
        requires { is_ready self.now };

    /// Reports what was found, and returns the status.
    fn end(&self, call: &Call<'_>, beginning: &Beginning, found: Self::Found) -> ExitCode;
}

/// A stream that is opened.
#[derive(Drop)]
pub struct Opened {
    pub source: Source,
    /// How it is written, if it is text.
    pub encoding: Option<Encoding>,
    /// The greatest length of a payload that is taken of it.
    pub limit: u32,
    /// Where the trailing bytes of the file begin, if its payloads had other numbers.
    pub end: Option<u128>,
}

impl Opened {
    /// A stream that was made of a whole file.
    pub fn made(stream: Vec<u8>, limit: u32) -> Opened
        ensures bytes { made_bytes result ≡ Some stream.items }
        ensures start { ForRight result.source (λ made. cursor_position made ≡ 0) }
        ensures options { IsReadBy None limit result }
    {
        Opened {
            source: Either::Right(Cursor::new(stream)),
            encoding: None,
            limit,
            end: None,
        }
    }

    /// The bytes of a stream that was made; none of another one.
    pub fn bytes(&self) -> &[u8]
        ensures { result.now ≡ unwrap_or (made_bytes self.now) [] }
    {
        match &self.source {
            Either::Left(_) => &[],
            Either::Right(stream) => stream.get_ref().as_slice(),
        }
    }

    /// Its size in bytes, if it has one.
    pub fn size(&self) -> Option<u64>
        ensures { IfSome (made_bytes self.now) (λ bytes. result ≡ Some (length bytes)) }
    {
        match &self.source {
            Either::Left(input) => input_size(input),
            Either::Right(stream) => u64::try_from(stream.get_ref().len()).ok(),
        }
    }

    /// Prints the stream, that of a path, while its progress is shown, and returns the status. The error is a status
    /// too: reading, writing or an allocation failed, which was reported.
    pub fn print<P: Print>(
        self,
        call: &Call<'_>,
        path: &str,
        printing: &P,
    ) -> Result<ExitCode, ExitCode>
        requires { P.is_ready printing.now }
        ensures { IfErr result (λ status. exit_status status ≡ call.now.failure) }
    {
        let progress = Progress::beside_output(call.rt, call.name, self.size());
        let beginning = Beginning::new();
        let mut input = Begun::new(
            Decoding::new(self.source, path, self.encoding, &progress),
            &beginning,
        );
        let mut output = Pipe::new(call.rt.stdout());
        let printed = printing.print(call, &mut input, &mut output);
        progress.clear();
        match printed {
            Ok(found) => Ok(printing.end(call, &beginning, found)),
            Err(error) => Err(call.fail_printing(error, output.is_broken(), &progress)),
        }
    }
}

impl<'a> File<'a> {
    /// Opens the file. The error is the status, after it was reported why it cannot be opened.
    pub fn open(&self, call: &Call<'_>) -> Result<Opened, ExitCode>
        ensures { IfOk result (IsOpenedBy self.now.options) }
    {
        Ok(Opened {
            source: Either::Left(call.open(self.path)?),
            encoding: self.options.encoding,
            limit: self.options.limit,
            end: None,
        })
    }
}
