//! What `cut` and `cat` have in common: files whose items are read first, and then parts of their bytes.

ghost use Rattle.std.specs.Prelude.{◌≡◌, ◌≤◌};
ghost use Rattle.std.specs.Process.{exit_status};
ghost use Rattle.shared_core_base.specs.Version.{version_number};

mod announcing;

use crate::beginning::{Beginning, Begun};
use crate::call::{Call, rest_at};
use crate::file::File;
use crate::parts::announcing::announcing;
use command_line::{Decoding, Pipe, Progress, fail, input_size, note};
use shared_core::encoding::RawMessage;
use std::io::Stdout;
use std::process::ExitCode;
use stream_lines::output::write_whole;
use stream_parts::{CopyError, LocateError, Located, Options, Part, Range, copy_part, locate};

/// The number of bytes that are read at a time.
const CHUNK: usize = 65536;

/// The status if a stream has no message, or lacks a command.
pub const LACKING: u8 = 1;

/// How the items of a file are read.
fn options_of(file: &File<'_>) -> Options
    ensures { (result.version ≡ file.now.options.version) × (result.limit ≡ file.now.options.limit)
        × (result.chunk_size ≡ CHUNK) }
{
    Options {
        version: file.options.version,
        limit: file.options.limit,
        chunk_size: CHUNK,
    }
}

impl<'a> File<'a> {
    /// Reads the items of the file, and returns where the commands of a range are. The error is the status, after what
    /// is wrong was reported.
    pub fn locate(&self, call: &Call<'_>, range: Range) -> Result<Located, ExitCode>
        requires { 5 ≤ version_number self.now.options.version }
    {
        let input = self.open_again(call)?;
        let options = options_of(self);
        let progress = Progress::beside_output(call.rt, call.name, input_size(&input));
        let beginning = Beginning::new();
        let mut input = Begun::new(
            Decoding::new(input, self.path, self.options.encoding, &progress),
            &beginning,
        );
        let located = locate(call.rt.alloc(), &options, range, &mut input);
        progress.clear();
        if progress.has_reported() {
            return Err(ExitCode::from(call.failure));
        }
        self.check(call, &beginning, located)
    }

    /// Reports what is wrong with the items, and the trailing bytes, which are never written.
    fn check(
        &self,
        call: &Call<'_>,
        beginning: &Beginning,
        located: Result<Located, LocateError>,
    ) -> Result<Located, ExitCode> {
        let path = self.path;
        let located = match located {
            Ok(located) => located,
            Err(error) => return Err(fail(
                call.rt,
                call.name,
                format_args!("{path}: {error}"),
                call.failure,
            )),
        };
        let (offset, count) = (located.all.size, located.rest);
        if count > 0 {
            let rest = rest_at(offset, count);
            note(call.rt, call.name, format_args!("{path}: {rest}, left out"));
        }
        if count > 0 && offset == 0 {
            beginning.report_no_message(call, self.options.version);
            return Err(ExitCode::from(LACKING));
        }
        Ok(located)
    }

    /// Writes the start message, announcing this many entries. Returns whether it has written one: where it stays as it
    /// is, it is copied. The error is the status, after what is wrong was reported.
    pub fn write_start(
        &self,
        call: &Call<'_>,
        start: &RawMessage,
        entries: u128,
        output: &mut Pipe<Stdout>,
    ) -> Result<bool, ExitCode>
        requires { 5 ≤ version_number self.now.options.version }
    {
        let frame = match announcing(call.rt.alloc(), self.options.version, start, entries) {
            Ok(Some(frame)) => frame,
            Ok(None) => return Ok(false),
            Err(error) => return Err(call.fail(error, call.failure)),
        };
        match write_whole(output, frame.as_slice()) {
            Ok(()) => Ok(true),
            Err(_) => Err(fail_output(call, output)),
        }
    }

    /// Copies a part of the file. The error is the status, after what is wrong was reported.
    pub fn copy(
        &self,
        call: &Call<'_>,
        part: &Part,
        output: &mut Pipe<Stdout>,
    ) -> Result<(), ExitCode> {
        let input = self.open_again(call)?;
        let progress = Progress::beside_output(call.rt, call.name, input_size(&input));
        let mut input = Decoding::new(input, self.path, self.options.encoding, &progress);
        let copied = copy_part(call.rt.alloc(), part, &mut input, output);
        progress.clear();
        let path = self.path;
        match copied {
            Ok(()) => Ok(()),
            Err(CopyError::Output) => Err(fail_output(call, output)),
            Err(error) => Err(call.fail_reading(format_args!("{path}: {error}"), &progress)),
        }
    }
}

/// The status after the output failed, which is reported unless its reader has closed it.
fn fail_output(call: &Call<'_>, output: &Pipe<Stdout>) -> ExitCode
    ensures { exit_status result ≡ call.now.failure }
{
    if output.is_broken() {
        return ExitCode::from(call.failure);
    }
    call.fail("output failed", call.failure)
}
