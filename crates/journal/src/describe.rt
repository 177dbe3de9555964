//! Describes streams, files or the standard input: some lines about each.

ghost use Rattle.std.specs.Prelude.{◌≡◌, ◌≤◌};
ghost use Rattle.shared_core_base.specs.Version.{version_number};

use crate::beginning::Beginning;
use crate::call::Call;
use crate::definitions;
use crate::dump::Records;
use crate::file::{File, Files};
use crate::fitting::all_fitting;
use crate::opened::Print;
use command_line::{Pipe, fail};
use shared_core_base::version::Version;
use std::alloc::{AllocError, Global};
use std::io::{Read, Write};
use std::process::ExitCode;
use stream_lines::output::write_whole;
use stream_lines::{PrintError, Report};
use stream_summary::{Options, describe};
use terminal_text::{Escapes, push_escaped};

/// The number of bytes that are read at a time.
const CHUNK: usize = 65536;

impl Print for Options {
    type Found = Report;

    ghost is_ready = { λ options. (5 ≤ version_number options.version) × (1 ≤ options.chunk_size)
        × (options.chunk_size ≤ 65536) };

    fn print<R: Read, W: Write>(
        &self,
        call: &Call<'_>,
        input: &mut R,
        output: &mut W,
    ) -> Result<Report, PrintError> {
        describe(call.rt.alloc(), self, &Records, input, output)
    }

    /// Reports the trailing bytes.
    fn end(&self, call: &Call<'_>, beginning: &Beginning, found: Report) -> ExitCode {
        if found.rest > 0 {
            call.report_rest(found.end, found.rest);
            if found.end == 0 {
                beginning.report_no_message(call, self.version);
            }
        }
        ExitCode::SUCCESS
    }
}

/// The heading of a path among several, after an empty line if it is not the first.
fn heading(alloc: Global, path: &str, is_first: bool) -> Result<String, AllocError> {
    let mut text = String::new(alloc);
    if !is_first {
        text.push_str("\n")?;
    }
    text.push_str("==> ")?;
    push_escaped(&mut text, Escapes::Text, path)?;
    text.push_str(" <==\n")?;
    Ok(text)
}

/// Writes a text, a line or more. The error is the status, after what is wrong was reported.
fn write_text(call: &Call<'_>, text: &str) -> Result<(), ExitCode> {
    let mut output = Pipe::new(call.rt.stdout());
    match write_whole(&mut output, text.as_bytes()) {
        Ok(()) => Ok(()),
        // the reader has closed the output, so nothing is reported
        Err(_) if output.is_broken() => Err(ExitCode::from(call.failure)),
        Err(error) => Err(fail(call.rt, call.name, error, call.failure)),
    }
}

/// Writes a heading.
fn write_heading(call: &Call<'_>, path: &str, is_first: bool) -> Result<(), ExitCode> {
    match heading(call.rt.alloc(), path, is_first) {
        Ok(text) => write_text(call, text.as_str()),
        Err(error) => Err(fail(call.rt, call.name, error, call.failure)),
    }
}

/// Writes which versions a stream fits.
fn write_fits(call: &Call<'_>, numbers: &str) -> Result<(), ExitCode> {
    match format!(in call.rt.alloc(); "fits: {numbers}\n") {
        Ok(text) => write_text(call, text.as_str()),
        Err(error) => Err(fail(call.rt, call.name, error, call.failure)),
    }
}

/// How a file is described at a version.
fn options_at(file: &File<'_>, version: Version) -> Options
    ensures { (result.version ≡ version) × (result.limit ≡ file.now.options.limit) × (result.chunk_size ≡ CHUNK) }
{
    Options {
        version,
        limit: file.options.limit,
        chunk_size: CHUNK,
    }
}

/// Describes the stream of a file at a version.
fn describe_at(call: &Call<'_>, file: &File<'_>, version: Version) -> Result<ExitCode, ExitCode>
    requires { 5 ≤ version_number version }
{
    file.open(call)?
        .print(call, file.path, &options_at(file, version))
}

/// Describes the stream of a file. If its version is to be found, it is the newest that the stream fits, and a line
/// before has all of these.
fn describe_file(call: &Call<'_>, file: &File<'_>) -> Result<ExitCode, ExitCode>
    requires { 5 ≤ version_number file.now.options.version }
{
    if !file.options.is_auto {
        return describe_at(call, file, file.options.version);
    }
    let (version, numbers) = all_fitting(call, file)?;
    write_fits(call, numbers)?;
    describe_at(call, file, version)
}

/// Describes the streams, and returns the status: 0, or that of the last stream that has another one. Where the output
/// fails, the next heading does so too, and its status is the last.
fn describe_all(call: &Call<'_>, files: &Files<'_>) -> Result<ExitCode, ExitCode>
    requires { 5 ≤ version_number files.now.options.version }
{
    let mut status = ExitCode::SUCCESS;
    for (index, path) in files.paths.iter().enumerate() {
        if files.paths.len() > 1 {
            write_heading(call, *path, index == 0)?;
        }
        let file = File {
            path: *path,
            options: files.options,
        };
        if let Err(failed) = describe_file(call, &file) {
            status = failed;
        }
    }
    Ok(status)
}

/// Parses the arguments, describes the streams, and returns the status.
pub fn run(call: &Call<'_>) -> Result<ExitCode, ExitCode> {
    let files: Files<'_> = call.parse(call.command(&definitions::DESCRIBE)?)?;
    describe_all(call, &files)
}
