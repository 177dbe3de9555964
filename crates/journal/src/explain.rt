//! Explains the bytes of a stream, a file or the standard input.

ghost use Rattle.std.specs.Prelude.{◌≡◌, ◌≤◌, IfOk, codes};
ghost use Rattle.clap.specs.Matches.{first_value, found_of};
ghost use Rattle.shared_core_base.specs.Version.{version_number};
ghost use Rattle.journal.specs.Arguments.{IsFlagOf};
ghost use Rattle.journal.specs.Files.{IsFileOf};
ghost use Rattle.journal.specs.Indices.{IsIndexOf};

use crate::beginning::Beginning;
use crate::call::Call;
use crate::definitions;
use crate::file::File;
use crate::opened::Print;
use clap::error::ErrorKind;
use clap::{ArgMatches, Command, Error};
use command_line::{FromMatches, fail};
use explain_lines::{Options, explain};
use std::alloc::Global;
use std::io::{Read, Write};
use std::process::ExitCode;
use stream_lines::{PrintError, Report};

/// The status if the stream has no byte at the offset.
const LACKING: u8 = 1;

/// What is said of an offset that is none.
const NO_OFFSET: &str = "--at takes the offset of a byte, from 0";

/// The parsed arguments.
#[derive(Drop)]
struct Arguments<'a> {
    /// The stream.
    file: File<'a>,
    /// The offset of the byte that is explained; without it all are.
    at: Option<u64>,
    /// Whether bytes are shown as they are.
    raw: bool,
}

impl<'a> Arguments<'a> {
    /// What is explained of the stream, and how.
    fn options(&self) -> Options
        ensures read { (result.version ≡ self.now.file.options.version)
            × (result.limit ≡ self.now.file.options.limit) }
        ensures explained { (result.at ≡ self.now.at) × (result.raw ≡ self.now.raw) }
    {
        Options {
            version: self.file.options.version,
            limit: self.file.options.limit,
            at: self.at,
            raw: self.raw,
        }
    }
}

impl<'a> FromMatches<'a> for Arguments<'a> {
    ghost is_read = { λ found parsed. IsFileOf found parsed.file
        × IsIndexOf (first_value found (codes "at")) parsed.at × IsFlagOf found (codes "raw") parsed.raw };

    fn from_matches(
        alloc: Global,
        command: &mut Command<'a>,
        matches: &ArgMatches<'a>,
    ) -> Result<Arguments<'a>, Error> {
        let file = File::of(command, matches)?;
        let at = offset_of(command, matches)?;
        Ok(Arguments {
            file,
            at,
            raw: matches.get_flag("raw"),
        })
    }
}

/// The offset of the byte that is explained, if it is given.
fn offset_of(command: &mut Command<'_>, matches: &ArgMatches<'_>) -> Result<Option<u64>, Error>
    ensures { IfOk result (IsIndexOf (first_value (found_of matches.now) (codes "at"))) }
{
    let Some(text) = matches.get_str("at") else {
        return Ok(None);
    };
    match text.parse() {
        Ok(offset) => Ok(Some(offset)),
        Err(_) => Err(command.error(ErrorKind::InvalidValue, NO_OFFSET)?),
    }
}

impl Print for Options {
    type Found = Report;

    ghost is_ready = { λ options. 5 ≤ version_number options.version };

    fn print<R: Read, W: Write>(
        &self,
        call: &Call<'_>,
        input: &mut R,
        output: &mut W,
    ) -> Result<Report, PrintError> {
        explain(call.rt.alloc(), self, input, output)
    }

    /// Reports an offset at which the stream has no byte.
    fn end(&self, call: &Call<'_>, _beginning: &Beginning, found: Report) -> ExitCode {
        let Some(at) = self.at else {
            return ExitCode::SUCCESS;
        };
        let size = found.end.saturating_add(u128::from(found.rest));
        if u128::from(at) < size {
            return ExitCode::SUCCESS;
        }
        let why = format_args!("no byte at {at}: the stream has {size}");
        fail(call.rt, call.name, why, LACKING)
    }
}

/// Parses the arguments, explains the stream, and returns the status.
pub fn run(call: &Call<'_>) -> Result<ExitCode, ExitCode> {
    let mut parsed: Arguments<'_> = call.parse(call.command(&definitions::EXPLAIN)?)?;
    parsed.file = parsed.file.fitted(call)?;
    let file = &parsed.file;
    file.open(call)?.print(call, file.path, &parsed.options())
}
