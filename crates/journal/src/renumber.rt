//! Writes a stream at the protocol's own field numbers, from those of a descriptor set, or back.

ghost use Rattle.std.specs.Prelude.{◌≡◌, ◌≤◌, IfOk};
ghost use Rattle.std.specs.Process.{exit_status};
ghost use Rattle.shared_core_base.specs.Version.{version_number};
ghost use Rattle.journal.specs.Arguments.{IsDirectionOf, IsSchemaOf};
ghost use Rattle.journal.specs.Files.{IsFileOf};
ghost use Rattle.journal.specs.Schemas.{IsNumberingBy};
ghost use Rattle.journal.specs.Statuses.{renumbered_status};

use crate::beginning::Beginning;
use crate::call::{Call, INVALID};
use crate::definitions;
use crate::descriptors::{SchemaArguments, read_numbering, schema_arguments, schema_path};
use crate::file::File;
use crate::opened::Print;
use clap::{ArgMatches, Command, Error};
use command_line::FromMatches;
use schema_lines::Direction;
use shared_core_renumber::Renumbering;
use std::alloc::Global;
use std::io::{Read, Write};
use std::process::ExitCode;
use stream_lines::{PrintError, Report};
use stream_renumbering::{Options, renumber};

/// The status if a payload has no other numbers.
const MALFORMED: u8 = 1;

/// The parsed arguments.
#[derive(Drop)]
struct Arguments<'a> {
    /// The stream.
    file: File<'a>,
    /// Which set has the other numbers.
    schema: SchemaArguments<'a>,
    /// From which numbers to which.
    direction: Direction,
}

impl<'a> Arguments<'a> {
    /// How the stream is written, by the table of a set.
    fn options<'e>(&self, entries: &'e [Renumbering]) -> Options<'e>
        ensures read { (result.version ≡ self.now.file.options.version)
            × (result.limit ≡ self.now.file.options.limit) }
        ensures entries { result.entries.now ≡ entries.now }
    {
        Options {
            version: self.file.options.version,
            limit: self.file.options.limit,
            entries,
        }
    }
}

impl<'a> FromMatches<'a> for Arguments<'a> {
    ghost is_read = { λ found parsed. IsFileOf found parsed.file × IsSchemaOf found parsed.schema
        × IsDirectionOf found parsed.direction };

    fn from_matches(
        alloc: Global,
        command: &mut Command<'a>,
        matches: &ArgMatches<'a>,
    ) -> Result<Arguments<'a>, Error> {
        let file = File::of(command, matches)?;
        let schema = schema_arguments(alloc, command, matches)?;
        Ok(Arguments {
            file,
            schema,
            direction: if matches.get_flag("back") {
                Direction::Writing
            } else {
                Direction::Reading
            },
        })
    }
}

impl<'e> Print for Options<'e> {
    type Found = Report;

    ghost is_ready = { λ options. 5 ≤ version_number options.version };

    fn print<R: Read, W: Write>(
        &self,
        call: &Call<'_>,
        input: &mut R,
        output: &mut W,
    ) -> Result<Report, PrintError> {
        renumber(call.rt.alloc(), self, input, output)
    }

    /// Reports the first payload that has no other numbers and the trailing bytes.
    fn end(&self, call: &Call<'_>, beginning: &Beginning, found: Report) -> ExitCode
        ensures { exit_status result ≡ renumbered_status found }
    {
        if let Some((offset, trouble)) = found.trouble {
            call.report_trouble(offset, trouble);
        }
        let status = beginning.end_written(call, self.version, &found);
        if found.trouble.is_some() {
            return ExitCode::from(MALFORMED);
        }
        status
    }
}

/// The table of the set that the options or the variable name. The error is the status.
fn numbering_of(call: &Call<'_>, parsed: &Arguments<'_>) -> Result<Vec<Renumbering>, ExitCode>
    ensures { IfOk result
        (λ entries. IsNumberingBy parsed.now.schema.renames.items parsed.now.direction entries.items) }
{
    let Some(path) = schema_path(call, &parsed.schema, parsed.file.path)? else {
        return Err(call.fail("--schema FILE names the descriptor set", INVALID));
    };
    let renames = parsed.schema.renames.as_slice();
    let entries = read_numbering(call, path.as_str(), renames, parsed.direction)?;
    Ok(entries)
}

/// Parses the arguments, writes the stream, and returns the status.
pub fn run(call: &Call<'_>) -> Result<ExitCode, ExitCode> {
    let parsed: Arguments<'_> = call.parse(call.command(&definitions::RENUMBER)?)?;
    call.expect_redirected("the stream")?;
    let entries = numbering_of(call, &parsed)?;
    let file = &parsed.file;
    let options = parsed.options(entries.as_slice());
    file.open(call)?.print(call, file.path, &options)
}
