//! Lists a stream, a file or the standard input: one line for each of its items.

ghost use Rattle.std.specs.Prelude.{◌≡◌, ◌≤◌};
ghost use Rattle.shared_core_base.specs.Version.{version_number};
ghost use Rattle.journal.specs.Arguments.{IsSchemaOf};
ghost use Rattle.journal.specs.Files.{IsFileOf};

use crate::beginning::Beginning;
use crate::call::Call;
use crate::definitions;
use crate::descriptors::{SchemaArguments, TypeName, read_type_names, schema_arguments};
use crate::file::File;
use crate::opened::Print;
use crate::renumbered::set_path;
use clap::{ArgMatches, Command, Error};
use command_line::FromMatches;
use list_lines::{Options, OtherName, list};
use std::alloc::Global;
use std::io::{Read, Write};
use std::process::ExitCode;
use stream_lines::{PrintError, Report};

/// The number of bytes that are read at a time.
const CHUNK: usize = 65536;

/// The parsed arguments.
#[derive(Drop)]
struct Arguments<'a> {
    /// The stream.
    file: File<'a>,
    /// Which set names types that the protocol does not have.
    schema: SchemaArguments<'a>,
}

impl<'a> Arguments<'a> {
    /// How the stream is listed, with the names of some types.
    fn options<'n>(&self, names: &'n [OtherName<'n>]) -> Options<'n>
        ensures read { (result.version ≡ self.now.file.options.version)
            × (result.limit ≡ self.now.file.options.limit) × (result.chunk_size ≡ CHUNK) }
        ensures names { result.names.now ≡ names.now }
    {
        Options {
            version: self.file.options.version,
            limit: self.file.options.limit,
            chunk_size: CHUNK,
            names,
        }
    }
}

impl<'a> FromMatches<'a> for Arguments<'a> {
    ghost is_read = { λ found parsed. IsFileOf found parsed.file × IsSchemaOf found parsed.schema };

    fn from_matches(
        alloc: Global,
        command: &mut Command<'a>,
        matches: &ArgMatches<'a>,
    ) -> Result<Arguments<'a>, Error> {
        let file = File::of(command, matches)?;
        let schema = schema_arguments(alloc, command, matches)?;
        Ok(Arguments { file, schema })
    }
}

impl<'n> Print for Options<'n> {
    type Found = Report;

    ghost is_ready = { λ options. (5 ≤ version_number options.version) × (1 ≤ options.chunk_size)
        × (options.chunk_size ≤ 65536) };

    fn print<R: Read, W: Write>(
        &self,
        call: &Call<'_>,
        input: &mut R,
        output: &mut W,
    ) -> Result<Report, PrintError> {
        list(call.rt.alloc(), self, input, output)
    }

    /// Reports that nothing before the trailing bytes is an item.
    fn end(&self, call: &Call<'_>, beginning: &Beginning, found: Report) -> ExitCode {
        if found.rest > 0 && found.end == 0 {
            beginning.report_no_message(call, self.version);
        }
        ExitCode::SUCCESS
    }
}

/// The names of the types that only the set has which the options or the variable name. The error is the status.
fn names_for(call: &Call<'_>, parsed: &Arguments<'_>) -> Result<Vec<TypeName>, ExitCode> {
    match set_path(call, &parsed.schema, &parsed.file)? {
        Some(path) => read_type_names(call, path.as_str(), parsed.schema.renames.as_slice()),
        None => Ok(Vec::new(call.rt.alloc())),
    }
}

/// Lists the stream with the names of some types, and returns the status.
fn run_with(
    call: &Call<'_>,
    parsed: &Arguments<'_>,
    found: &[TypeName],
) -> Result<ExitCode, ExitCode>
    requires { 5 ≤ version_number parsed.now.file.options.version }
{
    let opened = parsed.file.open(call)?;
    let mut names = Vec::new(call.rt.alloc());
    for one in found {
        let named = OtherName {
            code: one.code,
            name: one.name.as_str(),
        };
        if names.push(named).is_err() {
            return Err(call.fail("out of memory", call.failure));
        }
    }
    let options = parsed.options(names.as_slice());
    opened.print(call, parsed.file.path, &options)
}

/// Parses the arguments, lists the stream, and returns the status.
pub fn run(call: &Call<'_>) -> Result<ExitCode, ExitCode> {
    let mut parsed: Arguments<'_> = call.parse(call.command(&definitions::LIST)?)?;
    let names = names_for(call, &parsed)?;
    parsed.file = parsed.file.fitted(call)?;
    run_with(call, &parsed, names.as_slice())
}
