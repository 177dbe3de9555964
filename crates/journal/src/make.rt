//! Makes a stream of JSON, a file or the standard input: an item of each line.

ghost use Rattle.std.specs.Prelude.{◌≡◌};
ghost use Rattle.command_line.specs.Protocol.{IsVersionOf};
ghost use Rattle.journal.specs.Arguments.{IsSchemaOf};
ghost use Rattle.journal.specs.Files.{path_of};

use crate::call::Call;
use crate::definitions;
use crate::descriptors::{
    SchemaArguments, fail_descriptors, fail_schema, read_descriptors, schema_arguments, schema_path,
};
use clap::{ArgMatches, Command, Error};
use command_line::{FromMatches, Pipe, Progress, Watched, fail, input_size, protocol_of};
use descriptor_set::readable_table_of;
use make_lines::{LineTable, MakeError, Maker, OtherLines};
use schema_lines::schemas_of;
use shared_core_base::version::Version;
use shared_core_codec::any_table::ProtocolSchemas;
use std::alloc::Global;
use std::io::Stdout;
use std::process::ExitCode;

/// The parsed arguments.
#[derive(Drop)]
struct Arguments<'a> {
    /// The path of the lines, or `-` for the standard input.
    path: &'a str,
    /// By what messages are read.
    schema: SchemaArguments<'a>,
    /// The version of the protocol.
    version: Version,
}

impl<'a> FromMatches<'a> for Arguments<'a> {
    ghost is_read = { λ found parsed. (parsed.path.now ≡ path_of found) × IsSchemaOf found parsed.schema
        × IsVersionOf found parsed.version };

    fn from_matches(
        alloc: Global,
        command: &mut Command<'a>,
        matches: &ArgMatches<'a>,
    ) -> Result<Arguments<'a>, Error> {
        let schema = schema_arguments(alloc, command, matches)?;
        Ok(Arguments {
            path: matches.get_str("file").unwrap_or("-"),
            schema,
            version: protocol_of(matches),
        })
    }
}

/// Reports how the run ended, unless the reader of the output has closed it, and returns the status.
fn end(
    call: &Call<'_>,
    path: &str,
    made: Result<(), MakeError>,
    output: &Pipe<Stdout>,
) -> ExitCode {
    match made {
        Ok(()) => ExitCode::SUCCESS,
        Err(_) if output.is_broken() => ExitCode::from(call.failure),
        Err(MakeError::Line(number, error)) => {
            fail(
                call.rt,
                call.name,
                format_args!("{path}:{number}: {error}"),
                1,
            )
        }
        Err(error) => call.fail(error, call.failure),
    }
}

/// Makes the stream of the lines, whose messages are read by a table, and returns the status.
fn run_by<M: LineTable>(
    call: &Call<'_>,
    parsed: &Arguments<'_>,
    messages: &M,
) -> Result<ExitCode, ExitCode> {
    let rt = call.rt;
    let input = call.open(parsed.path)?;
    let progress = Progress::beside_output(rt, call.name, input_size(&input));
    let mut input = Watched::new(input, &progress);
    let mut output = Pipe::new(rt.stdout());
    let maker = Maker {
        alloc: rt.alloc(),
        version: parsed.version,
        messages,
    };
    let made = maker.make(&mut input, &mut output);
    progress.clear();
    Ok(end(call, parsed.path, made, &output))
}

/// Makes the stream by the descriptor set of a file, and returns the status.
fn run_by_set(call: &Call<'_>, parsed: &Arguments<'_>, path: &str) -> Result<ExitCode, ExitCode> {
    let alloc = call.rt.alloc();
    let set = read_descriptors(call, path)?;
    let table = match readable_table_of(alloc, &set) {
        Ok(table) => table,
        Err(error) => return Err(fail_descriptors(call, path, error)),
    };
    let renames = parsed.schema.renames.as_slice();
    let schemas = match schemas_of(alloc, &set, renames) {
        Ok(schemas) => schemas,
        Err(error) => return Err(fail_schema(call, &set, renames, error)),
    };
    let messages = OtherLines {
        table: &table,
        schemas: schemas.as_slice(),
    };
    run_by(call, parsed, &messages)
}

/// Parses the arguments, makes the stream, and returns the status.
pub fn run(call: &Call<'_>) -> Result<ExitCode, ExitCode> {
    let parsed: Arguments<'_> = call.parse(call.command(&definitions::MAKE)?)?;
    call.expect_redirected("the stream")?;
    match schema_path(call, &parsed.schema, parsed.path)? {
        Some(path) => run_by_set(call, &parsed, path.as_str()),
        None => run_by(call, &parsed, &ProtocolSchemas),
    }
}
