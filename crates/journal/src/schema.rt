//! Compares a descriptor set with the protocol: which messages and fields are the same, renumbered, only there, only
//! here or of another kind.

ghost use Rattle.std.specs.Prelude.{◌≡◌};
ghost use Rattle.journal.specs.Arguments.{AreRenamesOf};
ghost use Rattle.journal.specs.Files.{path_of};

use crate::call::Call;
use crate::definitions;
use crate::descriptors::{fail_descriptors, fail_schema, read_descriptors, renames_of};
use clap::{ArgMatches, Command, Error};
use command_line::{FromMatches, Pipe};
use descriptor_set::DescriptorSet;
use schema_lines::{Rename, SchemaError, write_schema};
use std::alloc::Global;
use std::process::ExitCode;

/// The parsed arguments.
#[derive(Drop)]
struct Arguments<'a> {
    /// The path of the set, or `-` for the standard input.
    path: &'a str,
    /// Which messages have other names in the set.
    renames: Vec<Rename<'a>>,
}

impl<'a> FromMatches<'a> for Arguments<'a> {
    ghost is_read = { λ found parsed. (parsed.path.now ≡ path_of found) × AreRenamesOf found parsed.renames.items };

    fn from_matches(
        alloc: Global,
        command: &mut Command<'a>,
        matches: &ArgMatches<'a>,
    ) -> Result<Arguments<'a>, Error> {
        Ok(Arguments {
            path: matches.get_str("file").unwrap_or("-"),
            renames: renames_of(alloc, command, matches)?,
        })
    }
}

/// Reports why there is no table, and returns the status.
fn end(
    call: &Call<'_>,
    parsed: &Arguments<'_>,
    set: &DescriptorSet,
    error: SchemaError,
) -> ExitCode {
    match error {
        SchemaError::Descriptor(error) => fail_descriptors(call, parsed.path, error),
        error => fail_schema(call, set, parsed.renames.as_slice(), error),
    }
}

/// Parses the arguments, shows the set, and returns the status.
pub fn run(call: &Call<'_>) -> Result<ExitCode, ExitCode> {
    let alloc = call.rt.alloc();
    let parsed: Arguments<'_> = call.parse(call.command(&definitions::SCHEMA)?)?;
    let set = read_descriptors(call, parsed.path)?;
    let mut output = Pipe::new(call.rt.stdout());
    match write_schema(alloc, &set, parsed.renames.as_slice(), &mut output) {
        Ok(()) => Ok(ExitCode::SUCCESS),
        // the reader has closed the output, so nothing is reported
        Err(SchemaError::Output) if output.is_broken() => Err(ExitCode::from(call.failure)),
        Err(error) => Err(end(call, &parsed, &set, error)),
    }
}
