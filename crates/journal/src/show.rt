//! Shows a stream, a file or the standard input: a readable line for each of its items.

ghost use Rattle.std.specs.Prelude.{◌≡◌, ◌≤◌, ◌-◌, ◌^◌, ◌||◌, IfOk, codes};
ghost use Rattle.clap.specs.Matches.{first_value, found_of};
ghost use Rattle.shared_core_base.specs.Version.{version_number};
ghost use Rattle.journal.specs.Arguments.{IsFilterOf, IsFlagOf, IsSchemaOf};
ghost use Rattle.journal.specs.Files.{IsFileOf};
ghost use Rattle.journal.specs.Indices.{IsIndexOr};

use crate::beginning::Beginning;
use crate::call::{Call, INVALID};
use crate::definitions;
use crate::descriptors::{SchemaArguments, schema_arguments};
use crate::dump::Records;
use crate::file::File;
use crate::opened::Print;
use crate::renumbered::{numbering_for, open_numbered};
use clap::error::ErrorKind;
use clap::{ArgMatches, Command, Error};
use command_line::FromMatches;
use show_lines::{Filter, Options, Showing, Test};
use std::alloc::Global;
use std::io::{Read, Write};
use std::process::ExitCode;
use stream_lines::{PrintError, Report};

/// The parsed arguments.
#[derive(Drop)]
struct Arguments<'a> {
    /// The stream.
    file: File<'a>,
    /// By what payloads are read.
    schema: SchemaArguments<'a>,
    /// The indices of the first and the last item that have lines.
    from: u64,
    to: u64,
    commands: bool,
    failures: bool,
    open: bool,
    filter: Filter,
}

impl<'a> Arguments<'a> {
    /// How the stream is shown, with a limit on the length of a payload.
    fn options(&self, limit: u32) -> Options<'_>
        ensures read { (result.version ≡ self.now.file.options.version) × (result.limit ≡ limit) }
        ensures range { (result.from ≡ self.now.from) × (result.to ≡ self.now.to) }
        ensures kinds { (result.commands ≡ self.now.commands) × (result.failures ≡ self.now.failures)
            × (result.«open» ≡ (self.now.«open» || self.now.filter.«open»)) }
        ensures words { result.words.now ≡ self.now.filter.words.items }
    {
        Options {
            version: self.file.options.version,
            limit,
            from: self.from,
            to: self.to,
            commands: self.commands,
            failures: self.failures,
            open: self.open || self.filter.open,
            words: self.filter.words.as_slice(),
        }
    }

    /// Whether a word of the filter asks for bytes: how many an item has, or where it begins.
    fn counts_bytes(&self) -> bool {
        self.filter.words.iter().any(|word| matches!(
            word.test,
            Test::OfSize(_) | Test::OfOffset(_)
        ))
    }
}

/// Why items whose payloads are read by a descriptor set are not selected by their bytes.
const NOT_BY_BYTES: &str =
    "--where: size: and offset: count bytes at the protocol's own numbers, and not by a descriptor set";

impl<'a> FromMatches<'a> for Arguments<'a> {
    ghost is_read = { λ found parsed. IsFileOf found parsed.file
        × IsIndexOr 0 (first_value found (codes "from")) parsed.from
        × IsSchemaOf found parsed.schema × IsIndexOr (2 ^ 64 - 1) (first_value found (codes "to")) parsed.to
        × IsFlagOf found (codes "commands") parsed.commands × IsFlagOf found (codes "failures") parsed.failures
        × IsFlagOf found (codes "open") parsed.«open» × IsFilterOf found parsed.filter };

    fn from_matches(
        alloc: Global,
        command: &mut Command<'a>,
        matches: &ArgMatches<'a>,
    ) -> Result<Arguments<'a>, Error> {
        let file = File::of(command, matches)?;
        let from = index_of(command, matches, "from", 0)?;
        let to = index_of(command, matches, "to", u64::MAX)?;
        let schema = schema_arguments(alloc, command, matches)?;
        let filter = filter_of(alloc, command, matches)?;
        Ok(Arguments {
            file,
            schema,
            from,
            to,
            commands: matches.get_flag("commands"),
            failures: matches.get_flag("failures"),
            open: matches.get_flag("open"),
            filter,
        })
    }
}

/// The filter that `--where` says; without the option it selects all items.
fn filter_of(
    alloc: Global,
    command: &mut Command<'_>,
    matches: &ArgMatches<'_>,
) -> Result<Filter, Error>
    ensures { IfOk result (IsFilterOf (found_of matches.now)) }
{
    match Filter::parse(alloc, matches.get_str("where").unwrap_or("")) {
        Ok(filter) => Ok(filter),
        Err(error) => {
            let why = format!(in alloc; "--where: {error}")?;
            Err(command.error(ErrorKind::InvalidValue, why.as_str())?)
        }
    }
}

/// The index of an item that an option has, or this one without the option.
fn index_of(
    command: &mut Command<'_>,
    matches: &ArgMatches<'_>,
    name: &str,
    default: u64,
) -> Result<u64, Error>
    ensures { IfOk result (IsIndexOr default (first_value (found_of matches.now) name.now)) }
{
    let Some(text) = matches.get_str(name) else {
        return Ok(default);
    };
    match text.parse() {
        Ok(index) => Ok(index),
        Err(_) => Err(command.error(
            ErrorKind::InvalidValue,
            "--from and --to take the index of an item, from 0",
        )?),
    }
}

/// How a stream is shown, and where the trailing bytes of the file begin, if that is not where those of the stream do.
#[derive(Drop)]
struct Shown<'a> {
    options: Options<'a>,
    end: Option<u128>,
}

impl<'a> Print for Shown<'a> {
    type Found = Report;

    ghost is_ready = { λ shown. 5 ≤ version_number shown.options.version };

    fn print<R: Read, W: Write>(
        &self,
        call: &Call<'_>,
        input: &mut R,
        output: &mut W,
    ) -> Result<Report, PrintError> {
        let showing = Showing {
            alloc: call.rt.alloc(),
            options: &self.options,
            canonicalizer: &Records,
        };
        showing.show(input, output)
    }

    /// Reports the trailing bytes.
    fn end(&self, call: &Call<'_>, beginning: &Beginning, found: Report) -> ExitCode {
        let offset = self.end.unwrap_or(found.end);
        if found.rest > 0 {
            call.report_rest(offset, found.rest);
            if offset == 0 {
                beginning.report_no_message(call, self.options.version);
            }
        }
        ExitCode::SUCCESS
    }
}

/// Parses the arguments, shows the stream, and returns the status.
pub fn run(call: &Call<'_>) -> Result<ExitCode, ExitCode> {
    let mut parsed: Arguments<'_> = call.parse(call.command(&definitions::SHOW)?)?;
    let numbering = numbering_for(call, &parsed.schema, &parsed.file)?;
    if numbering.is_some() && parsed.counts_bytes() {
        return Err(call.fail(NOT_BY_BYTES, INVALID));
    }
    parsed.file = parsed.file.fitted(call)?;
    let entries = numbering.as_ref().map(|entries| entries.as_slice());
    let opened = open_numbered(call, &parsed.file, entries)?;
    let shown = Shown {
        options: parsed.options(opened.limit),
        end: opened.end,
    };
    opened.print(call, parsed.file.path, &shown)
}
