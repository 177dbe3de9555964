//! Writes a field of an item of a stream, a file or the standard input.

ghost use Rattle.std.specs.Prelude.{◌≡◌, ◌≤◌, ◌⊎◌, IfOk, Some, codes, unwrap_or, []};
ghost use Rattle.std.specs.Process.{exit_status};
ghost use Rattle.clap.specs.Matches.{first_value, found_of};
ghost use Rattle.shared_core_base.specs.Version.{version_number};
ghost use Rattle.journal.specs.Arguments.{IsSchemaOf};
ghost use Rattle.journal.specs.Files.{IsFileOf};
ghost use Rattle.journal.specs.Indices.{IsIndexOf};
ghost use Rattle.journal.specs.Statuses.{IsGotStatus};

use crate::beginning::Beginning;
use crate::call::Call;
use crate::definitions;
use crate::descriptors::{SchemaArguments, schema_arguments};
use crate::dump::Records;
use crate::file::File;
use crate::opened::Print;
use crate::renumbered::{numbering_for, open_numbered};
use crate::similar::push_similar;
use clap::error::ErrorKind;
use clap::{ArgMatches, Command, Error};
use command_line::{FromMatches, fail};
use field_paths::{Answer, Request, get};
use shared_core_json::names::names_of;
use std::alloc::{AllocError, Global};
use std::io::{Read, Write};
use std::process::ExitCode;
use stream_lines::PrintError;
use stream_visits::Options;

/// The number of bytes that are read at a time.
const CHUNK: usize = 65536;

/// The status if the field is not there.
const LACKING: u8 = 1;

/// The parsed arguments.
#[derive(Drop)]
struct Arguments<'a> {
    /// The stream.
    file: File<'a>,
    /// By what payloads are read.
    schema: SchemaArguments<'a>,
    /// The index of the item.
    index: u64,
    /// The path of the field.
    path: &'a str,
}

impl<'a> Arguments<'a> {
    /// Which field is written, with a limit on the length of a payload.
    fn request(&self, limit: u32) -> Request<'a>
        ensures read { (result.options.version ≡ self.now.file.options.version) × (result.options.limit ≡ limit)
            × (result.options.chunk_size ≡ CHUNK) }
        ensures field { (result.index ≡ self.now.index) × (result.path.now ≡ self.now.path.now) }
    {
        Request {
            options: Options {
                version: self.file.options.version,
                limit,
                chunk_size: CHUNK,
            },
            index: self.index,
            path: self.path.as_bytes(),
        }
    }
}

impl<'a> FromMatches<'a> for Arguments<'a> {
    ghost is_read = { λ found parsed. IsFileOf found parsed.file
        × IsSchemaOf found parsed.schema × IsIndexOf (first_value found (codes "item")) (Some parsed.index)
        × (parsed.path.now ≡ unwrap_or (first_value found (codes "path")) []) };

    fn from_matches(
        alloc: Global,
        command: &mut Command<'a>,
        matches: &ArgMatches<'a>,
    ) -> Result<Arguments<'a>, Error> {
        let file = File::of(command, matches)?;
        let index = index_of(command, matches)?;
        let schema = schema_arguments(alloc, command, matches)?;
        Ok(Arguments {
            file,
            schema,
            index,
            path: matches.get_str("path").unwrap_or(""),
        })
    }
}

/// The index of the item.
fn index_of(command: &mut Command<'_>, matches: &ArgMatches<'_>) -> Result<u64, Error>
    ensures { IfOk result (λ index. IsIndexOf (first_value (found_of matches.now) (codes "item")) (Some index)) }
{
    match matches.get_str("item").unwrap_or("").parse() {
        Ok(index) => Ok(index),
        Err(_) => Err(command.error(
            ErrorKind::InvalidValue,
            "ITEM is the index of an item, from 0",
        )?),
    }
}

/// The first name of a path.
fn first_name(path: &str) -> &str {
    let name = match path.split_once('.') {
        Some((name, _)) => name,
        None => path,
    };
    match name.split_once('[') {
        Some((name, _)) => name,
        None => name,
    }
}

/// Why a message of a schema has no field that a path leads to.
fn why_lacking(alloc: Global, schema: u32, path: &str) -> Result<String, AllocError> {
    let name = first_name(path);
    let mut names = Vec::new(alloc);
    for field in names_of(schema) {
        if field.1 == name {
            return format!(in alloc; "it has no {path}");
        }
        names.push(field.1)?;
    }
    let mut text = format!(in alloc; "no field of it has the name '{name}'")?;
    if !push_similar(alloc, &mut text, name, names.as_slice())? {
        push_names(&mut text, names.as_slice())?;
    }
    Ok(text)
}

/// Appends the names of all fields.
fn push_names(text: &mut String, names: &[&str]) -> Result<(), AllocError> {
    for (index, name) in names.iter().enumerate() {
        text.push_str(if index == 0 {
            "; its fields are "
        } else {
            ", "
        })?;
        text.push_str(*name)?;
    }
    Ok(())
}

/// Reports that an item has no field that a path leads to, and returns the status. Without memory that is a failure.
fn end_lacking(call: &Call<'_>, index: u64, schema: u32, rest: &[u8]) -> ExitCode
    ensures { (exit_status result ≡ 1) ⊎ (exit_status result ≡ call.now.failure) }
{
    let rest = str::from_utf8(rest).unwrap_or("");
    match why_lacking(call.rt.alloc(), schema, rest) {
        Ok(why) => fail(
            call.rt,
            call.name,
            format_args!("item {index}: {why}"),
            LACKING,
        ),
        Err(error) => fail(call.rt, call.name, error, call.failure),
    }
}

impl<'q> Print for Request<'q> {
    type Found = Answer<'q>;

    ghost is_ready = { λ request. (5 ≤ version_number request.options.version) × (1 ≤ request.options.chunk_size)
        × (request.options.chunk_size ≤ 65536) };

    fn print<R: Read, W: Write>(
        &self,
        call: &Call<'_>,
        input: &mut R,
        output: &mut W,
    ) -> Result<Answer<'q>, PrintError> {
        get(call.rt.alloc(), self, &Records, input, output)
    }

    /// Reports what there is not, if that is so.
    fn end(&self, call: &Call<'_>, beginning: &Beginning, answer: Answer<'q>) -> ExitCode
        ensures { IsGotStatus call.now.failure answer.entry (exit_status result) }
    {
        let index = self.index;
        let why = match answer {
            Answer::Written => return ExitCode::SUCCESS,
            Answer::NoItem => {
                if index == 0 {
                    beginning.report_no_message(call, self.options.version);
                }
                return fail(
                    call.rt,
                    call.name,
                    format_args!("no item {index}: the stream ends before it"),
                    LACKING,
                );
            }
            Answer::Lacking(schema, rest) => return end_lacking(call, index, schema, rest),
            Answer::Opaque => "its type is unknown, or it is a custom entry",
            Answer::Malformed => "it is malformed",
            Answer::NoMessage(_) => "the path goes on after a field that is no message",
        };
        fail(
            call.rt,
            call.name,
            format_args!("item {index}: {why}"),
            LACKING,
        )
    }
}

/// Parses the arguments, writes the field, and returns the status.
pub fn run(call: &Call<'_>) -> Result<ExitCode, ExitCode> {
    let mut parsed: Arguments<'_> = call.parse(call.command(&definitions::GET)?)?;
    call.expect_redirected("a field")?;
    let numbering = numbering_for(call, &parsed.schema, &parsed.file)?;
    parsed.file = parsed.file.fitted(call)?;
    let entries = numbering.as_ref().map(|entries| entries.as_slice());
    let opened = open_numbered(call, &parsed.file, entries)?;
    let request = parsed.request(opened.limit);
    opened.print(call, parsed.file.path, &request)
}
