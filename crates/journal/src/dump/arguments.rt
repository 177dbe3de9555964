//! Parsing the arguments, and what they say of the dump.

ghost use Rattle.std.specs.Prelude.{◌≡◌, ◌==◌, IfOk, vec_len, codes, []};
ghost use Rattle.clap.specs.Matches.{found_of, matched_of};
ghost use Rattle.journal.specs.Arguments.{IsDumpOf};

use crate::descriptors::{SchemaArguments, schema_arguments};
use crate::dump::suggestions::unknown_type;
use crate::file::File;
use clap::error::ErrorKind;
use clap::{ArgMatches, Command, Error};
use command_line::FromMatches;
use dump_lines::Options;
use shared_core_base::header::MessageType;
use std::alloc::{AllocError, Global};

/// The parsed arguments.
#[derive(Drop)]
pub struct Arguments<'a> {
    /// The stream.
    pub file: File<'a>,
    /// By what payloads are read.
    pub schema: SchemaArguments<'a>,
    /// The codes of the selected types; none for all.
    pub codes: Vec<u16>,
    /// Whether payloads are printed.
    pub payloads: bool,
    /// Whether bytes that are UTF-8 are printed as texts.
    pub texts: bool,
    /// Whether an object is printed on several lines.
    pub pretty: bool,
    /// Whether an unknown code, a malformed payload or trailing bytes is a failure.
    pub strict: bool,
}

impl<'a> Arguments<'a> {
    /// How the stream is dumped.
    pub fn options(&self) -> Options<'_>
        ensures read { (result.version ≡ self.now.file.options.version)
            × (result.limit ≡ self.now.file.options.limit) }
        ensures selected { (result.codes.now ≡ self.now.codes.items)
            × (result.rest ≡ (vec_len self.now.codes == 0)) }
        ensures printed { (result.payloads ≡ self.now.payloads) × (result.texts ≡ self.now.texts)
            × (result.pretty ≡ self.now.pretty) }
        ensures strict { result.strict ≡ self.now.strict }
    {
        Options {
            version: self.file.options.version,
            limit: self.file.options.limit,
            codes: self.codes.as_slice(),
            payloads: self.payloads,
            texts: self.texts,
            pretty: self.pretty,
            // a user who selects messages goes on with what is in them
            rest: self.codes.is_empty(),
            strict: self.strict,
        }
    }
}

/// The code of the type that has this name, in upper or lower case: a named type's, with or without `Message` at the
/// end, or that of a custom entry, as `CustomEntry(64513)`.
fn code_of(alloc: Global, name: &str) -> Result<Option<u16>, AllocError> {
    let short = name.strip_suffix("Message").unwrap_or(name);
    for ty in MessageType::named() {
        if ty.variant_name().eq_ignore_ascii_case(short) {
            return Ok(Some(u16::from(*ty)));
        }
    }
    custom_code(alloc, name)
}

/// The code of the custom entry that has this name.
fn custom_code(alloc: Global, name: &str) -> Result<Option<u16>, AllocError> {
    let Some(code) = code_within(name) else {
        return Ok(None);
    };
    let Ok(ty) = MessageType::try_from(code) else {
        return Ok(None);
    };
    // a number can be written in several ways, and a name has one of them
    let printed = ty.debug_name().to_string(alloc)?;
    let is_name = printed.as_str().eq_ignore_ascii_case(name);
    Ok(is_name.then_some(code))
}

/// The number in the name of a custom entry.
fn code_within(name: &str) -> Option<u16> {
    let (_, digits) = name.strip_suffix(')')?.split_once('(')?;
    digits.parse().ok()
}

impl<'a> FromMatches<'a> for Arguments<'a> {
    ghost is_read = { IsDumpOf };

    fn from_matches(
        alloc: Global,
        command: &mut Command<'a>,
        matches: &ArgMatches<'a>,
    ) -> Result<Arguments<'a>, Error> {
        arguments_of(alloc, command, matches)
    }
}

/// The arguments by what was found of them.
fn arguments_of<'a>(
    alloc: Global,
    command: &mut Command<'_>,
    matches: &ArgMatches<'a>,
) -> Result<Arguments<'a>, Error>
    ensures { IfOk result (IsDumpOf (found_of matches.now)) }
{
    let codes = codes_of(alloc, command, matches)?;
    let file = File::of(command, matches)?;
    let schema = schema_arguments(alloc, command, matches)?;
    Ok(Arguments {
        file,
        schema,
        codes,
        payloads: !matches.get_flag("no-payload"),
        texts: matches.get_flag("text"),
        pretty: matches.get_flag("pretty"),
        strict: matches.get_flag("strict"),
    })
}

/// The codes of the types that are named, of each option several between commas; none without the option.
fn codes_of(
    alloc: Global,
    command: &mut Command<'_>,
    matches: &ArgMatches<'_>,
) -> Result<Vec<u16>, Error>
    ensures { IfOk result (λ found. matched_of (found_of matches.now) (codes "type") ≡ None → found.items ≡ []) }
{
    let mut codes = Vec::new(alloc);
    let Some(names) = matches.get_strs("type") else {
        return Ok(codes);
    };
    for name in names.iter().flat_map(|names| names.split(',')) {
        let Some(code) = code_of(alloc, name)? else {
            let why = unknown_type(alloc, name)?;
            return Err(command.error(ErrorKind::InvalidValue, why.as_str())?);
        };
        codes.push(code)?;
    }
    Ok(codes)
}
