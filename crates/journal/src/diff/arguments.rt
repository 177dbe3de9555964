//! Parsing the arguments.

ghost use Rattle.std.specs.Prelude.{IfOk};
ghost use Rattle.clap.specs.Matches.{found_of};
ghost use Rattle.journal.specs.Arguments.{AreBothOf, IsValuesOf};

use crate::descriptors::{SchemaArguments, schema_arguments};
use crate::file::FileOptions;
use clap::error::ErrorKind;
use clap::{ArgMatches, Command, Error};
use command_line::{ColorChoice, FromMatches, color_of};
use std::alloc::Global;

/// How long values are shown, as `--values` says.
#[derive(Debug, Clone, Copy, PartialEq, Eq, Drop)]
pub enum ValuesChoice {
    /// Around their difference where a terminal shows what moved, otherwise whole.
    Auto,
    /// Around their difference.
    Short,
    /// Whole.
    Whole,
}

/// The parsed arguments.
#[derive(Drop)]
pub struct Arguments<'a> {
    /// The path of the recorded journal, or `-` for the standard input.
    pub recorded: &'a str,
    /// The path of the replayed journal, or `-` for the standard input.
    pub replayed: &'a str,
    /// How both are read.
    pub options: FileOptions,
    /// Whether both are dumps.
    pub is_dump: bool,
    /// By what descriptor set the payloads of both are read.
    pub schema: SchemaArguments<'a>,
    /// Whether all that moved is printed, wherever the output goes.
    pub is_all: bool,
    /// Whether the verdict is, wherever the output goes.
    pub is_verdict: bool,
    /// How long values are shown.
    pub values: ValuesChoice,
    /// Whether payloads are left out of the comparison.
    pub ignore_payloads: bool,
    /// Whether completion ids are.
    pub ignore_ids: bool,
    /// Whether what is passed over may be an error.
    pub is_strict: bool,
    /// Whether the verdict is a line of JSON.
    pub is_json: bool,
    /// When the verdict has colors.
    pub color: ColorChoice,
}

impl<'a> FromMatches<'a> for Arguments<'a> {
    ghost is_read = { AreBothOf };

    fn from_matches(
        alloc: Global,
        command: &mut Command<'a>,
        matches: &ArgMatches<'a>,
    ) -> Result<Arguments<'a>, Error> {
        arguments_of(alloc, command, matches)
    }
}

/// The arguments by what was found of them.
fn arguments_of<'a>(
    alloc: Global,
    command: &mut Command<'_>,
    matches: &ArgMatches<'a>,
) -> Result<Arguments<'a>, Error>
    ensures { IfOk result (AreBothOf (found_of matches.now)) }
{
    let (Some(recorded), Some(replayed)) = (
        matches.get_str("recorded"),
        matches.get_str("replayed"),
    ) else {
        return Err(command.error(
            ErrorKind::MissingRequiredArgument,
            "two journals are compared: RECORDED and REPLAYED",
        )?);
    };
    if recorded == "-" && replayed == "-" {
        return Err(command.error(
            ErrorKind::ArgumentConflict,
            "only one journal can come from the standard input",
        )?);
    }
    let is_all = matches.get_flag("all");
    let is_verdict = matches.get_flag("verdict");
    if is_all && is_verdict {
        return Err(command.error(
            ErrorKind::ArgumentConflict,
            "--all prints what moved instead of the verdict, so --verdict cannot be there too",
        )?);
    }
    let options = FileOptions::of(command, matches)?;
    let is_dump = matches.get_str("input") == Some("dump");
    if is_dump && options.is_auto {
        return Err(command.error(
            ErrorKind::ArgumentConflict,
            "--protocol auto reads streams, and not dumps",
        )?);
    }
    let schema = schema_arguments(alloc, command, matches)?;
    Ok(Arguments {
        recorded,
        replayed,
        options,
        is_dump,
        schema,
        is_all,
        is_verdict,
        values: values_of(matches),
        ignore_payloads: matches.get_flag("ignore-payloads"),
        ignore_ids: matches.get_flag("ignore-ids"),
        is_strict: matches.get_flag("strict"),
        is_json: matches.get_flag("json"),
        color: color_of(matches),
    })
}

/// What the option `--values` says: `short`, `whole`, or else `auto`.
fn values_of(matches: &ArgMatches<'_>) -> ValuesChoice
    ensures { IsValuesOf (found_of matches.now) result }
{
    match matches.get_str("values") {
        Some("short") => ValuesChoice::Short,
        Some("whole") => ValuesChoice::Whole,
        _ => ValuesChoice::Auto,
    }
}
