//! Writes a part of a journal as a stream: what comes before its first command, and the commands of a range with all
//! that is between them.

ghost use Rattle.std.specs.Prelude.{◌≡◌, ◌≤◌, IfOk};
ghost use Rattle.std.specs.Process.{exit_status};
ghost use Rattle.clap.specs.Matches.{first_value, found_of};
ghost use Rattle.shared_core_base.specs.Version.{version_number};
ghost use Rattle.journal.specs.Files.{IsFileOf};
ghost use Rattle.journal.specs.Indices.{IsIndexOf, IsRangeOf};

use crate::call::Call;
use crate::definitions;
use crate::file::File;
use crate::parts::LACKING;
use clap::error::ErrorKind;
use clap::{ArgMatches, Command, Error};
use command_line::{FromMatches, Pipe, fail};
use std::alloc::Global;
use std::process::ExitCode;
use stream_parts::{Located, Range};

/// The parsed arguments.
#[derive(Drop)]
struct Arguments<'a> {
    file: File<'a>,
    range: Range,
}

/// The index of a command that an option has, if it is given.
fn index_of(
    command: &mut Command<'_>,
    matches: &ArgMatches<'_>,
    option: &str,
) -> Result<Option<u64>, Error>
    ensures { IfOk result (IsIndexOf (first_value (found_of matches.now) option.now)) }
{
    let Some(text) = matches.get_str(option) else {
        return Ok(None);
    };
    match text.parse() {
        Ok(index) => Ok(Some(index)),
        Err(_) => Err(command.error(
            ErrorKind::InvalidValue,
            "--from and --to take the index of a command, counted from 0",
        )?),
    }
}

/// The range from the first command to the last one, both of them in it.
fn range_of(command: &mut Command<'_>, matches: &ArgMatches<'_>) -> Result<Range, Error>
    ensures { IfOk result (IsRangeOf (found_of matches.now)) }
{
    let from = index_of(command, matches, "from")?.unwrap_or(0);
    let Some(to) = index_of(command, matches, "to")? else {
        return Ok(Range {
            from,
            until: u64::MAX,
        });
    };
    if from > to {
        return Err(command.error(ErrorKind::InvalidValue, "--from comes after --to")?);
    }
    Ok(Range {
        from,
        until: to.saturating_add(1),
    })
}

impl<'a> FromMatches<'a> for Arguments<'a> {
    ghost is_read = { λ found parsed. IsFileOf found parsed.file × IsRangeOf found parsed.range };

    fn from_matches(
        alloc: Global,
        command: &mut Command<'a>,
        matches: &ArgMatches<'a>,
    ) -> Result<Arguments<'a>, Error> {
        let file = File::of(command, matches)?;
        let range = range_of(command, matches)?;
        Ok(Arguments { file, range })
    }
}

/// Reports that the journal lacks a command of the range, and returns the status.
fn fail_lacking(call: &Call<'_>, path: &str, range: Range, commands: u64) -> ExitCode
    ensures { exit_status result ≡ 1 }
{
    let wanted = if range.until == u64::MAX {
        range.from
    } else {
        range.until.saturating_sub(1)
    };
    match commands {
        0 => fail(
            call.rt,
            call.name,
            format_args!("{path}: no command {wanted}: it has no commands"),
            LACKING,
        ),
        1 => fail(
            call.rt,
            call.name,
            format_args!("{path}: no command {wanted}: it has one command, 0"),
            LACKING,
        ),
        _ => {
            let last = commands - 1;
            fail(
                call.rt,
                call.name,
                format_args!(
                    "{path}: no command {wanted}: it has {commands} commands, 0 to {last}"
                ),
                LACKING,
            )
        }
    }
}

/// Writes the part. The error is the status.
fn write(call: &Call<'_>, file: &File<'_>, located: &Located) -> Result<(), ExitCode>
    requires { 5 ≤ version_number file.now.options.version }
{
    let mut output = Pipe::new(call.rt.stdout());
    let mut part = located.part();
    if let Some(start) = &located.start
        && !file.write_start(call, start, located.entries(), &mut output)?
    {
        part.after = 0;
    }
    file.copy(call, &part, &mut output)
}

/// Parses the arguments, writes the part, and returns the status.
pub fn run(call: &Call<'_>) -> Result<ExitCode, ExitCode> {
    let parsed: Arguments<'_> = call.parse(call.command(&definitions::CUT)?)?;
    call.expect_redirected("the stream")?;
    let file = parsed.file.fitted(call)?;
    let located = file.locate(call, parsed.range)?;
    let commands = located.all.commands;
    if parsed.range.is_lacking(commands) {
        return Err(fail_lacking(call, file.path, parsed.range, commands));
    }
    write(call, &file, &located)?;
    Ok(ExitCode::SUCCESS)
}
