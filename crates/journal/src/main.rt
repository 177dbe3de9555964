//! Lists, shows, describes, explains, prints, makes, compares, cuts, joins, redacts and renumbers journals: a program
//! with a subcommand for each. If it is called by a subcommand's name, as `journal_dump`, it is only that subcommand.
#![tactic(auto)]

mod beginning;
mod call;
mod cat;
mod cut;
mod definitions;
mod describe;
mod descriptors;
mod diff;
mod dump;
mod explain;
mod file;
mod fitting;
mod get;
mod list;
mod make;
mod opened;
mod parts;
mod redact;
mod renumber;
mod renumbered;
mod schema;
mod show;
mod similar;
mod subcommand;

use crate::call::Call;
use crate::subcommand::{Asked, Subcommand, program};
use clap::error::ErrorKind;
use clap::{Command, Error};
use command_line::{ArgumentsError, fail, read_arguments, report};
use std::alloc::Global;
use std::env::Env;
use std::process::ExitCode;

const PROGRAM: &str = "journal";

/// The status if the arguments say no subcommand.
const NO_SUBCOMMAND: u8 = 2;

/// What is asked for as a subcommand, and is a program of its own.
const VIEW: &str = "view";

/// What is said if that is asked for.
const IS_A_PROGRAM: &str =
    "the page is made by the program journal_view: journal_view [OPTION].. STREAM [OTHER]";

/// The longest argument that is read without an allocation, in bytes: as long as a path may be.
const MOST_BYTES: usize = 4096;

/// Runs a subcommand, and returns its status.
fn run(call: &Call<'_>, subcommand: Subcommand) -> Result<ExitCode, ExitCode> {
    match subcommand {
        Subcommand::List => list::run(call),
        Subcommand::Dump => dump::run(call),
        Subcommand::Make => make::run(call),
        Subcommand::Diff => diff::run(call),
        Subcommand::Show => show::run(call),
        Subcommand::Cut => cut::run(call),
        Subcommand::Cat => cat::run(call),
        Subcommand::Schema => schema::run(call),
        Subcommand::Redact => redact::run(call),
        Subcommand::Describe => describe::run(call),
        Subcommand::Get => get::run(call),
        Subcommand::Explain => explain::run(call),
        Subcommand::Renumber => renumber::run(call),
    }
}

/// Why the arguments name no subcommand; the first argument is the program's path. Or their request for the help or the
/// version.
fn why_none(alloc: Global, arguments: &[String]) -> Result<Error, Error> {
    let mut command = program(alloc, PROGRAM)?;
    why_rejected(&mut command, arguments)
}

/// Why a command has no subcommand for the arguments, or their request for the help or the version.
fn why_rejected<'a>(command: &mut Command<'a>, arguments: &'a [String]) -> Result<Error, Error> {
    command.try_get_matches_from_mut(arguments)?;
    // its definition has the subcommands that are looked for before this
    Ok(command.error(ErrorKind::MissingSubcommand, "a subcommand comes first")?)
}

/// An argument by its number; none if it is not there, is not UTF-8 or is longer than the buffer.
fn argument<'a>(rt: &HostRuntime, number: usize, buffer: &'a mut [u8]) -> Option<&'a str> {
    let size = rt.arg(number, buffer).ok()?;
    str::from_utf8(buffer.get(..size)?).ok()
}

/// Reports why the arguments cannot be read, for the subcommand that the first two of them say, and returns the status.
fn end_unread(rt: &HostRuntime, error: ArgumentsError) -> ExitCode {
    let mut path = [0; MOST_BYTES];
    let mut word = [0; MOST_BYTES];
    match Asked::of(argument(rt, 0, &mut path), argument(rt, 1, &mut word)) {
        Some(asked) => fail(
            rt,
            asked.name(),
            error,
            error.status(asked.subcommand.failure()),
        ),
        None => fail(rt, PROGRAM, error, error.status(NO_SUBCOMMAND)),
    }
}

fn main(rt: HostRuntime) -> ExitCode {
    let arguments = match read_arguments(&rt) {
        Ok(arguments) => arguments,
        Err(error) => return end_unread(&rt, error),
    };
    let Some(asked) = Asked::by(arguments.as_slice()) else {
        if arguments.get(1).is_some_and(|word| word.as_str() == VIEW) {
            return fail(&rt, "journal view", IS_A_PROGRAM, NO_SUBCOMMAND);
        }
        let error = match why_none(rt.alloc(), arguments.as_slice()) {
            Ok(error) | Err(error) => error,
        };
        return report(&rt, PROGRAM, &error, NO_SUBCOMMAND);
    };
    let call = Call {
        rt: &rt,
        name: asked.name(),
        words: asked.own_words(arguments.as_slice()),
        failure: asked.subcommand.failure(),
    };
    match run(&call, asked.subcommand) {
        Ok(status) | Err(status) => status,
    }
}
