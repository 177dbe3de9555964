//! Arguments that are parsed.

ghost use Rattle.std.specs.Prelude.{IfOk, map, string_bytes};
ghost use Rattle.clap.specs.Matches.{found_of};
ghost use Rattle.clap.specs.Simple.{app_of};
ghost use Rattle.clap.specs.declared.parser.matches.Found.{Found};
ghost use Rattle.command_line.specs.Parsing.{without_name, IsReadOf};

use clap::{ArgMatches, Command, Error};
use std::alloc::Global;

/// What a program reads of its parsed arguments.
pub trait FromMatches<'a>: Sized {
    /// It is what these values say.
    ghost is_read: { Found → Self → Type 0 } = { λ found parsed. Unit {0} };

    /// Reads it. The error is an invalid argument.
    fn from_matches(
        alloc: Global,
        command: &mut Command<'a>,
        matches: &ArgMatches<'a>,
    ) -> Result<Self, Error>
        ensures { IfOk result (is_read (found_of matches.now)) };
}

/// Parses the words after a program's name by a command, and returns what is read of them. The error is an invalid
/// argument, or a request for the help or the version.
pub fn parse<'a, T: FromMatches<'a>>(
    alloc: Global,
    command: Command<'a>,
    words: &'a [String],
) -> Result<T, Error>
    ensures { IfOk result (IsReadOf T.is_read (without_name (app_of command.entry))
        (map string_bytes words.entry.now)) }
{
    let mut command = command.no_binary_name(true);
    parse_by(alloc, &mut command, words)
}

/// The same by a command, whose owner has then only one place where it is dropped: each takes long to prove.
fn parse_by<'a, T: FromMatches<'a>>(
    alloc: Global,
    command: &mut Command<'a>,
    words: &'a [String],
) -> Result<T, Error>
    ensures { IfOk result (IsReadOf T.is_read (app_of command.old) (map string_bytes words.entry.now)) }
{
    let matches = command.try_get_matches_from_mut(words)?;
    T::from_matches(alloc, command, &matches)
}
