//! Parsing a command line that names a file or has options.

ghost use Rattle.std.specs.Prelude.{IfOk, IfSome};
ghost use Rattle.journal_list.specs.Options.{IsAccepted};

use crate::options::options;
use crate::{PROGRAM, definitions};
use clap::error::ErrorKind;
use clap::{ArgMatches, Command, Error};
use command_line::{FromMatches, max_message_of, parse, protocol_of};
use shared_core_base::version::Version;
use std::alloc::{AllocError, Global};

/// The parsed command line.
#[derive(Clone, Copy, Drop)]
pub struct Arguments<'a> {
    /// The path of the stream, or `-` for the standard input.
    pub path: &'a str,
    /// The version of the protocol.
    pub version: Version,
    /// The number of bytes that are read at a time.
    pub chunk_size: usize,
    /// The greatest length of a payload that is taken.
    pub limit: u32,
}

/// Whether arguments after the program's name may be meant as a number of bytes and `v9`: none is an option, and the
/// first does not look like the path of a file.
pub fn are_bare(words: &[String]) -> bool {
    let is_path = words
        .first()
        .is_some_and(|first| first.contains('/') || first.contains('.'));
    !is_path && !words.iter().any(|word| is_option(word.as_str()))
}

/// Whether an argument is an option. `-` is the standard input.
fn is_option(word: &str) -> bool {
    word.starts_with('-') && word != "-"
}

/// Whether an argument can name a file. A number cannot, since it is a number of bytes.
fn can_be_path(word: &str) -> bool {
    !word.bytes().all(|byte| byte.is_ascii_digit())
}

/// What arguments without options say.
#[derive(Clone, Copy, Drop)]
struct Words {
    /// Whether the first is the path of a file.
    has_path: bool,
    version: Version,
    chunk_size: usize,
}

/// Reads arguments without options: those that `options` takes, or a file, and after it those. `None` for others.
fn read_words(words: &[String]) -> Option<Words>
    ensures { IfSome result (λ found. IsAccepted found.version found.chunk_size) }
{
    if let Some((version, chunk_size)) = options(words) {
        return Some(Words {
            has_path: false,
            version,
            chunk_size,
        });
    }
    let (path, rest) = words.split_first()?;
    if !can_be_path(path.as_str()) {
        return None;
    }
    let (version, chunk_size) = options(rest)?;
    Some(Words {
        has_path: true,
        version,
        chunk_size,
    })
}

/// Reads the operands. `None` if they are others than `read_words` takes.
fn read_operands(alloc: Global, matches: &ArgMatches<'_>) -> Result<Option<Words>, AllocError>
    ensures { IfOk result (λ read. IfSome read (λ found. IsAccepted found.version found.chunk_size)) }
{
    let mut words = Vec::new(alloc);
    for id in ["file", "bytes", "v9"] {
        if let Some(word) = matches.get_str(id) {
            words.push(String::from_str(alloc, word)?)?;
        }
    }
    Ok(read_words(words.as_slice()))
}

impl<'a> FromMatches<'a> for Arguments<'a> {
    ghost is_read = { λ found parsed. IsAccepted parsed.version parsed.chunk_size };

    fn from_matches(
        alloc: Global,
        command: &mut Command<'a>,
        matches: &ArgMatches<'a>,
    ) -> Result<Arguments<'a>, Error> {
        let Some(found) = read_operands(alloc, matches)? else {
            return Err(command.error(
                ErrorKind::InvalidValue,
                "after FILE come BYTES, from 1 to 65536, and v9, or one of them, or neither",
            )?);
        };
        if found.version == Version::V9 && matches.contains_id("protocol") {
            return Err(command.error(
                ErrorKind::ArgumentConflict,
                "the version is said by v9 or by --protocol, and not by both",
            )?);
        }
        let limit = max_message_of(command, matches)?;
        let version = if found.version == Version::V9 {
            found.version
        } else {
            protocol_of(matches)
        };
        let path = if found.has_path {
            matches.get_str("file")
        } else {
            None
        };
        Ok(Arguments {
            path: path.unwrap_or("-"),
            version,
            chunk_size: found.chunk_size,
            limit,
        })
    }
}

/// Parses the arguments after the program's name. The error is an invalid argument, or a request for the help or the
/// version.
pub fn parse_arguments<'a>(alloc: Global, words: &'a [String]) -> Result<Arguments<'a>, Error>
    ensures { IfOk result (λ parsed. IsAccepted parsed.version parsed.chunk_size) }
{
    let command = definitions::LIST.command(alloc, PROGRAM)?;
    parse(alloc, command, words)
}
