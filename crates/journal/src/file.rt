//! The files that a call reads, and how they are read.

ghost use Rattle.std.specs.Prelude.{IfOk};
ghost use Rattle.clap.specs.Matches.{found_of};
ghost use Rattle.journal.specs.Files.{AreFilesOf, AreOptionsOf, IsFileOf};

use crate::call::{Call, INVALID};
use clap::{ArgMatches, Command, Error};
use command_line::{
    FromMatches, Input, encoding_of, fail, input_size, is_auto, max_message_of, protocol_of,
};
use encoded_input::Encoding;
use shared_core_base::version::Version;
use std::alloc::Global;
use std::process::ExitCode;

/// How files are read, as `--protocol`, `--max-message` and `--input` say.
#[derive(Clone, Copy, Drop)]
pub struct FileOptions {
    /// The version of the protocol.
    pub version: Version,
    /// Whether the version is to be the newest that the files fit.
    pub is_auto: bool,
    /// The greatest length of a payload that is taken, in bytes.
    pub limit: u32,
    /// How the files are written, if they are text.
    pub encoding: Option<Encoding>,
}

impl FileOptions {
    /// What the arguments say. The error is a length that is none.
    pub fn of(command: &mut Command<'_>, matches: &ArgMatches<'_>) -> Result<FileOptions, Error>
        ensures { IfOk result (AreOptionsOf (found_of matches.now)) }
    {
        let limit = max_message_of(command, matches)?;
        Ok(FileOptions {
            version: protocol_of(matches),
            is_auto: is_auto(matches),
            limit,
            encoding: encoding_of(matches),
        })
    }
}

/// A file that is read.
#[derive(Clone, Copy, Drop)]
pub struct File<'a> {
    /// Its path, or `-` for the standard input.
    pub path: &'a str,
    pub options: FileOptions,
}

impl<'a> File<'a> {
    /// That of the arguments, the standard input without a path. The error is as of `FileOptions::of`.
    pub fn of(command: &mut Command<'_>, matches: &ArgMatches<'a>) -> Result<File<'a>, Error>
        ensures { IfOk result (IsFileOf (found_of matches.now)) }
    {
        let options = FileOptions::of(command, matches)?;
        Ok(File {
            path: matches.get_str("file").unwrap_or("-"),
            options,
        })
    }

    /// Opens the file, which is read more than once: a pipe can be read only once. The error is the status, after what
    /// is wrong was reported.
    pub fn open_again(&self, call: &Call<'_>) -> Result<Input, ExitCode> {
        let input = call.open(self.path)?;
        if input_size(&input).is_some() {
            return Ok(input);
        }
        let path = self.path;
        Err(fail(
            call.rt,
            call.name,
            format_args!("{path}: no file, and it is read twice"),
            INVALID,
        ))
    }
}

/// Files that are read one after the other.
#[derive(Drop)]
pub struct Files<'a> {
    /// Their paths, or `-` for the standard input.
    pub paths: Vec<&'a str>,
    /// How each of them is read.
    pub options: FileOptions,
}

impl<'a> FromMatches<'a> for Files<'a> {
    ghost is_read = { AreFilesOf };

    /// Those of the arguments, the standard input without a path.
    fn from_matches(
        alloc: Global,
        command: &mut Command<'a>,
        matches: &ArgMatches<'a>,
    ) -> Result<Files<'a>, Error> {
        let options = FileOptions::of(command, matches)?;
        let mut paths = Vec::new(alloc);
        paths.extend_from_slice(matches.get_strs("file").unwrap_or(&["-"]))?;
        Ok(Files { paths, options })
    }
}
