//! Writes a stream with its contents replaced, so that it can be shown to others.

ghost use Rattle.std.specs.Prelude.{◌≡◌, ◌≤◌, codes, option_map};
ghost use Rattle.std.specs.Process.{exit_status};
ghost use Rattle.clap.specs.Matches.{first_value};
ghost use Rattle.shared_core_base.specs.Version.{version_number};
ghost use Rattle.journal.specs.Files.{IsFileOf};
ghost use Rattle.journal.specs.Statuses.{written_status};

use crate::beginning::Beginning;
use crate::call::{Call, INVALID};
use crate::definitions;
use crate::file::File;
use crate::opened::Print;
use clap::{ArgMatches, Command, Error};
use command_line::{FromMatches, fail};
use std::alloc::Global;
use std::io::{Read, Write};
use std::process::ExitCode;
use std::{fs, io};
use stream_lines::{PrintError, Report};
use stream_redaction::{Key, Options, redact};

/// The number of bytes that are read at a time.
const CHUNK: usize = 65536;

/// Where a secret comes from that is not kept.
const RANDOM: &str = "/dev/urandom";

/// The parsed arguments.
#[derive(Drop)]
struct Arguments<'a> {
    /// The stream.
    file: File<'a>,
    /// The secret; none if it is random.
    secret: Option<&'a str>,
}

impl<'a> Arguments<'a> {
    /// How the stream is written, with this key.
    fn options(&self, key: Key) -> Options
        ensures read { (result.version ≡ self.now.file.options.version)
            × (result.limit ≡ self.now.file.options.limit) × (result.chunk_size ≡ CHUNK) }
        ensures keyed { result.key ≡ key }
    {
        Options {
            version: self.file.options.version,
            limit: self.file.options.limit,
            chunk_size: CHUNK,
            key,
        }
    }
}

impl<'a> FromMatches<'a> for Arguments<'a> {
    ghost is_read = { λ found parsed. IsFileOf found parsed.file
        × (option_map (λ secret. secret.now) parsed.secret ≡ first_value found (codes "key")) };

    fn from_matches(
        alloc: Global,
        command: &mut Command<'a>,
        matches: &ArgMatches<'a>,
    ) -> Result<Arguments<'a>, Error> {
        Ok(Arguments {
            file: File::of(command, matches)?,
            secret: matches.get_str("key"),
        })
    }
}

/// A key of random bytes that are not kept.
fn random_key(rt: &HostRuntime) -> io::Result<Key> {
    let mut secret = [0; 32];
    fs::open(rt, RANDOM)?.read_exact(&mut secret)?;
    Ok(Key::new(&secret))
}

/// The key of the arguments. The error is the status.
fn key_of(call: &Call<'_>, secret: Option<&str>) -> Result<Key, ExitCode> {
    if let Some(secret) = secret {
        return Ok(Key::new(secret.as_bytes()));
    }
    match random_key(call.rt) {
        Ok(key) => Ok(key),
        Err(error) => Err(fail(
            call.rt,
            call.name,
            format_args!("{RANDOM}: {error}; --key TEXT gives a key"),
            INVALID,
        )),
    }
}

impl Print for Options {
    type Found = Report;

    ghost is_ready = { λ options. (5 ≤ version_number options.version) × (1 ≤ options.chunk_size)
        × (options.chunk_size ≤ 65536) };

    fn print<R: Read, W: Write>(
        &self,
        call: &Call<'_>,
        input: &mut R,
        output: &mut W,
    ) -> Result<Report, PrintError> {
        redact(call.rt.alloc(), self, input, output)
    }

    /// Reports the trailing bytes.
    fn end(&self, call: &Call<'_>, beginning: &Beginning, found: Report) -> ExitCode
        ensures { exit_status result ≡ written_status found }
    {
        beginning.end_written(call, self.version, &found)
    }
}

/// Parses the arguments, writes the stream, and returns the status.
pub fn run(call: &Call<'_>) -> Result<ExitCode, ExitCode> {
    let mut parsed: Arguments<'_> = call.parse(call.command(&definitions::REDACT)?)?;
    call.expect_redirected("the stream")?;
    parsed.file = parsed.file.fitted(call)?;
    let options = parsed.options(key_of(call, parsed.secret)?);
    let file = &parsed.file;
    file.open(call)?.print(call, file.path, &options)
}
