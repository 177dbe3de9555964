//! Streams whose payloads have the field numbers of a descriptor set: such a stream is written again in memory with the
//! protocol's own, and then read as any other.

ghost use Rattle.std.specs.Prelude.{◌≡◌, ◌≤◌, IfOk, IfSome, IsSome, is_some, option_map, string_bytes};
ghost use Rattle.shared_core_base.specs.Version.{version_number};
ghost use Rattle.schema_lines.specs.declared.numbering.Direction.TheVariants.{Reading};
ghost use Rattle.journal.specs.Opened.{IsOpenedBy, IsRenumbered};
ghost use Rattle.journal.specs.Schemas.{HasSetFor, IsNumberingBy, IsSetFor};

use crate::call::{Call, INVALID};
use crate::descriptors::{
    Description, SchemaArguments, read_description, read_numbering, schema_path,
};
use crate::file::{File, FileOptions};
use crate::fitting::Misfit;
use crate::opened::Opened;
use command_line::{Decoding, Progress, input_size};
use schema_lines::Direction;
use shared_core_renumber::Renumbering;
use std::io::{self, Read};
use std::process::ExitCode;
use stream_lines::PrintError;
use stream_renumbering::{Options, renumber};

/// Why no version is found of files whose payloads are read by a descriptor set.
const NOT_BY_A_SET: &str =
    "--protocol auto reads payloads by the protocol's own description, and not by a descriptor set";

/// The path of the set by which a file is read, as `schema_path` has it, if the version is given.
/// If there is none for a reason, reports it, and the error is the status.
pub fn set_path(
    call: &Call<'_>,
    schema: &SchemaArguments<'_>,
    file: &File<'_>,
) -> Result<Option<String>, ExitCode>
    ensures { IfOk result (λ path. IsSetFor schema.now file.now (option_map string_bytes path)) }
{
    let path = schema_path(call, schema, file.path)?;
    if path.is_some() && file.options.is_auto {
        return Err(call.fail(NOT_BY_A_SET, INVALID));
    }
    Ok(path)
}

/// The table by which the payloads of a file are read: that of the set which the options or the variable name, or
/// none. If there is none for a reason, reports it, and the error is the status.
pub fn numbering_for(
    call: &Call<'_>,
    schema: &SchemaArguments<'_>,
    file: &File<'_>,
) -> Result<Option<Vec<Renumbering>>, ExitCode>
    ensures set { IfOk result (λ found. HasSetFor schema.now file.now (is_some found)) }
    ensures entries { IfOk result
        (λ found. IfSome found (λ entries. IsNumberingBy schema.now.renames.items Reading entries.items)) }
{
    let Some(path) = set_path(call, schema, file)? else {
        return Ok(None);
    };
    let renames = schema.renames.as_slice();
    let entries = read_numbering(call, path.as_str(), renames, Direction::Reading)?;
    Ok(Some(entries))
}

/// What that set says of streams, as `numbering_for` finds it.
pub fn description_for(
    call: &Call<'_>,
    schema: &SchemaArguments<'_>,
    file: &File<'_>,
) -> Result<Option<Description>, ExitCode>
    ensures set { IfOk result (λ found. HasSetFor schema.now file.now (is_some found)) }
    ensures entries { IfOk result (λ found. IfSome found
        (λ description. IsNumberingBy schema.now.renames.items Reading description.numbering.items)) }
{
    let Some(path) = set_path(call, schema, file)? else {
        return Ok(None);
    };
    let description = read_description(call, path.as_str(), schema.renames.as_slice())?;
    Ok(Some(description))
}

/// Opens a stream, whose payloads are read by a table if there is one. Then it is read whole, and the limit is on the
/// payloads in the file. If it cannot be read, or a payload has no other numbers, reports why, and the error is the
/// status.
pub fn open_numbered(
    call: &Call<'_>,
    file: &File<'_>,
    numbering: Option<&[Renumbering]>,
) -> Result<Opened, ExitCode>
    requires { 5 ≤ version_number file.now.options.version }
    ensures as_it_is { numbering.entry ≡ None → IfOk result (IsOpenedBy file.now.options) }
    ensures renumbered { IsSome numbering.entry → IfOk result IsRenumbered }
{
    let Some(entries) = numbering else {
        return file.open(call);
    };
    let (stream, _) = renumbered(call, file, entries, None)?;
    Ok(stream)
}

/// Opens a stream as `open_numbered` does by a table. Returns it, and as it is in the file.
pub fn open_both_ways(
    call: &Call<'_>,
    file: &File<'_>,
    entries: &[Renumbering],
) -> Result<(Opened, Vec<u8>), ExitCode>
    requires { 5 ≤ version_number file.now.options.version }
    ensures { IfOk result (λ both. IsRenumbered both.0) }
{
    let kept = Some(Vec::new(call.rt.alloc()));
    match renumbered(call, file, entries, kept)? {
        (stream, Some(kept)) => Ok((stream, kept)),
        (_, None) => Err(call.fail("out of memory", call.failure)),
    }
}

/// The stream of a file at the other numbers of a table, and with what was kept what was read of it. The error is the
/// status, after what is wrong was reported.
fn renumbered(
    call: &Call<'_>,
    file: &File<'_>,
    entries: &[Renumbering],
    kept: Option<Vec<u8>>,
) -> Result<(Opened, Option<Vec<u8>>), ExitCode>
    requires { 5 ≤ version_number file.now.options.version }
    ensures { IfOk result (λ both. IsRenumbered both.0) }
{
    let FileOptions {
        version,
        limit,
        encoding,
        ..
    } = file.options;
    let options = Options {
        version,
        limit,
        entries,
    };
    let input = call.open(file.path)?;
    let progress = Progress::beside_output(call.rt, call.name, input_size(&input));
    let mut input = Keeping {
        reader: Decoding::new(input, file.path, encoding, &progress),
        kept,
    };
    let mut stream = Vec::new(call.rt.alloc());
    let written = renumber(call.rt.alloc(), &options, &mut input, &mut stream);
    progress.clear();
    let path = file.path;
    match written {
        Ok(found) if found.trouble.is_some() => {
            Err(call.fail(Misfit { path, found }, call.failure))
        }
        Ok(found) => {
            // the limit is on what is in the file
            let mut opened = Opened::made(stream, u32::MAX);
            opened.end = Some(found.end);
            Ok((opened, input.kept))
        }
        // what is written is in memory
        Err(PrintError::Output) => Err(call.fail(PrintError::OutOfMemory, call.failure)),
        Err(error) => Err(call.fail_reading(format_args!("{path}: {error}"), &progress)),
    }
}

/// A reader that keeps what is read of another one, if that is wanted and there is memory for it.
#[derive(Drop)]
struct Keeping<R> {
    reader: R,
    kept: Option<Vec<u8>>,
}

impl<R> Keeping<R> {
    /// Keeps bytes that were read.
    fn keep(&mut self, bytes: &[u8])
        ensures { self.new.reader ≡ self.old.reader }
    {
        let is_kept = match &mut self.kept {
            Some(kept) => kept.extend_from_slice(bytes).is_ok(),
            None => true,
        };
        if !is_kept {
            self.kept = None;
        }
    }
}

impl<R: Read> Read for Keeping<R> {
    ghost remaining = { λ keeping. R.remaining keeping.reader };

    fn read(&mut self, buf: &mut [u8]) -> io::Result<usize> {
        let read = self.reader.read(buf);
        if let Ok(count) = &read {
            self.keep(buf.get(..*count).unwrap_or(&[]));
        }
        read
    }
}
