//! The bytes of a field of an item of a stream, from any reader to any writer.

ghost use Rattle.std.specs.Prelude.{◌≤◌, ℕ, List};
ghost use Rattle.std.specs.Io.KnownBytes.{Appends, Consumes};
ghost use Rattle.shared_core_base.specs.Version.{version_number};
ghost use Rattle.field_paths.specs.Getting.{IsGot, IsGotFrom, IsGotOf};
ghost use Rattle.field_paths.specs.Paths.{found_view};

use crate::find::{Lookup, find_field};
use crate::value::bytes_of;
use dump_lines::Canonicalizer;
use shared_core_stream::encoding::Item;
use show_lines::held::{Held, Payloads};
use std::alloc::Global;
use std::io::{Read, Write};
use stream_lines::PrintError;
use stream_lines::output::write_whole;
use stream_visits::{Options, item_at};

/// Which field of a stream is wanted.
#[derive(Clone, Copy)]
pub struct Request<'q> {
    /// How the stream is read.
    pub options: Options,
    /// The index of the item, from 0.
    pub index: u64,
    /// The path of the field in the message.
    pub path: &'q [u8],
}

/// How the search for a field ended.
#[derive(Clone, Copy)]
pub enum Answer<'q> {
    /// Its bytes were written.
    Written,
    /// The stream ends before the item.
    NoItem,
    /// The item has no fields: its type is unknown, or it is a custom entry.
    Opaque,
    /// The payload of the item is malformed.
    Malformed,
    /// A message of this schema has no field that is called as this rest of the path begins.
    Lacking(u32, &'q [u8]),
    /// A field is not a message, though this is left of the path.
    NoMessage(&'q [u8]),
}

/// Reads a stream up to an item, and writes the bytes of a field of it; nothing, unless it is there.
///
/// `MessageTooLong` comes if that item, or one before it, is a message longer than the limit; `Input` if a read fails;
/// `TooLong` only if the canonical payload of the item has more bytes than 32 bits can count; `OutOfMemory`. After
/// `Output` a prefix of the bytes is written, and after another error nothing. The canonicalizer is called if the
/// payload of the item is not canonical.
pub fn get<'q, C: Canonicalizer, R: Read, W: Write>(
    alloc: Global,
    request: &Request<'q>,
    canonicalizer: &C,
    input: &mut R,
    output: &mut W,
) -> Result<Answer<'q>, PrintError>
    requires spoken { 5 ≤ version_number request.now.options.version }
    requires low { 1 ≤ request.now.options.chunk_size }
    requires high { request.now.options.chunk_size ≤ 65536 }
    ensures { (read : List ℕ) × (written : List ℕ)
        × Consumes (R.remaining input.old) (R.remaining input.new) read
        × Appends (W.contents output.old) (W.contents output.new) written
        × IsGot request.now result read written (R.remaining input.new) }
{
    let Some(item) = item_at(alloc, &request.options, request.index, input)? else {
        return Ok(Answer::NoItem);
    };
    let payloads = Payloads {
        alloc,
        version: request.options.version,
        canonicalizer,
    };
    write_of(&payloads, &item, request.path, output)
}

/// Writes the bytes of the field of an item that a path leads to.
fn write_of<'q, C: Canonicalizer, W: Write>(
    payloads: &Payloads<'_, C>,
    item: &Item,
    path: &'q [u8],
    output: &mut W,
) -> Result<Answer<'q>, PrintError>
    ensures { (written : List ℕ) × Appends (W.contents output.old) (W.contents output.new) written
        × IsGotOf payloads.now.version item.now path.now result written }
{
    let mut canonical = Vec::new(payloads.alloc);
    match payloads.held_of(item, &mut canonical)? {
        None => Ok(Answer::Opaque),
        Some(Held::Opaque(_)) => Ok(Answer::Opaque),
        Some(Held::Malformed(_)) => Ok(Answer::Malformed),
        Some(Held::Fields(payload)) => {
            let found = find_field(payloads.alloc, payload, path)?;
            write_found(payloads.alloc, found, output)
        }
    }
}

/// Writes the bytes of a field that was found.
fn write_found<'q, W: Write>(
    alloc: Global,
    found: Lookup<'_, 'q>,
    output: &mut W,
) -> Result<Answer<'q>, PrintError>
    ensures { (written : List ℕ) × Appends (W.contents output.old) (W.contents output.new) written
        × IsGotFrom (found_view found.entry) result written }
{
    match found {
        Lookup::Field(field) => {
            let mut line = Vec::new(alloc);
            write_whole(output, bytes_of(alloc, field, &mut line)?)?;
            Ok(Answer::Written)
        }
        Lookup::Lacking(schema, rest) => Ok(Answer::Lacking(schema, rest)),
        Lookup::NoMessage(rest) => Ok(Answer::NoMessage(rest)),
    }
}
