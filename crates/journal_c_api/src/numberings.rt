//! Payloads at other field numbers: those of a descriptor set.

ghost use Rattle.std.specs.Prelude.{◌≡◌, ◌≤◌, All, IfOk, Ok, Some, length};
ghost use Rattle.shared_core_base.specs.Version.{version_number};
ghost use Rattle.dump_lines.specs.Other.{reading_by};
ghost use Rattle.schema_lines.specs.Entries.{numbering_entries};
ghost use Rattle.schema_lines.specs.Numberings.{IsOurs};
ghost use Rattle.schema_lines.specs.Renames.{names_of, rename_of};
ghost use Rattle.descriptor_set.specs.Descriptors.{IsDescriptorSet};
ghost use Rattle.descriptor_set.specs.Sets.{IsSetOf};
ghost use Rattle.journal_c_api.specs.Numberings.{direction_of, front_over, FindsNumbering, IsDumpBy, ReturnsDump};
ghost use Rattle.journal_c_api.specs.Numberings.{ReturnsItems, ReturnsLines, ReturnsRenumbered, ReturnsStream};
ghost use Rattle.journal_c_api.specs.Numberings.{AreRenamesOf, IsNumberingOf, IsReadingOf, WritesList};
ghost use Rattle.journal_c_api.specs.Numberings.{WritesNumbering};
ghost use Rattle.journal_c_api.specs.Outcomes.{Writes, bytes_of};

use crate::outcome::{CallError, version_of, write_outcome, write_over};
use descriptor_set::{DescriptorError, DescriptorSet, named_table_of, read_set};
use dump_lines::{Dumping, MessageTable, Options as DumpOptions, OtherTable};
use schema_lines::{Direction, Rename, SchemaError, numbering_of, schemas_of, write_schema};
use shared_core::version::Version;
use shared_core_codec::any_table::Schemas;
use shared_core_codec::loaded_table::LoadedSchemas;
use shared_core_json::named_schemas::NamedSchemas;
use shared_core_json::named_table::NamedTable;
pub use shared_core_renumber::Renumbering;
use shared_core_renumber::{RenumberError, renumbered};
use std::alloc::{AllocError, AllocFailed, Global};
use stream_lines::PrintError;
use stream_renumbering::{Options, renumber};

/// The number of numbers that are written for a list.
const LIST_NUMBERS: usize = 1;

/// The kind of a list.
const LISTED: u64 = 0;

/// The kind of the reason for which no numbering comes of a set.
const NO_SET: u64 = 1;

/// The kind of the fault of a rename.
const NO_RENAME: u64 = 2;

/// Why no numbering comes of a set and renames.
#[derive(Drop)]
enum Rejection {
    /// Of the set, and what is said of it.
    Set(String),
    /// Of a rename, and what is said of it.
    Rename(String),
    OutOfMemory,
}

impl From<AllocError> for Rejection {
    fn from(_error: AllocError) -> Rejection {
        Rejection::OutOfMemory
    }
}

impl<T: Drop> From<AllocFailed<T>> for Rejection {
    fn from(_error: AllocFailed<T>) -> Rejection {
        Rejection::OutOfMemory
    }
}

/// Writes the entries of the numbering of a set at the front of a slice, as many as there is room for, and returns how
/// many it has. The direction is 0 for payloads that are read, from the numbers of the set, and 1 for those that are
/// written. The renames are lines `THEIRS=OURS`.
///
/// `UnknownOption` if the direction is neither; otherwise `Malformed` if no numbering comes of the set and the renames,
/// for the reason that `write_list` says. An error writes nothing.
pub fn write_numbering(
    alloc: Global,
    direction: u32,
    set: &[u8],
    renames: &[u8],
    table: &mut [Renumbering],
) -> Result<usize, CallError>
    ensures { WritesNumbering direction set.now renames.now table.old table.new result }
{
    let direction = direction_of(direction).ok_or(CallError::UnknownOption)?;
    let entries = entries_of(alloc, set, renames, direction)?;
    write_front(entries.as_slice(), table);
    Ok(entries.len())
}

/// The direction that a number denotes.
fn direction_of(number: u32) -> Option<Direction>
    ensures { result ≡ direction_of number }
{
    match number {
        0 => Some(Direction::Reading),
        1 => Some(Direction::Writing),
        _ => None,
    }
}

/// The entries of the numbering of a set.
fn entries_of(
    alloc: Global,
    set: &[u8],
    renames: &[u8],
    direction: Direction,
) -> Result<Vec<Renumbering>, CallError>
    ensures { FindsNumbering direction set.now renames.now result }
{
    match numbering(alloc, set, renames, direction) {
        Ok(entries) => Ok(entries),
        Err(Rejection::OutOfMemory) => Err(CallError::OutOfMemory),
        Err(_) => Err(CallError::Malformed),
    }
}

/// Writes elements at the front of a slice, as many as there is room for.
fn write_front(entries: &[Renumbering], out: &mut [Renumbering])
    ensures { out.new ≡ front_over entries.now out.old }
{
    let count = entries.len().min(out.len());
    out[..count].copy_from_slice(&entries[..count]);
}

/// Writes one number, the kind of the text, and the text: which messages and fields of a set are the protocol's, or why
/// no numbering comes of the set and the renames. Returns its length in bytes; if there is no room for it, the number
/// is written nevertheless.
///
/// `NoRoom` if there is room for fewer than one number, before the set is read.
pub fn write_list(
    alloc: Global,
    set: &[u8],
    renames: &[u8],
    numbers: &mut [u64],
    out: &mut [u8],
) -> Result<usize, CallError>
    ensures { WritesList set.now numbers.old numbers.new out.old out.new result }
{
    if numbers.len() < LIST_NUMBERS {
        return Err(CallError::NoRoom);
    }
    let (kind, text) = match list_of(alloc, set, renames) {
        Ok(text) => (LISTED, text),
        Err(Rejection::Set(text)) => (NO_SET, text.into_bytes()),
        Err(Rejection::Rename(text)) => (NO_RENAME, text.into_bytes()),
        Err(Rejection::OutOfMemory) => return Err(CallError::OutOfMemory),
    };
    write_over(&[kind], numbers);
    write_over(text.as_slice(), out);
    Ok(text.len())
}

/// Writes a payload of a schema at the numbers of a table, and returns its length in bytes.
#[tactic(auto, using(crate::proofs::Writing::writes_outcome))]
pub fn write_renumbered(
    alloc: Global,
    schema: u32,
    table: &[Renumbering],
    payload: &[u8],
    out: &mut [u8],
) -> Result<usize, CallError>
    ensures { Writes (ReturnsRenumbered schema table.now payload.now) out.old out.new result }
{
    write_outcome(payload_of(alloc, schema, table, payload), out)
}

/// A payload of a schema at the numbers of a table.
fn payload_of(
    alloc: Global,
    schema: u32,
    table: &[Renumbering],
    payload: &[u8],
) -> Result<Vec<u8>, CallError>
    ensures { ReturnsRenumbered schema table.now payload.now (bytes_of result) }
{
    match renumbered(alloc, table, u64::from(schema), payload) {
        Ok(bytes) => Ok(bytes),
        Err(RenumberError::Malformed) => Err(CallError::Malformed),
        Err(RenumberError::TooLong) => Err(CallError::TooLong),
        Err(RenumberError::OutOfMemory) => Err(CallError::OutOfMemory),
    }
}

/// Writes a stream at the numbers of a table, and returns its length in bytes: each item under its header, except
/// the length of its payload, and the trailing bytes as they are. `UnknownVersion` if the number denotes no version.
#[tactic(auto, using(crate::proofs::Writing::writes_outcome))]
pub fn write_renumbered_stream(
    alloc: Global,
    version: u32,
    table: &[Renumbering],
    stream: &[u8],
    out: &mut [u8],
) -> Result<usize, CallError>
    ensures { Writes (ReturnsStream version table.now stream.now) out.old out.new result }
{
    write_outcome(stream_of(alloc, version, table, stream), out)
}

/// A stream at the numbers of a table, at the version that a number denotes.
fn stream_of(
    alloc: Global,
    version: u32,
    table: &[Renumbering],
    stream: &[u8],
) -> Result<Vec<u8>, CallError>
    ensures { ReturnsStream version table.now stream.now (bytes_of result) }
{
    let options = Options {
        version: version_of(version)?,
        limit: u32::MAX,
        entries: table,
    };
    items_of(alloc, &options, stream)
}

/// A stream at the numbers of a table, at a version.
fn items_of(alloc: Global, options: &Options<'_>, stream: &[u8]) -> Result<Vec<u8>, CallError>
    requires { 5 ≤ version_number options.now.version }
    ensures { ReturnsItems options.now.entries.now stream.now (bytes_of result) options.now.version }
{
    let mut input = stream;
    let mut output = Vec::new(alloc);
    match renumber(alloc, options, &mut input, &mut output) {
        Ok(report) => {
            if report.trouble.is_some() {
                return Err(CallError::Malformed);
            }
            Ok(output)
        }
        Err(PrintError::TooLong) => Err(CallError::TooLong),
        // no limit is set, and memory is read and written without a fault
        Err(_) => Err(CallError::OutOfMemory),
    }
}

/// Writes the dump of a stream by the messages of a set, and returns its length in bytes: a line of JSON for each item,
/// and last one for the trailing bytes. `UnknownVersion` if the number denotes no version; otherwise `Malformed` if no
/// table of messages comes of the set and the renames, for the reason that `write_list` says.
#[tactic(auto, using(crate::proofs::Writing::writes_outcome))]
pub fn write_dump(
    alloc: Global,
    version: u32,
    set: &[u8],
    renames: &[u8],
    stream: &[u8],
    out: &mut [u8],
) -> Result<usize, CallError>
    ensures { Writes (ReturnsDump version set.now renames.now stream.now) out.old out.new result }
{
    write_outcome(dump_of(alloc, version, set, renames, stream), out)
}

/// The dump of a stream by the messages of a set, at the version that a number denotes.
#[tactic(auto, using(crate::proofs::Dumps::dump_by_set))]
fn dump_of(
    alloc: Global,
    version: u32,
    set: &[u8],
    renames: &[u8],
    stream: &[u8],
) -> Result<Vec<u8>, CallError>
    ensures { ReturnsDump version set.now renames.now stream.now (bytes_of result) }
{
    let version = version_of(version)?;
    match messages_of(alloc, set, renames) {
        Ok(messages) => lines_by(alloc, version, &messages, stream),
        Err(Rejection::OutOfMemory) => Err(CallError::OutOfMemory),
        Err(_) => Err(CallError::Malformed),
    }
}

/// The messages of a set: its table, and which of them are those of the protocol.
#[derive(Drop)]
struct Messages {
    table: NamedTable<LoadedSchemas>,
    schemas: Vec<Option<u32>>,
}

/// The messages of a set, or why there are none.
#[tactic(auto, using(crate::proofs::SetsRead::reading_found))]
fn messages_of(alloc: Global, set: &[u8], renames: &[u8]) -> Result<Messages, Rejection>
    ensures set { IfOk result (λ _. IsDescriptorSet set.now) }
    ensures reading { IfOk result (λ messages. IsReadingOf set.now renames.now (reading_by
        (⟦<NamedTable<LoadedSchemas> as Schemas>⟧.table messages.table)
        (⟦<NamedTable<LoadedSchemas> as NamedSchemas>⟧.names messages.table) messages.schemas.items)) }
{
    let lines = lines_of(alloc, renames)?;
    let set = descriptors(alloc, set)?;
    let table = match named_table_of(alloc, &set) {
        Ok(table) => table,
        Err(error) => return Err(set_rejection(alloc, error)?),
    };
    match schemas_of(alloc, &set, lines.as_slice()) {
        Ok(schemas) => Ok(Messages { table, schemas }),
        Err(error) => Err(why_not(alloc, lines.as_slice(), error)?),
    }
}

/// The dump of a stream by messages, at a version.
#[tactic(auto, using(crate::proofs::Dumps::whole_dump))]
fn lines_by(
    alloc: Global,
    version: Version,
    messages: &Messages,
    stream: &[u8],
) -> Result<Vec<u8>, CallError>
    requires { 5 ≤ version_number version }
    ensures { ReturnsLines (reading_by (⟦<NamedTable<LoadedSchemas> as Schemas>⟧.table messages.now.table)
        (⟦<NamedTable<LoadedSchemas> as NamedSchemas>⟧.names messages.now.table) messages.now.schemas.items)
        stream.now (bytes_of result) version }
{
    let options = DumpOptions {
        version,
        limit: u32::MAX,
        codes: &[],
        payloads: true,
        texts: false,
        pretty: false,
        rest: true,
        strict: false,
    };
    let by = OtherTable {
        table: &messages.table,
        schemas: messages.schemas.as_slice(),
    };
    dump_by(alloc, &options, &by, stream)
}

/// The dump of a stream by messages and options.
fn dump_by<M: MessageTable>(
    alloc: Global,
    options: &DumpOptions<'_>,
    messages: &M,
    stream: &[u8],
) -> Result<Vec<u8>, CallError>
    requires { 5 ≤ version_number options.now.version }
    ensures { IsDumpBy (M.reading messages.now) options.now stream.now (bytes_of result) }
{
    let mut input = stream;
    let mut output = Vec::new(alloc);
    let dumping = Dumping {
        alloc,
        options: *options,
        messages,
    };
    match dumping.dump(&mut input, &mut output) {
        Ok(_) => Ok(output),
        Err(PrintError::TooLong) => Err(CallError::TooLong),
        // no limit is set, and memory is read and written without a fault
        Err(_) => Err(CallError::OutOfMemory),
    }
}

/// The numbering of a set.
#[tactic(auto, using(crate::proofs::SetsRead::numbering_found))]
fn numbering(
    alloc: Global,
    set: &[u8],
    renames: &[u8],
    direction: Direction,
) -> Result<Vec<Renumbering>, Rejection>
    ensures set { IfOk result (λ _. IsDescriptorSet set.now) }
    ensures ours { IfOk result (λ entries. All (IsOurs direction) entries.items) }
    ensures exact { IfOk result (λ entries. IsNumberingOf direction set.now renames.now entries.items) }
{
    let lines = lines_of(alloc, renames)?;
    let set = descriptors(alloc, set)?;
    numbering_in(alloc, &set, lines.as_slice(), direction)
}

/// The numbering of what is read of a set, with renames.
fn numbering_in(
    alloc: Global,
    set: &DescriptorSet,
    renames: &[Rename<'_>],
    direction: Direction,
) -> Result<Vec<Renumbering>, Rejection>
    ensures ours { IfOk result (λ entries. All (IsOurs direction) entries.items) }
    ensures exact { IfOk result (λ entries. numbering_entries set.now renames.now direction ≡ Ok entries.items) }
    ensures some { IfOk result (λ entries. 1 ≤ length entries.items) }
{
    match numbering_of(alloc, set, renames, direction) {
        Ok(entries) => Ok(entries),
        Err(error) => Err(why_not(alloc, renames, error)?),
    }
}

/// The list of what is the protocol's in a set of which a numbering comes.
fn list_of(alloc: Global, set: &[u8], renames: &[u8]) -> Result<Vec<u8>, Rejection>
    ensures { IfOk result (λ _. IsDescriptorSet set.now) }
{
    let lines = lines_of(alloc, renames)?;
    let set = descriptors(alloc, set)?;
    numbering_in(alloc, &set, lines.as_slice(), Direction::Reading)?;
    let mut text = Vec::new(alloc);
    match write_schema(alloc, &set, lines.as_slice(), &mut text) {
        Ok(()) => Ok(text),
        Err(error) => Err(why_not(alloc, lines.as_slice(), error)?),
    }
}

/// Reads a set.
fn descriptors(alloc: Global, set: &[u8]) -> Result<DescriptorSet, Rejection>
    ensures set { IfOk result (λ _. IsDescriptorSet set.now) }
    ensures read { IfOk result (λ read. IsSetOf set.now read) }
{
    match read_set(alloc, set) {
        Ok(set) => Ok(set),
        Err(error) => Err(set_rejection(alloc, error)?),
    }
}

/// The renames of lines.
fn lines_of<'a>(alloc: Global, renames: &'a [u8]) -> Result<Vec<Rename<'a>>, Rejection>
    ensures { IfOk result (λ said. AreRenamesOf renames.now said.items) }
{
    match str::from_utf8(renames) {
        Ok(text) => renames_in(alloc, text),
        Err(_) => Err(Rejection::Rename(String::from_str(alloc, "the renames are not UTF-8")?)),
    }
}

/// The renames of the lines of a text.
fn renames_in<'a>(alloc: Global, text: &'a str) -> Result<Vec<Rename<'a>>, Rejection>
    ensures { IfOk result (λ said. AreRenamesOf text.now said.items) }
{
    let mut said = Vec::new(alloc);
    for line in text.lines() {
        let rename = rename_in(alloc, line)?;
        said.push(rename)?;
    }
    Ok(said)
}

/// The rename that a line says.
fn rename_in<'a>(alloc: Global, line: &'a str) -> Result<Rename<'a>, Rejection>
    ensures { IfOk result (λ rename. Some (names_of rename) ≡ rename_of line.now) }
{
    match Rename::of(line) {
        Some(rename) => Ok(rename),
        None => Err(Rejection::Rename(format!(in alloc; "{line} is not THEIRS=OURS")?)),
    }
}

/// What is said of a set that no numbering comes of.
fn set_rejection(alloc: Global, error: DescriptorError) -> Result<Rejection, AllocError> {
    match error {
        DescriptorError::OutOfMemory => Ok(Rejection::OutOfMemory),
        error => Ok(Rejection::Set(format!(in alloc; "{error}")?)),
    }
}

/// What is said of a set and renames that no numbering comes of.
fn why_not(
    alloc: Global,
    renames: &[Rename<'_>],
    error: SchemaError,
) -> Result<Rejection, AllocError> {
    match error {
        SchemaError::Descriptor(error) => set_rejection(alloc, error),
        SchemaError::NoFields => Ok(Rejection::Set(format!(in alloc; "{error}")?)),
        SchemaError::Rename(index, fault) => match renames.get(index) {
            Some(rename) => {
                let (theirs, ours) = (rename.theirs, rename.ours);
                let text = format!(in alloc; "{theirs}={ours}: {fault}")?;
                Ok(Rejection::Rename(text))
            }
            None => Ok(Rejection::Rename(format!(in alloc; "{fault}")?)),
        },
        // writing to memory fails only for want of it
        SchemaError::Output | SchemaError::OutOfMemory => Ok(Rejection::OutOfMemory),
    }
}
