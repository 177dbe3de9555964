//! Descriptor sets: which one a call names, reading it, and reporting why there is none.

ghost use Rattle.std.specs.Prelude.{◌≡◌, ◌≢◌, [], None, Some, Ok, IfOk, IfErr, IsNone, codes, map, option_copied};
ghost use Rattle.std.specs.Prelude.{◌==◌, Err, option_map, string_bytes, string_len, if◌then◌else◌};
ghost use Rattle.std.specs.Process.{exit_status};
ghost use Rattle.clap.specs.Matches.{found_of};
ghost use Rattle.descriptor_set.specs.Sets.{IsSetOf};
ghost use Rattle.schema_lines.specs.Entries.{numbering_entries};
ghost use Rattle.schema_lines.specs.Named.{named_of};
ghost use Rattle.schema_lines.specs.Pairs.{schemas_in};
ghost use Rattle.schema_lines.specs.Renames.{names_of, rename_of, said_names};
ghost use Rattle.schema_lines.specs.declared.error.SchemaError.TheVariants.{NoFields};
ghost use Rattle.schema_lines.specs.declared.numbering.Direction.TheVariants.{Reading};
ghost use Rattle.journal.specs.Arguments.{AreRenamesOf, IsSchemaOf};
ghost use Rattle.journal.specs.Schemas.{IsNumberingBy, IsNumberingIn, IsPathBy, IsSetPath, IsTableIn};

use crate::call::{Call, INVALID};
use crate::similar::push_similar;
use clap::error::ErrorKind;
use clap::{ArgMatches, Command, Error};
use command_line::{Input, fail};
use descriptor_set::{DescriptorError, DescriptorSet, MOST_BYTES, named_table_of, read_set};
use dump_lines::OtherTable;
use schema_lines::{
    Direction, MESSAGE_NAMES, Rename, RenameFault, SchemaError, last_name, numbering_of,
    other_types, schemas_of,
};
use shared_core_codec::loaded_table::LoadedSchemas;
use shared_core_fields::payload_table::TableRef;
use shared_core_json::named_table::NamedTable;
use shared_core_renumber::Renumbering;
use std::alloc::{AllocError, Global};
use std::env::{self, VarError};
use std::io::{self, Read};
use std::process::ExitCode;
use terminal_text::{Escapes, push_escaped};

/// The variable of the environment that names a set where no option does.
const VARIABLE: &str = "PENDRATSOA_SCHEMA";

/// By what payloads are read, as options say it.
#[derive(Drop)]
pub struct SchemaArguments<'a> {
    /// The path of a descriptor set, or `-` for the standard input.
    pub path: Option<&'a str>,
    /// Which messages have other names there.
    pub renames: Vec<Rename<'a>>,
}

/// The options `--schema` and `--rename`. The error is a rename of another form.
pub fn schema_arguments<'a>(
    alloc: Global,
    command: &mut Command<'_>,
    matches: &ArgMatches<'a>,
) -> Result<SchemaArguments<'a>, Error>
    ensures { IfOk result (IsSchemaOf (found_of matches.now)) }
{
    Ok(SchemaArguments {
        path: matches.get_str("schema"),
        renames: renames_of(alloc, command, matches)?,
    })
}

/// The option `--rename`. The error is one of another form.
pub fn renames_of<'a>(
    alloc: Global,
    command: &mut Command<'_>,
    matches: &ArgMatches<'a>,
) -> Result<Vec<Rename<'a>>, Error>
    ensures { IfOk result (λ renames. AreRenamesOf (found_of matches.now) renames.items) }
{
    renames_in(alloc, command, matches.get_strs("rename").unwrap_or(&[]))
}

/// The renames that words say.
fn renames_in<'a>(
    alloc: Global,
    command: &mut Command<'_>,
    words: &[&'a str],
) -> Result<Vec<Rename<'a>>, Error>
    ensures { IfOk result (λ renames. said_names renames.items ≡ map rename_of (map (λ word. word.now) words.now)) }
{
    let mut renames = Vec::new(alloc);
    for word in words {
        let word: &'a str = *word;
        let rename = rename_in(alloc, command, word)?;
        renames.push(rename)?;
    }
    Ok(renames)
}

/// The rename that a word says.
fn rename_in<'a>(
    alloc: Global,
    command: &mut Command<'_>,
    word: &'a str,
) -> Result<Rename<'a>, Error>
    ensures { IfOk result (λ rename. Some (names_of rename) ≡ rename_of word.now) }
{
    if let Some(rename) = Rename::of(word) {
        return Ok(rename);
    }
    let why = format!(in alloc; "--rename {word} is not THEIRS=OURS")?;
    Err(command.error(ErrorKind::InvalidValue, why.as_str())?)
}

/// The path of the set by which the payloads of an input are read: that of the option, or else of the variable; `None`
/// for the protocol's own description. If there is none for a reason, reports it, and the error is the status.
pub fn schema_path(
    call: &Call<'_>,
    schema: &SchemaArguments<'_>,
    input: &str,
) -> Result<Option<String>, ExitCode>
    ensures { IfOk result (λ path. IsSetPath schema.now input.now (option_map string_bytes path)) }
{
    let path = match named_or_variable(call, schema.path) {
        Ok(path) => path,
        Err(VarError::OutOfMemory) => return Err(call.fail("out of memory", call.failure)),
        Err(_) => {
            return Err(fail(
                call.rt,
                call.name,
                format_args!("{VARIABLE} is not UTF-8"),
                INVALID,
            ));
        }
    };
    match why_not(path.as_ref().map(|path| path.as_str()), schema, input) {
        Some(why) => Err(call.fail(why, INVALID)),
        None => Ok(path),
    }
}

/// Why there is no set by which an input is read.
fn why_not(path: Option<&str>, schema: &SchemaArguments<'_>, input: &str) -> Option<&'static str>
    ensures once { IsNone result → option_copied path.entry ≡ Some (codes "-") → input.now ≢ codes "-" }
    ensures renames { IsNone result → path.entry ≡ None → schema.now.renames.items ≡ [] }
{
    match path {
        Some(path) if path == "-" && input == "-" => {
            Some("either the input or the descriptor set can come from the standard input")
        }
        None if !schema.renames.is_empty() => Some("--rename is of a set, which --schema names"),
        _ => None,
    }
}

/// The path of an option, or else of the variable, if that is not empty.
fn named_or_variable(call: &Call<'_>, option: Option<&str>) -> Result<Option<String>, VarError>
    ensures { IfOk result
        (λ path. IsPathBy (option_map (λ named. named.now) option.entry) (option_map string_bytes path)) }
{
    if let Some(path) = option {
        return Ok(Some(String::from_str(call.rt.alloc(), path)?));
    }
    match env::var(call.rt, VARIABLE) {
        Ok(path) => Ok(not_empty(path)),
        Err(VarError::NotPresent) => Ok(None),
        Err(error) => Err(error),
    }
}

/// A path, unless it is empty.
fn not_empty(path: String) -> Option<String>
    ensures exact { result ≡ (if string_len path == 0 then None else Some path) }
    ensures filled { option_map string_bytes result ≢ Some [] }
{
    if path.is_empty() { None } else { Some(path) }
}

/// The table of a descriptor set, by reference.
pub type TheirTable<'a> = TableRef<'a, NamedTable<LoadedSchemas>>;

/// The table of a descriptor set, and which of its messages are those of the protocol.
#[derive(Drop)]
pub struct OtherMessages {
    table: NamedTable<LoadedSchemas>,
    schemas: Vec<Option<u32>>,
}

impl OtherMessages {
    /// By what a stream is dumped.
    pub fn table(&self) -> OtherTable<'_, NamedTable<LoadedSchemas>> {
        OtherTable {
            table: &self.table,
            schemas: self.schemas.as_slice(),
        }
    }
}

/// What a set says of streams: how their payloads are read at the protocol's numbers, and by the set itself.
#[derive(Drop)]
pub struct Description {
    /// The fields that both have, from the numbers of the set to those of the protocol.
    pub numbering: Vec<Renumbering>,
    pub messages: OtherMessages,
}

/// A file that was read, and what options say of the set in it.
#[derive(Drop)]
struct SetFile<'a> {
    path: &'a str,
    bytes: Vec<u8>,
    renames: &'a [Rename<'a>],
}

impl<'a> SetFile<'a> {
    /// Reads a file, or the standard input if the path is `-`. If that fails, reports why, and the error is the status.
    fn read(
        call: &Call<'_>,
        path: &'a str,
        renames: &'a [Rename<'a>],
    ) -> Result<SetFile<'a>, ExitCode>
        ensures { IfOk result (λ file. file.renames.now ≡ renames.now) }
    {
        let bytes = read_bytes(call, path)?;
        Ok(SetFile {
            path,
            bytes,
            renames,
        })
    }
}

/// Reads the set of a file, and finds the messages of the protocol in it. If there is a fault, reports it, and the
/// error is the status.
pub fn read_messages(
    call: &Call<'_>,
    path: &str,
    renames: &[Rename<'_>],
) -> Result<OtherMessages, ExitCode> {
    let file = SetFile::read(call, path, renames)?;
    messages_in(call, &file)
}

/// The messages of the protocol in the set of a file. If there is a fault, reports it, and the error is the status.
#[tactic(auto, using(crate::proofs::SetsMade::table_made))]
fn messages_in(call: &Call<'_>, file: &SetFile<'_>) -> Result<OtherMessages, ExitCode>
    ensures { IfOk result
        (λ messages. IsTableIn file.now.bytes.items file.now.renames.now messages.schemas.items) }
{
    let set = descriptors_in(call, file.path, file.bytes.as_slice())?;
    let made = messages_of(call.rt.alloc(), &set, file.renames);
    let messages = made_of(call, file, &set, made)?;
    Ok(messages)
}

/// Reads the set of a file, and makes the table by which payloads are written again from its numbers to the protocol's,
/// or back. If there is a fault, reports it, and the error is the status.
#[tactic(auto, using(crate::proofs::SetsMade::numbering_of_a_file))]
pub fn read_numbering(
    call: &Call<'_>,
    path: &str,
    renames: &[Rename<'_>],
    direction: Direction,
) -> Result<Vec<Renumbering>, ExitCode>
    ensures { IfOk result (λ entries. IsNumberingBy renames.now direction entries.items) }
{
    let file = SetFile::read(call, path, renames)?;
    let entries = numbering_in(call, &file, direction)?;
    Ok(entries)
}

/// That table of the set of a file. If there is a fault, reports it, and the error is the status.
#[tactic(auto, using(crate::proofs::SetsMade::numbering_made))]
fn numbering_in(
    call: &Call<'_>,
    file: &SetFile<'_>,
    direction: Direction,
) -> Result<Vec<Renumbering>, ExitCode>
    ensures { IfOk result
        (λ entries. IsNumberingIn file.now.bytes.items file.now.renames.now direction entries.items) }
{
    let set = descriptors_in(call, file.path, file.bytes.as_slice())?;
    let made = numbering_of(call.rt.alloc(), &set, file.renames, direction);
    let entries = made_of(call, file, &set, made)?;
    Ok(entries)
}

/// Reads the set of a file, and what it says of streams. If there is a fault, reports it, and the error is the status.
#[tactic(auto, using(crate::proofs::SetsMade::numbering_of_a_file))]
pub fn read_description(
    call: &Call<'_>,
    path: &str,
    renames: &[Rename<'_>],
) -> Result<Description, ExitCode>
    ensures { IfOk result (λ description. IsNumberingBy renames.now Reading description.numbering.items) }
{
    let file = SetFile::read(call, path, renames)?;
    let description = description_in(call, &file)?;
    Ok(description)
}

/// What the set of a file says of streams. If there is a fault, reports it, and the error is the status.
#[tactic(auto, using(crate::proofs::SetsMade::described_numbering, crate::proofs::SetsMade::described_table))]
fn description_in(call: &Call<'_>, file: &SetFile<'_>) -> Result<Description, ExitCode>
    ensures numbering { IfOk result (λ description.
        IsNumberingIn file.now.bytes.items file.now.renames.now Reading description.numbering.items) }
    ensures messages { IfOk result (λ description.
        IsTableIn file.now.bytes.items file.now.renames.now description.messages.schemas.items) }
{
    let set = descriptors_in(call, file.path, file.bytes.as_slice())?;
    let made = description_of(call.rt.alloc(), &set, file.renames);
    let description = made_of(call, file, &set, made)?;
    Ok(description)
}

/// The name of a type that only a set has.
#[derive(Drop)]
pub struct TypeName {
    pub code: u16,
    pub name: String,
}

/// Reads the set of a file, and finds the names of the types that only the set has. If there is a fault, reports it,
/// and the error is the status.
pub fn read_type_names(
    call: &Call<'_>,
    path: &str,
    renames: &[Rename<'_>],
) -> Result<Vec<TypeName>, ExitCode> {
    let file = SetFile::read(call, path, renames)?;
    let set = descriptors_in(call, path, file.bytes.as_slice())?;
    let made = type_names_of(call.rt.alloc(), &set, renames);
    made_of(call, &file, &set, made)
}

/// The last names of the messages of the types that only a set has, escaped as for a terminal.
fn type_names_of(
    alloc: Global,
    set: &DescriptorSet,
    renames: &[Rename<'_>],
) -> Result<Vec<TypeName>, SchemaError> {
    let types = other_types(alloc, set, renames)?;
    let mut names = Vec::new(alloc);
    for found in &types {
        if let Some(message) = set.messages.get(found.message) {
            let mut name = String::new(alloc);
            push_escaped(&mut name, Escapes::Text, last_name(message.name.as_str()))?;
            names.push(TypeName {
                code: found.code,
                name,
            })?;
        }
    }
    Ok(names)
}

/// The table of a set, and which of its messages are those of the protocol.
fn messages_of(
    alloc: Global,
    set: &DescriptorSet,
    renames: &[Rename<'_>],
) -> Result<OtherMessages, SchemaError>
    ensures { IfOk result
        (λ messages. schemas_in set.now (named_of set.now renames.now) ≡ Ok messages.schemas.items) }
{
    Ok(OtherMessages {
        table: named_table_of(alloc, set)?,
        schemas: schemas_of(alloc, set, renames)?,
    })
}

/// What a set says of streams.
fn description_of(
    alloc: Global,
    set: &DescriptorSet,
    renames: &[Rename<'_>],
) -> Result<Description, SchemaError>
    ensures numbering { IfOk result
        (λ description. numbering_entries set.now renames.now Reading ≡ Ok description.numbering.items) }
    ensures messages { IfOk result (λ description.
        schemas_in set.now (named_of set.now renames.now) ≡ Ok description.messages.schemas.items) }
{
    Ok(Description {
        numbering: numbering_of(alloc, set, renames, Direction::Reading)?,
        messages: messages_of(alloc, set, renames)?,
    })
}

/// What was made of the set of a file. If it was not, reports why, and the error is the status.
fn made_of<T: Drop>(
    call: &Call<'_>,
    file: &SetFile<'_>,
    set: &DescriptorSet,
    made: Result<T, SchemaError>,
) -> Result<T, ExitCode>
    ensures same { IfOk result (λ value. made ≡ Ok value) }
    ensures no_fields { IfErr result (λ status. made ≡ Err NoFields → exit_status status ≡ 2) }
{
    let path = file.path;
    match made {
        Ok(made) => Ok(made),
        Err(SchemaError::Descriptor(error)) => Err(fail_descriptors(call, path, error)),
        Err(error @ SchemaError::NoFields) => {
            Err(fail(call.rt, call.name, format_args!("{path}: {error}"), INVALID))
        }
        Err(error) => Err(fail_schema(call, set, file.renames, error)),
    }
}

/// Reads a set of a file, or of the standard input if the path is `-`. If there is none, reports why, and the error is
/// the status.
pub fn read_descriptors(call: &Call<'_>, path: &str) -> Result<DescriptorSet, ExitCode> {
    let bytes = read_bytes(call, path)?;
    descriptors_in(call, path, bytes.as_slice())
}

/// Reads the bytes of such a file. If that fails, reports why, and the error is the status.
fn read_bytes(call: &Call<'_>, path: &str) -> Result<Vec<u8>, ExitCode> {
    let input = call.open(path)?;
    match read(call.rt.alloc(), input) {
        Ok(bytes) => Ok(bytes),
        Err(error) => Err(fail(
            call.rt,
            call.name,
            format_args!("{path}: {error}"),
            call.failure,
        )),
    }
}

/// The set in the bytes of a file. If there is none, reports why, and the error is the status.
fn descriptors_in(call: &Call<'_>, path: &str, bytes: &[u8]) -> Result<DescriptorSet, ExitCode>
    ensures { IfOk result (IsSetOf bytes.now) }
{
    match read_set(call.rt.alloc(), bytes) {
        Ok(set) => Ok(set),
        Err(DescriptorError::Malformed(_)) if is_proto(bytes) => Err(fail(
            call.rt,
            call.name,
            format_args!(
                "{path}: a text, and not a descriptor set, which this makes of a .proto file: protoc --include_imports -o schema.binpb {path}",
            ),
            INVALID,
        )),
        Err(error) => Err(fail_descriptors(call, path, error)),
    }
}

/// Reports what is wrong with the set of a file, and returns the status.
pub fn fail_descriptors(call: &Call<'_>, path: &str, error: DescriptorError) -> ExitCode {
    match error {
        DescriptorError::OutOfMemory => call.fail(error, call.failure),
        error => fail(call.rt, call.name, format_args!("{path}: {error}"), INVALID),
    }
}

/// Reports why the messages of a set are not found, and returns the status.
pub fn fail_schema(
    call: &Call<'_>,
    set: &DescriptorSet,
    renames: &[Rename<'_>],
    error: SchemaError,
) -> ExitCode {
    if let SchemaError::Rename(index, fault) = error {
        if let Some(rename) = renames.get(index) {
            return match rename_text(call.rt.alloc(), set, rename, fault) {
                Ok(text) => call.fail(text, INVALID),
                Err(error) => call.fail(error, call.failure),
            };
        }
    }
    call.fail(error, call.failure)
}

/// What is wrong with a rename, and the names that are like one that is not there.
fn rename_text(
    alloc: Global,
    set: &DescriptorSet,
    rename: &Rename<'_>,
    fault: RenameFault,
) -> Result<String, AllocError> {
    let (theirs, ours) = (rename.theirs, rename.ours);
    let mut text = format!(in alloc; "--rename {theirs}={ours}: ")?;
    match fault {
        RenameFault::UnknownHere => {
            write!(text, "there is no message {ours} here")?;
            push_similar(alloc, &mut text, ours, &MESSAGE_NAMES)?;
        }
        RenameFault::UnknownThere => {
            write!(text, "there is no message {theirs} there")?;
            let mut names = Vec::new(alloc);
            for message in &set.messages {
                names.push(last_name(message.name.as_str()))?;
            }
            push_similar(alloc, &mut text, theirs, names.as_slice())?;
        }
        RenameFault::Twice => write!(text, "{ours} has another name there already")?,
    }
    Ok(text)
}

/// Reads an input as far as a set may be long, and a byte more.
fn read(alloc: Global, input: Input) -> io::Result<Vec<u8>> {
    let mut bytes = Vec::new(alloc);
    input.take(MOST_BYTES as u64 + 1).read_to_end(&mut bytes)?;
    Ok(bytes)
}

/// Whether bytes that were rejected as a set are a .proto file: a text that is not empty.
fn is_proto(bytes: &[u8]) -> bool {
    !bytes.is_empty() && str::from_utf8(bytes).is_ok()
}
