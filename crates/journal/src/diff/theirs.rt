//! The fields that only a descriptor set has: the first command of two journals in which they differ.
//!
//! The journals are compared at the protocol's numbers, where such a field is left out. Here all that is left out is
//! compared: the fields that `numbering_of` has no entry for, in the canonical payloads by the set.

ghost use Rattle.std.specs.Prelude.{◌≤◌};
ghost use Rattle.shared_core_base.specs.Version.{version_number};

use crate::descriptors::{Description, TheirTable};
use bytes::Bytes;
use dump_lines::{MessageTable, TypedPayload};
use field_paths::label::next_index;
use json::Writer;
use replay_bench::Side;
use shared_core::CommandType;
use shared_core::encoding::{Item, ItemReader, RawMessage, ReadError};
use shared_core_base::header::MessageType;
use shared_core_base::version::Version;
use shared_core_fields::fields::{CanonicalPayload, FieldValue};
use shared_core_json::digits::Digits;
use shared_core_json::named_schemas::NamedSchemas;
use shared_core_json::{JsonError, write_byte_string, write_run, write_u32, write_u64};
use shared_core_message::schemas::schema_at;
use shared_core_renumber::Renumbering;
use std::alloc::{AllocError, Global};
use std::cmp::Ordering;
use std::io::Cursor;

/// The levels of messages: all that a payload may have.
const LEVELS: u32 = 101;

/// The member of a dump that has a payload without a message in the set.
const BYTES: &str = "bytes";

/// What a canonical payload by the set is.
type Payload<'a> = CanonicalPayload<'a, TheirTable<'a>>;

/// What a field of it holds.
type Value<'a> = FieldValue<'a, Payload<'a>>;

/// Two journals as they are given, at the numbers of the set.
#[derive(Drop)]
pub struct Given {
    pub recorded: Vec<u8>,
    pub replayed: Vec<u8>,
}

/// A field that only the set has, in which two commands differ.
#[derive(Drop)]
pub struct TheirField {
    /// Its path, by the names that a dump by the set has.
    pub path: String,
    /// Its value in the recorded command, as such a dump has it; `None` if it is not there.
    pub recorded: Option<String>,
    /// The same in the replayed command.
    pub replayed: Option<String>,
}

/// Two commands that differ in fields that only the set has.
#[derive(Drop)]
pub struct TheirDifference {
    /// The index of both.
    pub index: u64,
    /// The type of both.
    pub ty: MessageType,
    /// The offset of the recorded one in its journal as it is given, in bytes.
    pub recorded_at: u64,
    /// The same of the replayed one.
    pub replayed_at: u64,
    /// The fields, by their paths.
    pub fields: Vec<TheirField>,
}

/// Why no further commands are compared by the set.
#[derive(Drop)]
pub enum Unread {
    /// The payload of the command at this index of this journal is not well-formed by the set.
    Malformed(Side, u64),
    /// The canonical payload by the set has more than 4,294,967,295 bytes.
    TooLong,
    OutOfMemory,
}

impl From<AllocError> for Unread {
    fn from(_error: AllocError) -> Unread {
        Unread::OutOfMemory
    }
}

/// The commands of a journal in memory, one after the other.
#[derive(Drop)]
struct Commands<'a> {
    items: ItemReader<Cursor<&'a [u8]>>,
    /// The offset of the next item, in bytes.
    offset: u64,
}

impl<'a> Commands<'a> {
    /// Those of a journal.
    fn new(alloc: Global, version: Version, bytes: &'a [u8]) -> Commands<'a>
        requires { 5 ≤ version_number version }
    {
        Commands {
            items: ItemReader::new(alloc, version, Cursor::new(bytes)),
            offset: 0,
        }
    }

    /// The next command with its offset, or `None` where the journal has no further one.
    fn next_command(&mut self) -> Result<Option<(RawMessage, u64)>, AllocError> {
        for _ in 0..u64::MAX {
            let read = match self.items.next_item() {
                Ok(read) => read,
                Err(error) => return ended(error),
            };
            let Some(item) = read else {
                return Ok(None);
            };
            let offset = self.offset;
            self.offset = offset.saturating_add(item.size());
            if let Some(command) = command_of(item) {
                return Ok(Some((command, offset)));
            }
        }
        Ok(None)
    }
}

/// What a read that failed gives: trailing bytes are in no command, and nothing else of a journal in memory fails.
fn ended(error: ReadError) -> Result<Option<(RawMessage, u64)>, AllocError> {
    match error {
        ReadError::OutOfMemory => Err(AllocError),
        _other => Ok(None),
    }
}

/// The command that an item is, if it is one.
fn command_of(item: Item) -> Option<RawMessage> {
    match item {
        Item::Message(message) => command_message(message),
        Item::Unknown(_code) => None,
        Item::Skipped(_code, _payload) => None,
    }
}

/// A message, if it is a command.
fn command_message(message: RawMessage) -> Option<RawMessage> {
    match CommandType::try_from(message.ty()) {
        Ok(_command) => Some(message),
        Err(_other) => None,
    }
}

/// The first commands of two journals that differ in fields which only the set has; `None` if there are none up to the
/// first ones of two types, or the end of one journal. The error is that of the first command that is not read.
pub fn their_difference(
    alloc: Global,
    version: Version,
    description: &Description,
    given: &Given,
) -> Result<Option<TheirDifference>, Unread>
    requires { 5 ≤ version_number version }
{
    let mut journals = BothCommands {
        recorded: Commands::new(alloc, version, given.recorded.as_slice()),
        replayed: Commands::new(alloc, version, given.replayed.as_slice()),
    };
    for index in 0..u64::MAX {
        let Some(pair) = journals.next_pair()? else {
            return Ok(None);
        };
        let at = Place {
            alloc,
            version,
            description,
            index,
            ty: pair.ty,
        };
        let fields = at.fields(pair.recorded.payload(), pair.replayed.payload())?;
        if !fields.is_empty() {
            return Ok(Some(pair.with_fields(index, fields)));
        }
    }
    Ok(None)
}

/// The commands of two journals.
#[derive(Drop)]
struct BothCommands<'a> {
    recorded: Commands<'a>,
    replayed: Commands<'a>,
}

impl<'a> BothCommands<'a> {
    /// The next commands, or `None` if they have two types, or one journal has no further one.
    fn next_pair(&mut self) -> Result<Option<Pair>, AllocError> {
        let Some((recorded, recorded_at)) = self.recorded.next_command()? else {
            return Ok(None);
        };
        let Some((replayed, replayed_at)) = self.replayed.next_command()? else {
            return Ok(None);
        };
        let ty = recorded.ty();
        let is_one_type = ty == replayed.ty();
        let pair = Pair {
            ty,
            recorded,
            recorded_at,
            replayed,
            replayed_at,
        };
        Ok(is_one_type.then_some(pair))
    }
}

/// Two commands of one type, with their offsets in the journals, in bytes.
#[derive(Drop)]
struct Pair {
    ty: MessageType,
    recorded: RawMessage,
    recorded_at: u64,
    replayed: RawMessage,
    replayed_at: u64,
}

impl Pair {
    /// The difference of the two at an index, which is in these fields.
    fn with_fields(&self, index: u64, fields: Vec<TheirField>) -> TheirDifference {
        TheirDifference {
            index,
            ty: self.ty,
            recorded_at: self.recorded_at,
            replayed_at: self.replayed_at,
            fields,
        }
    }
}

/// Where two commands of one type are compared, and by what.
#[derive(Clone, Copy)]
struct Place<'a> {
    alloc: Global,
    version: Version,
    description: &'a Description,
    index: u64,
    ty: MessageType,
}

impl<'a> Place<'a> {
    /// The fields that only the set has, in which both differ.
    fn fields(&self, recorded: &Bytes, replayed: &Bytes) -> Result<Vec<TheirField>, Unread> {
        if recorded == replayed && self.is_canonical(recorded) {
            return Ok(Vec::new(self.alloc));
        }
        let recorded = self.values(Side::Recorded, recorded)?;
        let replayed = self.values(Side::Replayed, replayed)?;
        Ok(differences(self.alloc, recorded.as_slice(), replayed.as_slice())?)
    }

    /// Whether a payload is canonical by the set, as most are.
    fn is_canonical(&self, payload: &Bytes) -> bool {
        let messages = self.description.messages.table();
        match messages.schema_of(self.version, self.ty) {
            Some(schema) => {
                CanonicalPayload::check_in(messages.table(), schema, payload.as_slice()).is_some()
            }
            None => true,
        }
    }

    /// The values of the fields that only the set has in the payload of a side, by their paths. If the set has no
    /// message for it, that is its bytes.
    fn values(&self, side: Side, payload: &Bytes) -> Result<Vec<PathValue>, Unread> {
        let mut values = Values {
            alloc: self.alloc,
            numbering: self.description.numbering.as_slice(),
            values: Vec::new(self.alloc),
        };
        self.push_values(side, payload, &mut values)?;
        values
            .values
            .sort_by(|one, other| one.path.cmp(&other.path))?;
        Ok(values.values)
    }

    /// Appends these values.
    fn push_values(
        &self,
        side: Side,
        payload: &Bytes,
        values: &mut Values<'_>,
    ) -> Result<(), Unread> {
        let messages = self.description.messages.table();
        let typed = TypedPayload {
            version: self.version,
            ty: self.ty,
            bytes: payload,
        };
        let mut canonical = Vec::new(self.alloc);
        match messages.canonical_of(self.alloc, typed, &mut canonical) {
            Ok(Some(schema)) => {
                let table = messages.table();
                if let Some(read) = CanonicalPayload::check_in(
                    table,
                    schema,
                    canonical.as_slice(),
                ) {
                    let ours = schema_at(self.version, self.ty).map(u64::from);
                    values.push_message(ours, "", read, LEVELS)?;
                }
            }
            Ok(None) => {
                values.push(
                    BYTES,
                    Digits::Unsigned,
                    FieldValue::ByteString(payload.as_slice()),
                )?;
            }
            Err(JsonError::Malformed) => return Err(Unread::Malformed(side, self.index)),
            Err(JsonError::TooLong) => return Err(Unread::TooLong),
            Err(JsonError::OutOfMemory) => return Err(Unread::OutOfMemory),
        }
        Ok(())
    }
}

/// A value of a field, as a dump has it.
#[derive(Drop)]
struct PathValue {
    path: String,
    value: String,
}

/// The values so far.
#[derive(Drop)]
struct Values<'a> {
    alloc: Global,
    /// The fields that both have.
    numbering: &'a [Renumbering],
    values: Vec<PathValue>,
}

impl<'a> Values<'a> {
    /// Appends the values of a message that are left out of it at the protocol's numbers: of this schema, or all if it
    /// has none. Messages are nested in it fewer than `left` deep.
    fn push_message(
        &mut self,
        ours: Option<u64>,
        path: &str,
        payload: Payload<'_>,
        left: u32,
    ) -> Result<(), AllocError> {
        if left == 0 {
            return Ok(());
        }
        let mut before = 0;
        let mut index = 0;
        for field in payload.fields_in() {
            index = next_index(before, index, field.number);
            before = field.number;
            let both = self.entry(ours, field.number);
            let name = payload.schemas.name_of(payload.schema, field.number);
            let mut label = String::from_str(self.alloc, path)?;
            if !path.is_empty() {
                label.push('.')?;
            }
            label.push_str(name)?;
            if field.is_repeated && is_element(&field.value) {
                write!(label, "[{index}]")?;
            }
            match (field.value, both) {
                (FieldValue::Message(message), Some(entry)) => {
                    let ours = entry.nested.checked_sub(1);
                    self.push_message(ours, label.as_str(), message, left - 1)?;
                }
                (_, Some(_)) => {}
                (FieldValue::Message(message), None) if !message.bytes.is_empty() => {
                    self.push_message(None, label.as_str(), message, left - 1)?;
                }
                (value, None) => {
                    let digits = payload.schemas.digits_of(payload.schema, field.number);
                    self.push(label.as_str(), digits, value)?;
                }
            }
        }
        Ok(())
    }

    /// The entry of a field that both have, by its number in the set.
    fn entry(&self, ours: Option<u64>, number: u32) -> Option<Renumbering> {
        let schema = ours?;
        self.numbering
            .iter()
            .find(|entry| entry.schema == schema && entry.number == u64::from(number))
            .copied()
    }

    /// Appends a value, whose numbers are written so.
    fn push(&mut self, path: &str, digits: Digits, value: Value<'_>) -> Result<(), AllocError> {
        let path = String::from_str(self.alloc, path)?;
        let mut out = Writer::new(Vec::new(self.alloc));
        write_value(self.alloc, &mut out, digits, value)?;
        let text = out.into_inner();
        let value = String::from_str(self.alloc, str::from_utf8(text.as_slice()).unwrap_or(""))?;
        self.values.push(PathValue { path, value })?;
        Ok(())
    }
}

/// Whether a value of a list is one element of it.
fn is_element(value: &Value<'_>) -> bool {
    matches!(
        value,
        FieldValue::Text(_) | FieldValue::ByteString(_) | FieldValue::Message(_)
    )
}

/// Writes a value as a dump has it. A message has no fields.
fn write_value(
    alloc: Global,
    out: &mut Writer,
    digits: Digits,
    value: Value<'_>,
) -> Result<(), AllocError> {
    match value {
        FieldValue::U32(number) => write_u32(out, digits, number),
        FieldValue::U64(number) => write_u64(out, digits, number),
        FieldValue::Boolean(flag) => out.boolean(flag),
        FieldValue::Enumeration(number) => out.i64(i64::from(number)),
        FieldValue::Text(text) => out.string(text),
        FieldValue::ByteString(bytes) => {
            write_byte_string(out, &mut Vec::new(alloc), false, bytes)
        }
        FieldValue::Message(_) => {
            out.begin_object()?;
            out.end_object()
        }
        FieldValue::Numbers(run) => write_run(out, digits, run),
    }
}

/// The fields in which two commands differ, by their values in the order of paths.
fn differences(
    alloc: Global,
    recorded: &[PathValue],
    replayed: &[PathValue],
) -> Result<Vec<TheirField>, AllocError> {
    let mut fields = Vec::new(alloc);
    let mut ones = recorded;
    let mut others = replayed;
    for _ in 0..u64::MAX {
        let (one, other) = first_of(ones, others);
        let Some(either) = one.or(other) else {
            return Ok(fields);
        };
        if one.is_some() {
            ones = rest_of(ones);
        }
        if other.is_some() {
            others = rest_of(others);
        }
        let recorded = one.map(|found| found.value.as_str());
        let replayed = other.map(|found| found.value.as_str());
        if recorded != replayed {
            fields.push(TheirField {
                path: String::from_str(alloc, either.path.as_str())?,
                recorded: copied(alloc, recorded)?,
                replayed: copied(alloc, replayed)?,
            })?;
        }
    }
    Ok(fields)
}

/// The first values of two lists, or that of the lesser path.
fn first_of<'v>(
    ones: &'v [PathValue],
    others: &'v [PathValue],
) -> (Option<&'v PathValue>, Option<&'v PathValue>) {
    let (Some(one), Some(other)) = (ones.first(), others.first()) else {
        return (ones.first(), others.first());
    };
    match one.path.cmp(&other.path) {
        Ordering::Less => (Some(one), None),
        Ordering::Equal => (Some(one), Some(other)),
        Ordering::Greater => (None, Some(other)),
    }
}

/// What follows the first value of a list.
fn rest_of(values: &[PathValue]) -> &[PathValue] {
    values.get(1..).unwrap_or(&[])
}

/// A copy of a text, if there is one.
fn copied(alloc: Global, text: Option<&str>) -> Result<Option<String>, AllocError> {
    match text {
        Some(text) => Ok(Some(String::from_str(alloc, text)?)),
        None => Ok(None),
    }
}
