//! The rows of messages and their fields.

ghost use Rattle.std.specs.Prelude.{◌≡◌, IfOk};
ghost use Rattle.schema_lines.specs.Fields.{json_index, matching, plain_index};

use crate::kinds::{
    Ours, is_map, is_same_kind, kind_name, message_name, our_field, their_kind, their_label,
};
use crate::message_names::MESSAGE_COUNT;
use crate::names::{is_same, plain};
use crate::pairs::Pairs;
use crate::rows::{Row, Said};
use descriptor_set::{DescriptorSet, FieldDescriptor, MessageDescriptor};
use shared_core_json::names::names_of;
use std::alloc::{AllocError, Global};
use terminal_text::{Escapes, push_escaped};

/// The rows of all messages: first the protocol's with their fields, then those that only the set has.
pub(crate) fn all_rows(
    alloc: Global,
    set: &DescriptorSet,
    pairs: &Pairs,
) -> Result<Vec<Row>, AllocError> {
    let mut table = Table {
        alloc,
        set,
        pairs,
        rows: Vec::new(alloc),
    };
    for schema in 0..MESSAGE_COUNT {
        table.append_schema(schema)?;
    }
    for (index, message) in set.messages.iter().enumerate() {
        if !pairs.has(index) && !message.is_map_entry {
            table.append_other(message)?;
        }
    }
    Ok(table.rows)
}

/// The rows so far, and what they are of.
#[derive(Drop)]
struct Table<'a> {
    alloc: Global,
    set: &'a DescriptorSet,
    pairs: &'a Pairs,
    rows: Vec<Row>,
}

impl<'a> Table<'a> {
    /// Appends the rows of a message of the protocol.
    fn append_schema(&mut self, schema: u32) -> Result<(), AllocError> {
        let found = self
            .pairs
            .theirs(schema)
            .and_then(|index| self.set.messages.get(index));
        match found {
            Some(message) => self.append_fields(schema, message),
            None => self.append_missing(schema),
        }
    }

    /// Appends the row of a message that the set does not have.
    fn append_missing(&mut self, schema: u32) -> Result<(), AllocError> {
        let mut row = Row::new(self.alloc, Said::OnlyHere);
        row.push_name(message_name(schema))?;
        let count = field_count(schema);
        write!(row.here, "a message, fields: {count}")?;
        self.rows.push(row)?;
        Ok(())
    }

    /// Appends the row of a message that only the set has.
    fn append_other(&mut self, message: &MessageDescriptor) -> Result<(), AllocError> {
        let mut row = Row::new(self.alloc, Said::OnlyThere);
        row.push_name(message.name.as_str())?;
        let count = message.fields.len();
        write!(row.there, "a message, fields: {count}")?;
        self.rows.push(row)?;
        Ok(())
    }

    /// Appends the rows of the fields of a message that both have.
    fn append_fields(
        &mut self,
        schema: u32,
        message: &MessageDescriptor,
    ) -> Result<(), AllocError> {
        if field_count(schema) == 0 && message.fields.is_empty() {
            let mut row = Row::new(self.alloc, Said::Same);
            row.push_name(message_name(schema))?;
            row.here.push_str("a message, fields: 0")?;
            row.there.push_str("a message, fields: 0")?;
            self.rows.push(row)?;
        }
        let mut taken = Vec::new(self.alloc);
        for name in names_of(schema) {
            if let Some(ours) = our_field(schema, name.0) {
                let found = matching(self.alloc, message.fields.as_slice(), name.1)?;
                self.append_field(
                    schema,
                    name.1,
                    &ours,
                    found.and_then(|index| message.fields.get(index)),
                )?;
                if let Some(index) = found {
                    taken.push(index)?;
                }
            }
        }
        for (index, field) in message.fields.iter().enumerate() {
            if !taken.contains(&index) {
                let mut row = Row::new(self.alloc, Said::OnlyThere);
                row.push_name(message_name(schema))?;
                row.push_name(".")?;
                row.push_name(field.name.as_str())?;
                self.write_theirs(&mut row.there, field)?;
                self.rows.push(row)?;
            }
        }
        Ok(())
    }

    /// Appends the row of a field of the protocol, with that of the set.
    fn append_field(
        &mut self,
        schema: u32,
        name: &str,
        ours: &Ours,
        theirs: Option<&FieldDescriptor>,
    ) -> Result<(), AllocError> {
        let mut row = Row::new(self.alloc, self.said(ours, theirs));
        row.push_name(message_name(schema))?;
        row.push_name(".")?;
        row.push_name(name)?;
        let number = ours.number;
        let label = ours.label.word();
        let kind = kind_name(ours.kind);
        write!(row.here, "{number} {label}{kind}")?;
        if let Some(field) = theirs {
            self.write_theirs(&mut row.there, field)?;
        }
        self.rows.push(row)?;
        Ok(())
    }

    /// What is said of a field of the protocol, with that of the set.
    fn said(&self, ours: &Ours, theirs: Option<&FieldDescriptor>) -> Said {
        match theirs {
            None => Said::OnlyHere,
            Some(field) if !is_same_kind(self.set, self.pairs, ours, field) => Said::AnotherKind,
            Some(field) if field.number == ours.number => Said::Same,
            Some(_) => Said::Renumbered,
        }
    }

    /// Appends what a field of the set is.
    fn write_theirs(&self, text: &mut String, field: &FieldDescriptor) -> Result<(), AllocError> {
        let number = field.number;
        if is_map(self.set, field) {
            return write!(text, "{number} map");
        }
        let label = their_label(field).word();
        write!(text, "{number} {label}")?;
        push_escaped(text, Escapes::Text, their_kind(field))
    }
}

/// The index of the field that is called as one of the protocol: by its name in JSON, or else by its plain name.
#[tactic(auto, unfolding(crate::specs::Fields::matching))]
pub(crate) fn matching(
    alloc: Global,
    fields: &[FieldDescriptor],
    name: &str,
) -> Result<Option<usize>, AllocError>
    ensures { IfOk result (λ found. found ≡ matching fields.now name.now) }
{
    if let Some(index) = json_index(fields, name) {
        return Ok(Some(index));
    }
    let key = plain(alloc, name)?;
    plain_index(alloc, fields, key.as_slice())
}

/// The index of the first field with a name in JSON.
fn json_index(fields: &[FieldDescriptor], name: &str) -> Option<usize>
    ensures { result ≡ json_index fields.now name.now }
{
    fields
        .iter()
        .position(|field| is_same(field.json_name.as_str(), name))
}

/// The index of the first field whose name has a plain form.
fn plain_index(
    alloc: Global,
    fields: &[FieldDescriptor],
    key: &[u8],
) -> Result<Option<usize>, AllocError>
    ensures { IfOk result (λ found. found ≡ plain_index key.now 0 fields.now) }
{
    let mut rest = fields;
    let mut index: usize = 0;
    while let Some((field, after)) = rest.split_first() {
        let own = plain(alloc, field.name.as_str())?;
        if own.as_slice() == key {
            return Ok(Some(index));
        }
        rest = after;
        index += 1;
    }
    Ok(None)
}

/// How many fields a schema has.
fn field_count(schema: u32) -> usize {
    names_of(schema).len()
}
