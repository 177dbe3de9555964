//! The numbers of a set's fields with those of the protocol's, as a table by which payloads are written again.

ghost use Rattle.std.specs.Prelude.{◌≡◌, ◌<◌, ◌^◌, ◌++◌, ◌∷◌, [], All, IfOk, IfSome, length, map};
ghost use Rattle.std.specs.List.{cons_option};
ghost use Rattle.shared_core_wire.specs.Schema.{numbers};
ghost use Rattle.shared_core_codec.specs.ProgramRows.{field_view, kind_view, row_view};
ghost use Rattle.shared_core_codec.specs.Table.{table};
ghost use Rattle.shared_core_json.specs.Fields.{name_view};
ghost use Rattle.schema_lines.specs.Messages.{items_of};
ghost use Rattle.schema_lines.specs.Numberings.{nested_of, IsMatch, IsOurs};
ghost use Rattle.descriptor_set.specs.Tables.{oneof_of};
ghost use Rattle.schema_lines.specs.Entries.{entries_from, entry_of, IsNumbering, last_group, match_of};
ghost use Rattle.schema_lines.specs.Entries.{matches_of, member_numbers, members_of, number_entries};
ghost use Rattle.schema_lines.specs.Entries.{numbering_entries};
ghost use Rattle.schema_lines.specs.Entries.{others_of, read_number, row_entries, rows_entries, rows_in, their_rows};
ghost use Rattle.schema_lines.specs.Entries.{written_number};

use crate::error::SchemaError;
use crate::fields::matching;
use crate::kinds::{is_same_kind, message_at, our_field};
use crate::pairs::Pairs;
use crate::renames::Rename;
use descriptor_set::{DescriptorSet, FieldDescriptor, table_of};
use shared_core_codec::any_table::{RowShape, SchemaRow};
use shared_core_codec::rows::{Field, Kind, Row, rows_of};
use shared_core_json::names::{Name, names_of};
use shared_core_renumber::Renumbering;
use std::alloc::{AllocError, Global};

/// Which of the two numbers of a field a payload is read by; it is written by the other one.
#[derive(Clone, Copy, Debug, PartialEq, Eq)]
pub enum Direction {
    /// From the numbers of a set to those of the protocol.
    Reading,
    /// From the numbers of the protocol to those of a set.
    Writing,
}

/// A field that both have, of one kind.
#[derive(Clone, Copy)]
struct Match {
    ours: u32,
    theirs: u32,
    /// Of a message field the number of its schema and one, otherwise 0.
    nested: u64,
}

impl Match {
    /// Its number in what is read.
    fn read_number(&self, direction: Direction) -> u32
        ensures { result ≡ read_number direction self.now }
    {
        match direction {
            Direction::Reading => self.theirs,
            Direction::Writing => self.ours,
        }
    }

    /// Its number in what is written.
    fn written_number(&self, direction: Direction) -> u32
        ensures { result ≡ written_number direction self.now }
    {
        match direction {
            Direction::Reading => self.ours,
            Direction::Writing => self.theirs,
        }
    }
}

/// The table by which payloads are written again from the numbers of a set to the protocol's, or back. A schema has
/// entries for those of its fields that `write_schema` calls the same or renumbered, in the order in which the
/// canonical payload that is written has them. Its message is the one that `schemas_of` finds. Errors: those of
/// `write_schema`, except `Output`; `NoFields` if there would be no entry.
pub fn numbering_of(
    alloc: Global,
    set: &DescriptorSet,
    renames: &[Rename<'_>],
    direction: Direction,
) -> Result<Vec<Renumbering>, SchemaError>
    ensures ours { IfOk result (λ entries. All (IsOurs direction) entries.items) }
    ensures exact { IsNumbering set.now (numbering_entries set.now renames.now direction) result }
{
    table_of(alloc, set)?;
    let pairs = Pairs::of(alloc, set, renames)?;
    let entries = entries_of(alloc, set, &pairs, direction)?;
    if entries.is_empty() {
        return Err(SchemaError::NoFields);
    }
    Ok(entries)
}

/// The entries of a set whose messages for the protocol's are found.
fn entries_of(
    alloc: Global,
    set: &DescriptorSet,
    pairs: &Pairs,
    direction: Direction,
) -> Result<Vec<Renumbering>, AllocError>
    requires { length pairs.now.read.items < 2 ^ 32 }
    ensures ours { IfOk result (λ entries. All (IsOurs direction) entries.items) }
    ensures exact { IfOk result (λ entries. entries.items
        ≡ entries_from set.now pairs.now.named.items direction 0 0 pairs.now.read.items) }
{
    let mut entries = Entries {
        direction,
        group: 0,
        entries: Vec::new(alloc),
    };
    let mut rest = pairs.all_read();
    let mut schema: u32 = 0;
    while let Some((found, after)) = rest.split_first() {
        if let Some(message) = message_at(set, *found) {
            let paired = Paired {
                set,
                pairs,
                schema,
                fields: message.fields.as_slice(),
            };
            entries.append_message(alloc, &paired)?;
        }
        rest = after;
        schema += 1;
    }
    Ok(entries.entries)
}

/// A schema with the fields of its message in a set.
#[derive(Clone, Copy)]
struct Paired<'a> {
    set: &'a DescriptorSet,
    pairs: &'a Pairs,
    schema: u32,
    fields: &'a [FieldDescriptor],
}

/// The field of the protocol of a number and a name, with that of a set which it finds, if they are of one kind.
#[tactic(auto, unfolding(crate::specs::Entries::match_of))]
fn match_of(alloc: Global, paired: &Paired<'_>, name: &Name) -> Result<Option<Match>, AllocError>
    ensures ours { IfOk result (λ found. IfSome found (IsMatch paired.now.schema)) }
    ensures exact { IfOk result (λ found. found ≡ match_of paired.now.set.now paired.now.pairs.now.named.items
        paired.now.schema paired.now.fields.now (name_view name.now)) }
{
    let Some(ours) = our_field(paired.schema, name.0) else {
        return Ok(None);
    };
    let Some(index) = matching(alloc, paired.fields, name.1)? else {
        return Ok(None);
    };
    let Some(theirs) = paired.fields.get(index) else {
        return Ok(None);
    };
    if !is_same_kind(paired.set, paired.pairs, &ours, theirs) {
        return Ok(None);
    }
    Ok(Some(Match {
        ours: ours.number,
        theirs: theirs.number,
        nested: nested_of(ours.kind),
    }))
}

/// Appends a match that was found, if there is one.
fn push_found(matches: &mut Vec<Match>, found: Option<Match>) -> Result<(), AllocError>
    ensures { IfOk result (λ _. matches.new.items ≡ matches.old.items ++ cons_option found []) }
{
    if let Some(found) = found {
        matches.push(found)?;
    }
    Ok(())
}

/// The fields of a schema that the message of a set has too, of one kind.
#[tactic(auto, using(crate::proofs::Pushed::found_pushed, crate::proofs::Pushed::found_next, crate::proofs::Steps::drop_item), unfolding(crate::specs::Entries::matches_of))]
fn matches_of(alloc: Global, paired: &Paired<'_>) -> Result<Vec<Match>, AllocError>
    ensures ours { IfOk result (λ matches. All (IsMatch paired.now.schema) matches.items) }
    ensures exact { IfOk result (λ matches. matches.items ≡ matches_of paired.now.set.now
        paired.now.pairs.now.named.items paired.now.schema paired.now.fields.now) }
{
    let names = names_of(paired.schema);
    let mut matches = Vec::new(alloc);
    for name in names {
        let found = match_of(alloc, paired, name)?;
        push_found(&mut matches, found)?;
    }
    Ok(matches)
}

/// Of the kind of a message the number of its schema and one, otherwise 0.
fn nested_of(kind: Kind) -> u64
    ensures { result ≡ nested_of (kind_view kind) }
{
    match kind {
        Kind::Message(schema) => u64::from(schema) + 1,
        _ => 0,
    }
}

/// The numbers of the members of a oneof.
fn member_numbers(alloc: Global, members: &[Field]) -> Result<Vec<u32>, AllocError>
    ensures { IfOk result (λ own. own.items ≡ member_numbers (map field_view members.now)) }
{
    let mut own = Vec::new(alloc);
    let mut rest = members;
    while let Some((member, after)) = rest.split_first() {
        own.push(member.number)?;
        rest = after;
    }
    Ok(own)
}

/// The numbers of the fields of a row.
fn numbers_of(alloc: Global, row: &Row) -> Result<Vec<u32>, AllocError>
    ensures { IfOk result (λ own. own.items ≡ numbers (row_view row.now)) }
{
    match row.shape() {
        RowShape::Plain(field) | RowShape::Optional(field) | RowShape::Repeated(field) => {
            let mut own = Vec::new(alloc);
            own.push(field.number)?;
            Ok(own)
        }
        RowShape::OneOf(members) => member_numbers(alloc, members),
    }
}

/// The rows of a schema of the protocol, by the numbers of their fields.
#[tactic(auto, using(crate::proofs::Steps::drop_item))]
fn our_rows(alloc: Global, schema: u32) -> Result<Vec<Vec<u32>>, AllocError>
    ensures { IfOk result (λ rows. items_of rows.items ≡ map numbers (table schema)) }
{
    let own = rows_of(schema);
    let mut rows = Vec::new(alloc);
    for row in own {
        let numbers = numbers_of(alloc, row)?;
        rows.push(numbers)?;
    }
    Ok(rows)
}

/// Appends the numbers of a oneof's members among some fields.
fn append_members(
    row: &mut Vec<u32>,
    oneof: u32,
    fields: &[FieldDescriptor],
) -> Result<(), AllocError>
    ensures { IfOk result (λ _. row.new.items ≡ row.old.items ++ members_of oneof fields.now) }
{
    let mut rest = fields;
    while let Some((field, after)) = rest.split_first() {
        if field.presence.is_member_of(oneof) {
            row.push(field.number)?;
        }
        rest = after;
    }
    Ok(())
}

/// The row of a field that is followed by others, by the numbers of its fields.
fn row_at(
    alloc: Global,
    field: &FieldDescriptor,
    rest: &[FieldDescriptor],
) -> Result<Vec<u32>, AllocError>
    ensures { IfOk result (λ row. row.items ≡ field.now.number ∷ others_of (oneof_of field.now.presence) rest.now) }
{
    let mut row = Vec::new(alloc);
    row.push(field.number)?;
    if let Some(oneof) = field.presence.oneof() {
        append_members(&mut row, oneof, rest)?;
    }
    Ok(row)
}

/// The rows of a message of a set, by the numbers of their fields: a oneof is a row at its first member.
fn their_rows(alloc: Global, fields: &[FieldDescriptor]) -> Result<Vec<Vec<u32>>, AllocError>
    ensures { IfOk result (λ rows. items_of rows.items ≡ their_rows [] fields.now) }
{
    let mut rows = Vec::new(alloc);
    let mut seen = Vec::new(alloc);
    let mut rest = fields;
    while let Some((field, after)) = rest.split_first() {
        if !field.presence.is_among(seen.as_slice()) {
            let row = row_at(alloc, field, after)?;
            rows.push(row)?;
            field.presence.append_oneof(&mut seen)?;
        }
        rest = after;
    }
    Ok(rows)
}

/// The rows of what is written, by the numbers of their fields.
fn rows_in(
    alloc: Global,
    direction: Direction,
    schema: u32,
    fields: &[FieldDescriptor],
) -> Result<Vec<Vec<u32>>, AllocError>
    ensures { IfOk result (λ rows. items_of rows.items ≡ rows_in direction schema fields.now) }
{
    match direction {
        Direction::Reading => our_rows(alloc, schema),
        Direction::Writing => their_rows(alloc, fields),
    }
}

/// The entries so far.
#[derive(Drop)]
struct Entries {
    direction: Direction,
    /// The last group; 0 before the first one.
    group: u64,
    entries: Vec<Renumbering>,
    ghost ours: { All (IsOurs direction) entries.items },
}

impl Entries {
    /// Appends those of a schema.
    fn append_message(&mut self, alloc: Global, paired: &Paired<'_>) -> Result<(), AllocError>
        ensures direction { self.new.direction ≡ self.old.direction }
        ensures group { IfOk result (λ _. self.new.group
            ≡ last_group self.old.group (rows_in self.old.direction paired.now.schema paired.now.fields.now)) }
        ensures entries { IfOk result (λ _. self.new.entries.items ≡ self.old.entries.items
            ++ rows_entries self.old.direction paired.now.schema self.old.group
            (rows_in self.old.direction paired.now.schema paired.now.fields.now)
            (matches_of paired.now.set.now paired.now.pairs.now.named.items paired.now.schema
            paired.now.fields.now)) }
    {
        let matches = matches_of(alloc, paired)?;
        let rows = rows_in(alloc, self.direction, paired.schema, paired.fields)?;
        self.append_rows(paired.schema, rows.as_slice(), matches.as_slice())
    }

    /// Appends those of rows: those of a row are a group.
    fn append_rows(
        &mut self,
        schema: u32,
        rows: &[Vec<u32>],
        matches: &[Match],
    ) -> Result<(), AllocError>
        requires { All (IsMatch schema) matches.now }
        ensures direction { self.new.direction ≡ self.old.direction }
        ensures group { IfOk result (λ _. self.new.group ≡ last_group self.old.group (items_of rows.now)) }
        ensures entries { IfOk result (λ _. self.new.entries.items ≡ self.old.entries.items
            ++ rows_entries self.old.direction schema self.old.group (items_of rows.now) matches.now) }
    {
        let mut rest = rows;
        while let Some((row, after)) = rest.split_first() {
            self.group = self.group.saturating_add(1);
            self.append_row(schema, row.as_slice(), matches)?;
            rest = after;
        }
        Ok(())
    }

    /// Appends those of the numbers of a row, in the last group.
    fn append_row(&mut self, schema: u32, row: &[u32], matches: &[Match]) -> Result<(), AllocError>
        requires { All (IsMatch schema) matches.now }
        ensures direction { self.new.direction ≡ self.old.direction }
        ensures group { self.new.group ≡ self.old.group }
        ensures entries { IfOk result (λ _. self.new.entries.items ≡ self.old.entries.items
            ++ row_entries self.old.direction schema self.old.group row.now matches.now) }
    {
        let mut rest = row;
        while let Some((number, after)) = rest.split_first() {
            self.append(schema, *number, matches)?;
            rest = after;
        }
        Ok(())
    }

    /// The entry of a field that both have, in the last group.
    fn entry_of(&self, schema: u32, found: &Match) -> Renumbering
        requires { IsMatch schema found.now }
        ensures ours { IsOurs self.now.direction result }
        ensures exact { result ≡ entry_of self.now.direction schema self.now.group found.now }
    {
        Renumbering {
            schema: u64::from(schema),
            group: self.group,
            number: u64::from(found.read_number(self.direction)),
            renumbered: u64::from(found.written_number(self.direction)),
            nested: found.nested,
        }
    }

    /// Appends the entries of the matches that are written at a number.
    #[tactic(auto, using(crate::proofs::Pushed::entry_pushed, crate::proofs::Steps::drop_item))]
    fn append(&mut self, schema: u32, number: u32, matches: &[Match]) -> Result<(), AllocError>
        requires { All (IsMatch schema) matches.now }
        ensures direction { self.new.direction ≡ self.old.direction }
        ensures group { self.new.group ≡ self.old.group }
        ensures entries { IfOk result (λ _. self.new.entries.items ≡ self.old.entries.items
            ++ number_entries self.old.direction schema self.old.group number matches.now) }
    {
        for found in matches {
            if found.written_number(self.direction) == number {
                let entry = self.entry_of(schema, found);
                self.entries.push(entry)?;
            }
        }
        Ok(())
    }
}
