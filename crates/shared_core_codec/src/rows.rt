//! The rows of each schema, for the program.

ghost use Rattle.std.specs.Prelude.{◌≡◌, map, nat_lt, option_map};
ghost use Rattle.shared_core_wire.specs.Acceptance.{accepts_number};
ghost use Rattle.shared_core_codec.specs.Table.{table, schemas, schema_count};
ghost use Rattle.shared_core_codec.specs.ProgramRows.{rows_view, kind_view, field_view, found_view};
ghost use Rattle.shared_core_codec.specs.ProgramRows.{if_numbered, member_numbered, field_in_row, field_numbered};
ghost use Rattle.shared_core_codec.specs.Canonicity.{is_packed, may_recur};

use crate::any_table::{RowShape, SchemaRow};
use crate::schemas::SCHEMAS;

/// The kind of a field.
#[derive(Clone, Copy, Debug, PartialEq, Eq)]
pub enum Kind {
    U32,
    U64,
    Boolean,
    Enumeration,
    Text,
    ByteString,
    /// A message of the schema at this index of the table.
    Message(u32),
}

impl Kind {
    /// Whether values of the kind are written as varints.
    #[inline(always)]
    pub fn is_number(self) -> bool
        ensures { result ≡ accepts_number (kind_view self) }
    {
        match self {
            Kind::U32 => true,
            Kind::U64 => true,
            Kind::Boolean => true,
            Kind::Enumeration => true,
            _ => false,
        }
    }
}

/// A field of a schema.
#[derive(Clone, Copy)]
pub struct Field {
    pub number: u32,
    pub kind: Kind,
}

/// A row of a schema: a field by its presence, or a oneof with its members.
#[derive(Clone, Copy)]
pub enum Row {
    Plain(Field),
    Optional(Field),
    Repeated(Field),
    OneOf(&'static [Field]),
}

/// The kind of a field, and whether it is repeated.
#[derive(Clone, Copy)]
pub struct Found {
    pub kind: Kind,
    pub is_repeated: bool,
}

impl Found {
    /// Whether it may be written as more than one record: whether it is repeated, and not packed.
    #[inline(always)]
    pub fn may_recur(self) -> bool
        ensures { result ≡ may_recur (found_view self) }
    {
        self.is_repeated && !self.is_packed()
    }

    /// Whether it is a list of numbers, which is packed.
    #[inline(always)]
    pub fn is_packed(self) -> bool
        ensures { result ≡ is_packed (found_view self) }
    {
        self.kind.is_number() && self.is_repeated
    }
}

/// The rows of each schema, in the order of the table.
fn schemas() -> &'static [&'static [Row]]
    ensures { map rows_view result.now ≡ schemas }
{
    &SCHEMAS
}

/// Whether the table has a schema at an index.
pub fn is_schema(schema: u32) -> bool
    ensures { result ≡ nat_lt schema schema_count }
{
    (schema as usize) < schemas().len()
}

/// The rows of the schema at an index of the table; past its end there are none.
pub fn rows_of(schema: u32) -> &'static [Row]
    ensures { rows_view result ≡ table schema }
{
    let schemas = schemas();
    let place = schema as usize;
    if place < schemas.len() {
        schemas[place]
    } else {
        &[]
    }
}

/// The field with this number and kind, if it has the number that is looked for.
#[inline(always)]
fn if_numbered(field: &Field, is_repeated: bool, number: u32) -> Option<Found>
    ensures { option_map found_view result ≡ if_numbered (field_view field.now) is_repeated number }
{
    if field.number == number {
        Some(Found {
            kind: field.kind,
            is_repeated,
        })
    } else {
        None
    }
}

/// The member of a oneof that has a number.
#[inline(always)]
fn find_member(members: &[Field], number: u32) -> Option<Found>
    ensures { option_map found_view result ≡ member_numbered (map field_view members.now) number }
{
    for member in members {
        if let Some(found) = if_numbered(member, false, number) {
            return Some(found);
        }
    }
    None
}

/// The field of a row that has a number.
#[inline(always)]
pub fn find_in_row<R: SchemaRow>(row: &R, number: u32) -> Option<Found>
    ensures { option_map found_view result ≡ field_in_row (R.view row.now) number }
{
    match row.shape() {
        RowShape::Plain(field) => if_numbered(field, false, number),
        RowShape::Optional(field) => if_numbered(field, false, number),
        RowShape::Repeated(field) => if_numbered(field, true, number),
        RowShape::OneOf(members) => find_member(members, number),
    }
}

/// The field of some rows that has a number.
#[inline(always)]
pub fn find_field<R: SchemaRow>(rows: &[R], number: u32) -> Option<Found>
    ensures { option_map found_view result ≡ field_numbered (map R.view rows.now) number }
{
    for row in rows {
        if let Some(found) = find_in_row(row, number) {
            return Some(found);
        }
    }
    None
}
