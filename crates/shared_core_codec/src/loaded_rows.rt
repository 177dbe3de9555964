//! The rows of a table that is made at run time, and the first of their fields that no table may have.

ghost use Rattle.std.specs.Prelude.{◌≡◌, ◌++◌, map};
ghost use Rattle.shared_core_wire.specs.Schema.{numbers, all_numbers, includes};
ghost use Rattle.shared_core_codec.specs.ProgramRows.{kind_view, field_view};
ghost use Rattle.shared_core_codec.specs.LoadedRows.{row_view, rows_view, schemas_view, knows_kind};
ghost use Rattle.shared_core_codec.specs.TableErrors.{field_fault, row_fault, rows_fault, members_fault, table_error};
ghost use Rattle.shared_core_codec.specs.TableErrors.{plain_fault};

use crate::any_table::{RowShape, SchemaRow};
use crate::rows::{Field, Kind};
use crate::table_error::{TableError, TableFault};

/// A row of a schema: a field by its presence, or a oneof with its members.
#[derive(Drop)]
pub enum LoadedRow {
    Plain(Field),
    Optional(Field),
    Repeated(Field),
    OneOf(Vec<Field>),
}

impl SchemaRow for LoadedRow {
    ghost view = { row_view };

    #[inline(always)]
    fn shape(&self) -> RowShape<'_> {
        match self {
            LoadedRow::Plain(field) => RowShape::Plain(field),
            LoadedRow::Optional(field) => RowShape::Optional(field),
            LoadedRow::Repeated(field) => RowShape::Repeated(field),
            LoadedRow::OneOf(members) => RowShape::OneOf(members.as_slice()),
        }
    }
}

/// The first field of some schemas that no table may have, and why.
pub(crate) fn first_error(schemas: &[Vec<LoadedRow>]) -> Option<TableError>
    ensures { result ≡ table_error (schemas_view schemas.now) }
{
    let mut rest = schemas;
    let mut schema = 0;
    while let Some((rows, after)) = rest.split_first() {
        if let Some((number, fault)) = rows_fault(schemas.len(), rows.as_slice()) {
            return Some(TableError {
                schema,
                number,
                fault,
            });
        }
        rest = after;
        schema += 1;
    }
    None
}

/// The number of the first field of some rows that no table of `count` schemas may have, and why.
fn rows_fault(count: usize, rows: &[LoadedRow]) -> Option<(u32, TableFault)>
    ensures { result ≡ rows_fault count (rows_view rows.now) }
{
    let mut rest = rows;
    while let Some((row, after)) = rest.split_first() {
        if let Some(fault) = row_fault(count, row, after) {
            return Some(fault);
        }
        rest = after;
    }
    None
}

/// The same of a row, with the rows after it.
fn row_fault(count: usize, row: &LoadedRow, later: &[LoadedRow]) -> Option<(u32, TableFault)>
    ensures { result ≡ row_fault count (all_numbers (rows_view later.now)) (row_view row.now) }
{
    match row {
        LoadedRow::Plain(field) => plain_fault(count, field, later),
        LoadedRow::Optional(field) | LoadedRow::Repeated(field) => field_fault(
            count,
            field,
            &[],
            later,
        ),
        LoadedRow::OneOf(members) => members_fault(count, members.as_slice(), later),
    }
}

/// The same of a plain field.
fn plain_fault(count: usize, field: &Field, later: &[LoadedRow]) -> Option<(u32, TableFault)>
    ensures { result ≡ plain_fault count (all_numbers (rows_view later.now)) (field_view field.now) }
{
    if let Some(fault) = field_fault(count, field, &[], later) {
        return Some(fault);
    }
    if let Kind::Message(_) = field.kind {
        return Some((field.number, TableFault::PlainMessage));
    }
    None
}

/// The same of the members of a oneof.
fn members_fault(count: usize, members: &[Field], later: &[LoadedRow]) -> Option<(u32, TableFault)>
    ensures { result ≡ members_fault count (all_numbers (rows_view later.now)) (map field_view members.now) }
{
    let mut rest = members;
    while let Some((member, after)) = rest.split_first() {
        if let Some(fault) = field_fault(count, member, after, later) {
            return Some(fault);
        }
        rest = after;
    }
    None
}

/// The same of a field, with the members and the rows after it.
fn field_fault(
    count: usize,
    field: &Field,
    members: &[Field],
    later: &[LoadedRow],
) -> Option<(u32, TableFault)>
    ensures { result ≡ field_fault count
        (map (λ m. m.0) (map field_view members.now) ++ all_numbers (rows_view later.now)) (field_view field.now) }
{
    if field.number == 0 || field.number >= 536_870_912 {
        return Some((field.number, TableFault::NumberOutOfRange));
    }
    if members_include(members, field.number) || rows_include(later, field.number) {
        return Some((field.number, TableFault::NumberTwice));
    }
    if !knows_kind(count, field.kind) {
        return Some((field.number, TableFault::UnknownSchema));
    }
    None
}

/// Whether one of some rows has a number.
fn rows_include(rows: &[LoadedRow], number: u32) -> bool
    ensures { result ≡ includes (all_numbers (rows_view rows.now)) number }
{
    for row in rows {
        if row_includes(row, number) {
            return true;
        }
    }
    false
}

/// Whether a row has a number.
fn row_includes(row: &LoadedRow, number: u32) -> bool
    ensures { result ≡ includes (numbers (row_view row.now)) number }
{
    match row {
        LoadedRow::Plain(field) | LoadedRow::Optional(field) | LoadedRow::Repeated(field) => {
            field.number == number
        }
        LoadedRow::OneOf(members) => members_include(members.as_slice(), number),
    }
}

/// Whether one of some fields has a number.
fn members_include(members: &[Field], number: u32) -> bool
    ensures { result ≡ includes (map (λ m. m.0) (map field_view members.now)) number }
{
    for member in members {
        if member.number == number {
            return true;
        }
    }
    false
}

/// Whether a kind, if it is a message, names one of the first `count` schemas.
fn knows_kind(count: usize, kind: Kind) -> bool
    ensures { result ≡ knows_kind count (kind_view kind) }
{
    match kind {
        Kind::Message(schema) => (schema as usize) < count,
        _ => true,
    }
}
