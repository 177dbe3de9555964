//! The field of which a record may come next.

ghost use Rattle.std.specs.Prelude.{◌≡◌, map, option_map, is_some, true, false, IfSome};
ghost use Rattle.std.specs.Borrow.{Bor};
ghost use Rattle.shared_core_codec.specs.Canonicity.{is_plain, next_field, next_view};
ghost use Rattle.shared_core_codec.specs.ProgramRows.{field_in_row, field_view, found_view, kind_view};
ghost use Rattle.shared_core_codec.specs.ProgramRows.{member_numbered, row_view};
ghost use Rattle.shared_core_codec.specs.declared.rows.Field.{Field};
ghost use Rattle.shared_core_fields.specs.Coming.{IsRowField, found_next, is_repeated, next_parts, of_row, IsSingleRow};

use shared_core_codec::any_table::{RowShape, SchemaRow};
use shared_core_codec::canonical::NextField;
use shared_core_codec::rows::{Field, Found, Row};

/// A field of a row of which a record may come next, as `next_field` returns it: the field, whether it is plain, and
/// the rows of which records may come after that record.
#[inline(always)]
fn as_next<'a, R: SchemaRow>(row: &R, field: &Field, rows: &'a [R]) -> (Found, bool, &'a [R])
    ensures { next_parts R.view result ≡ found_next (R.view row.now) field.now (map R.view rows.now) }
{
    (found_in(row, field), is_plain(row), rows)
}

/// The first row and its field, if that is one field which is not repeated and has the number, as most often, and the
/// rows of which records may come after a record of it. `None` says nothing.
#[inline(always)]
pub(crate) fn first_field<'a, R: SchemaRow>(
    rows: &'a [R],
    number: u32,
) -> Option<(&'a R, &'a Field, &'a [R])>
    ensures { IfSome result (λ f. Some (found_next (R.view f.0.now) f.1.now (map R.view f.2.now))
        ≡ next_field (map R.view rows.now) number) }
{
    let (row, rows) = rows.split_first()?;
    let field = single_field(row)?;
    if field.number == number {
        Some((row, field, rows))
    } else {
        None
    }
}

/// The first row that has the number and its field, as `next_field` has it, and the rows of which records may come
/// after a record of it. Only the number of a row that is passed over is read, if the row is not a oneof.
#[inline(always)]
pub(crate) fn find_field<'a, R: SchemaRow>(
    rows: &'a [R],
    number: u32,
) -> Option<(&'a R, &'a Field, &'a [R])>
    ensures { option_map (λ f. found_next (R.view f.0.now) f.1.now (map R.view f.2.now)) result
        ≡ next_field (map R.view rows.now) number }
{
    let mut rest = rows;
    while let Some((row, after)) = rest.split_first() {
        if let Some(field) = field_of(row, number) {
            let recurs = found_in(row, field).may_recur();
            let rows = if recurs { rest } else { after };
            return Some((row, field, rows));
        }
        rest = after;
    }
    None
}

/// The field of a row that is one field which is not repeated.
#[inline(always)]
fn single_field<R: SchemaRow>(row: &R) -> Option<&Field>
    ensures { IfSome result (λ field. IsSingleRow (R.view row.now) (field_view field.now)) }
{
    match row.shape() {
        RowShape::Plain(field) | RowShape::Optional(field) => Some(field),
        _ => None,
    }
}

/// The field of a row that has the number.
#[inline(always)]
fn field_of<R: SchemaRow>(row: &R, number: u32) -> Option<&Field>
    ensures { option_map (λ (f : Bor Field). of_row (R.view row.now) f.now) result
        ≡ field_in_row (R.view row.now) number }
{
    if let RowShape::OneOf(members) = row.shape() {
        return find_member(members, number);
    }
    let field = row_field(row)?;
    if field.number == number {
        Some(field)
    } else {
        None
    }
}

/// The field of a row that is one field.
#[inline(always)]
fn row_field<R: SchemaRow>(row: &R) -> Option<&Field>
    ensures { IsRowField (R.view row.now) (option_map (λ (f : Bor Field). field_view f.now) result) }
{
    match row.shape() {
        RowShape::Plain(field) | RowShape::Optional(field) | RowShape::Repeated(field) => {
            Some(field)
        }
        RowShape::OneOf(_) => None,
    }
}

/// The member of a oneof that has the number.
#[inline(always)]
fn find_member(members: &[Field], number: u32) -> Option<&Field>
    ensures { option_map (λ (f : Bor Field). (kind_view f.now.kind, false)) result
        ≡ member_numbered (map field_view members.now) number }
{
    for member in members {
        if member.number == number {
            return Some(member);
        }
    }
    None
}

/// The kind of a field of a row, and whether it is repeated.
#[inline(always)]
fn found_in<R: SchemaRow>(row: &R, field: &Field) -> Found
    ensures { found_view result ≡ of_row (R.view row.now) field.now }
{
    Found {
        kind: field.kind,
        is_repeated: is_repeated(row),
    }
}

/// Whether a row is a plain field, whose default is not written.
#[inline(always)]
pub(crate) fn is_plain<R: SchemaRow>(row: &R) -> bool
    ensures { result ≡ is_plain (R.view row.now) }
{
    match row.shape() {
        RowShape::Plain(_) => true,
        _ => false,
    }
}

/// Whether a row is a repeated field.
#[inline(always)]
pub(crate) fn is_repeated<R: SchemaRow>(row: &R) -> bool
    ensures { result ≡ is_repeated (R.view row.now) }
{
    match row.shape() {
        RowShape::Repeated(_) => true,
        _ => false,
    }
}

/// The field of which a record may come next, as `next_field` has it: most often that of the first row.
#[inline(always)]
fn next_in<'a, R: SchemaRow>(rows: &'a [R], number: u32) -> Option<(Found, bool, &'a [R])>
    ensures { option_map (next_parts R.view) result ≡ next_field (map R.view rows.now) number }
{
    if let Some((row, field, after)) = first_field(rows, number) {
        return Some(as_next(row, field, after));
    }
    let (row, field, after) = find_field(rows, number)?;
    Some(as_next(row, field, after))
}

/// The same of the protocol's rows.
#[inline(always)]
pub(crate) fn find_next<'a>(rows: &'a [Row], number: u32) -> Option<NextField<'a>>
    ensures { option_map next_view result ≡ next_field (map row_view rows.now) number }
{
    let (field, is_plain, rows) = next_in(rows, number)?;
    Some(NextField {
        field,
        is_plain,
        rows,
    })
}

/// The same of any rows, where there is such a field.
#[inline(always)]
pub(crate) fn known_next<'a, R: SchemaRow>(rows: &'a [R], number: u32) -> (Found, bool, &'a [R])
    requires { is_some (next_field (map R.view rows.now) number) ≡ true }
    ensures { Some (next_parts R.view result) ≡ next_field (map R.view rows.now) number }
{
    let Some(next) = next_in(rows, number) else {
        unreachable!();
    };
    next
}
