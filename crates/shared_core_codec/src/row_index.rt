//! Where the rows of a schema are, by the numbers of their fields: sorted, so that a number is found by halves.

ghost use Rattle.std.specs.Prelude.{◌≡◌, ◌≤◌, ◌++◌, length, map, take, true, false, IfOk, OnOk};
ghost use Rattle.std.specs.List.{list_all};
ghost use Rattle.shared_core_wire.specs.Schema.{all_numbers, includes, numbers};
ghost use Rattle.shared_core_codec.specs.LoadedRows.{row_view, rows_view, schemas_view};
ghost use Rattle.shared_core_codec.specs.ProgramRows.{field_view};
ghost use Rattle.shared_core_codec.specs.RowIndexes.{AreIndexes, IsIndex, places_from, places_of};
ghost use Rattle.shared_core_codec.specs.Tables.{are_rows};

use crate::loaded_rows::LoadedRow;
use crate::rows::Field;
use std::alloc::{AllocError, Global};

/// A schema of this many rows has no index: to look at each row is not slower.
const FEW_ROWS: usize = 16;

/// The number of a field, and the place of its row in the schema.
#[derive(Clone, Copy)]
pub struct NumberPlace {
    pub number: u32,
    pub place: usize,
}

/// How many of the first rows do not have a number, by their index. Without an index none is passed over.
pub fn rows_before(rows: &[LoadedRow], index: &[NumberPlace], number: u32) -> usize
    requires { IsIndex (rows_view rows.now) index.now }
    ensures within { result ≤ length (rows_view rows.now) }
    ensures lack { includes (all_numbers (take result (rows_view rows.now))) number ≡ false }
{
    if index.is_empty() {
        return 0;
    }
    match index.binary_search_by_key(&number, |one| one.number) {
        Ok(found) => index[found].place,
        Err(_) => rows.len(),
    }
}

/// The indexes of schemas, by the index of each.
pub fn indexes_of(
    alloc: Global,
    schemas: &[Vec<LoadedRow>],
) -> Result<Vec<Vec<NumberPlace>>, AllocError>
    requires { list_all are_rows (schemas_view schemas.now) ≡ true }
    ensures { IfOk result (λ indexes. AreIndexes (schemas_view schemas.now) indexes.items) }
{
    let mut indexes = Vec::with_capacity(alloc, schemas.len())?;
    for rows in schemas {
        let index = index_of(alloc, rows.as_slice())?;
        indexes.push(index)?;
    }
    Ok(indexes)
}

/// The index of some rows; it is empty if they are few.
fn index_of(alloc: Global, rows: &[LoadedRow]) -> Result<Vec<NumberPlace>, AllocError>
    requires { are_rows (rows_view rows.now) ≡ true }
    ensures { IfOk result (λ index. IsIndex (rows_view rows.now) index.items) }
{
    if rows.len() <= FEW_ROWS {
        return Ok(Vec::new(alloc));
    }
    let mut index = number_places(alloc, rows)?;
    index.sort_unstable_by_key(|one| one.number);
    Ok(index)
}

/// The numbers of some rows with their places, in the order of the rows.
fn number_places(alloc: Global, rows: &[LoadedRow]) -> Result<Vec<NumberPlace>, AllocError>
    ensures { IfOk result (λ index. index.items ≡ places_from 0 (rows_view rows.now)) }
{
    let mut index = Vec::with_capacity(alloc, rows.len())?;
    let mut rest = rows;
    let mut place = 0;
    while let Some((row, after)) = rest.split_first() {
        push_row(&mut index, place, row)?;
        rest = after;
        place += 1;
    }
    Ok(index)
}

/// Appends the numbers of a row with its place.
fn push_row(index: &mut Vec<NumberPlace>, place: usize, row: &LoadedRow) -> Result<(), AllocError>
    ensures { OnOk result (index.new.items ≡ index.old.items ++ places_of place (numbers (row_view row.now))) }
{
    match row {
        LoadedRow::Plain(field) | LoadedRow::Optional(field) | LoadedRow::Repeated(field) => {
            index.push(NumberPlace {
                number: field.number,
                place,
            })?;
        }
        LoadedRow::OneOf(members) => push_members(index, place, members.as_slice())?,
    }
    Ok(())
}

/// Appends the numbers of the members of a oneof with its place.
fn push_members(
    index: &mut Vec<NumberPlace>,
    place: usize,
    members: &[Field],
) -> Result<(), AllocError>
    ensures { OnOk result (index.new.items
        ≡ index.old.items ++ places_of place (map (λ m. m.0) (map field_view members.now))) }
{
    let mut rest = members;
    while let Some((member, after)) = rest.split_first() {
        index.push(NumberPlace {
            number: member.number,
            place,
        })?;
        rest = after;
    }
    Ok(())
}
