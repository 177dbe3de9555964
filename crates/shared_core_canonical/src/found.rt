//! The records of a message that its schema has, by their rows.

ghost use Rattle.std.specs.Prelude.{◌≡◌, ◌≤◌, IfOk, false, length, map, take};
ghost use Rattle.shared_core_wire.specs.Schema.{all_numbers, includes};
ghost use Rattle.shared_core_codec.specs.Checking.{field_record_of};
ghost use Rattle.shared_core_canonical.specs.Found.{found_views, place_in, records_found};
ghost use Rattle.shared_core_canonical.specs.Places.{AreInOrder};
ghost use Rattle.shared_core_canonical.specs.Rows.{records_read};

use crate::places::{Placed, sort_by_place};
use crate::source::Source;
use shared_core_codec::any_table::{SchemaRow, Schemas};
use shared_core_codec::rows::find_in_row;
use shared_core_wire::records::{Record, Records};
use std::alloc::AllocError;

/// For how many records there is room from the beginning: these take less than a kibibyte, which glibc keeps for the
/// next allocation.
const FIRST_ROOM: usize = 18;

/// The records of the rows of a message, in the order of the rows; those of one row keep their order.
pub fn sorted_records<'a, T: Schemas>(
    schemas: &T,
    schema: u32,
    rows: &[T::Row],
    source: &Source<'a>,
) -> Result<Vec<Placed<Record<'a>>>, AllocError>
    requires { map T.Row.view rows.now ≡ T.table schemas.now schema }
    ensures { IfOk result (λ found. AreInOrder field_record_of (records_found (map T.Row.view rows.now) 0
        (records_read source.now.left source.now.bytes.now)) found.items) }
{
    let mut found = find_records(schemas, schema, rows, source)?;
    sort_by_place(&mut found)?;
    Ok(found)
}

/// The records of the rows of a message, with the places of their rows.
fn find_records<'a, T: Schemas>(
    schemas: &T,
    schema: u32,
    rows: &[T::Row],
    source: &Source<'a>,
) -> Result<Vec<Placed<Record<'a>>>, AllocError>
    requires { map T.Row.view rows.now ≡ T.table schemas.now schema }
    ensures { IfOk result (λ found. found_views found.items ≡ records_found (map T.Row.view rows.now) 0
        (records_read source.now.left source.now.bytes.now)) }
{
    let mut found = Vec::with_capacity(source.alloc, FIRST_ROOM.min(source.bytes.len()))?;
    for item in Records::within(source.bytes, source.left) {
        let Ok(record) = item else {
            continue;
        };
        let before = schemas.rows_before(schema, record.number);
        let Some(place) = find_row(rows, before, record.number) else {
            continue;
        };
        found.push(Placed {
            place,
            value: record,
        })?;
    }
    Ok(found)
}

/// The place of the row that has a number, which none of the first rows has.
#[inline(always)]
fn find_row<R: SchemaRow>(rows: &[R], before: usize, number: u32) -> Option<usize>
    requires within { before ≤ length rows.now }
    requires lack { includes (all_numbers (take before (map R.view rows.now))) number ≡ false }
    ensures { result ≡ place_in (map R.view rows.now) 0 number }
{
    for place in before..rows.len() {
        if find_in_row(&rows[place], number).is_some() {
            return Some(place);
        }
    }
    None
}
