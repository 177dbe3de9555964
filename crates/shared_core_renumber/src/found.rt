//! The records of a message whose fields a table has.

ghost use Rattle.std.specs.Prelude.{◌≡◌, IfOk, length};
ghost use Rattle.shared_core_canonical.specs.Rows.{records_read};
ghost use Rattle.shared_core_canonical.specs.Places.{AreInOrder};
ghost use Rattle.shared_core_renumber.specs.Written.{found_views, ranked, records_found, value_view};

use crate::entries::{Renumbering, find_in};
use crate::source::Source;
use shared_core_canonical::places::{Placed, sort_by_place};
use shared_core_wire::record::WireValue;
use shared_core_wire::records::Records;
use std::alloc::AllocError;

/// For how many records there is room from the beginning: these take less than a kibibyte, which glibc keeps for the
/// next allocation.
const FIRST_ROOM: usize = 14;

/// A record of a field that a table has.
#[derive(Clone, Copy)]
pub struct Found<'a> {
    pub entry: Renumbering,
    pub value: WireValue<'a>,
}

/// The records of the fields that the entries of a schema, which are at the front of some, have. They are in the order
/// of the groups, and those of a group keep their order.
pub fn sorted_records<'a>(
    own: &[Renumbering],
    source: &Source<'a>,
) -> Result<Vec<Placed<Found<'a>>>, AllocError>
    ensures { IfOk result (λ found. AreInOrder value_view (ranked (length own.now)
        (records_found source.now.schema own.now (records_read source.now.left source.now.bytes.now))) found.items) }
{
    let mut found = find_records(own, source)?;
    sort_by_place(&mut found)?;
    Ok(found)
}

/// The same in their own order. The place of a record is how many entries stand before the first one of its group.
fn find_records<'a>(
    own: &[Renumbering],
    source: &Source<'a>,
) -> Result<Vec<Placed<Found<'a>>>, AllocError>
    ensures { IfOk result (λ found. found_views found.items ≡ ranked (length own.now)
        (records_found source.now.schema own.now (records_read source.now.left source.now.bytes.now))) }
{
    let mut found = Vec::with_capacity(source.alloc, FIRST_ROOM.min(source.bytes.len()))?;
    for item in Records::within(source.bytes, source.left) {
        let Ok(record) = item else {
            continue;
        };
        let Some(placed) = find_in(own, source.schema, record.number) else {
            continue;
        };
        found.push(Placed {
            place: own.len() - placed.place,
            value: Found {
                entry: placed.value,
                value: record.value,
            },
        })?;
    }
    Ok(found)
}
