//! The tables of fields with their numbers.

ghost use Rattle.std.specs.Prelude.{◌≡◌};
ghost use Rattle.shared_core_renumber.specs.Entries.{find_in, from_schema};

use shared_core_canonical::places::Placed;

/// A field of a message: its number in the payload that is read, and the one in the payload that is written. The
/// entries of a schema stand together in a table, in the order in which their fields are written. Of several entries of
/// a number in a schema the first one counts.
#[derive(Clone, Copy)]
#[repr(C)]
pub struct Renumbering {
    /// The number of the message's schema.
    pub schema: u64,
    /// Which entries are written together, from 1: those of a oneof, whose records keep their order, or one field's.
    pub group: u64,
    /// The field number in what is read.
    pub number: u64,
    /// The field number in what is written. Only its low 32 bits count.
    pub renumbered: u64,
    /// Of a message field the number of its schema and one, otherwise 0.
    pub nested: u64,
}

/// The entries from the first one of a schema on.
pub fn from_schema(entries: &[Renumbering], schema: u64) -> &[Renumbering]
    ensures { result.now ≡ from_schema schema entries.now }
{
    let mut rest = entries;
    while let Some((entry, after)) = rest.split_first() {
        if entry.schema == schema {
            return rest;
        }
        rest = after;
    }
    rest
}

/// The first entry that has a number in what is read, among those of a schema, which are at the front. Its place is how
/// many entries stand from the first one of its group on.
pub fn find_in(own: &[Renumbering], schema: u64, number: u32) -> Option<Placed<Renumbering>>
    ensures { result ≡ find_in schema number own.now }
{
    let mut rest = own;
    let mut before = 0;
    let mut place = 0;
    while let Some((entry, after)) = rest.split_first() {
        if entry.schema != schema {
            return None;
        }
        if entry.group != before {
            place = rest.len();
        }
        if entry.number == u64::from(number) {
            return Some(Placed {
                place,
                value: *entry,
            });
        }
        before = entry.group;
        rest = after;
    }
    None
}
