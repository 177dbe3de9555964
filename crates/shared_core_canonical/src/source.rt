//! Where the fields of a message are read from.

ghost use Rattle.std.specs.Prelude.{◌≡◌, ◌≤◌, drop, length};
ghost use Rattle.shared_core_canonical.specs.Places.{front_at};

use crate::places::{Placed, front_at};
use shared_core_wire::records::Record;
use std::alloc::Global;

/// The bytes of a message, whose records may be nested `left` deep.
#[derive(Clone, Copy)]
pub struct Source<'a> {
    /// What makes the room for what is written.
    pub alloc: Global,
    pub bytes: &'a [u8],
    pub left: u32,
}

/// Records of a message that were found, which may be nested `left` deep.
#[derive(Clone, Copy)]
pub struct FoundRecords<'a> {
    /// What makes the room for what is written.
    pub alloc: Global,
    pub records: &'a [Placed<Record<'a>>],
    pub left: u32,
}

impl<'a> FoundRecords<'a> {
    /// Those of a row, by its place, where the records before an index are those of the rows before it.
    pub fn of_row(&self, start: usize, place: usize) -> FoundRecords<'a>
        requires { start ≤ length self.now.records.now }
        ensures records { result.records.now ≡ front_at place (drop start self.now.records.now) }
        ensures left { result.left ≡ self.now.left }
    {
        FoundRecords {
            alloc: self.alloc,
            records: front_at(self.records, start, place),
            left: self.left,
        }
    }
}
