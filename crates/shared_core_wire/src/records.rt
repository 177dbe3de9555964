//! An iterator over the records of a payload.
//!
//! An iterator is specified by the list of what it will still yield: one relation says all of it (`AreRecordsFrom`),
//! and a computed form in addition serves proofs about loops.

ghost use Rattle.std.specs.Prelude.{◌≡◌, ◌≤◌, ◌+◌, ◌*◌, ◌↔◌, List, length, map, Ok};

use crate::error::WireError;
use crate::record::{WireValue, read_record};

/// How deep messages and groups may be nested in a payload, in levels (this project's own limit).
pub const LEVELS: u32 = 100;

/// A record of a payload.
#[derive(Clone, Copy, Debug, PartialEq, Eq)]
pub struct Record<'a> {
    /// The field number, from 1 to 536,870,911.
    pub number: u32,
    /// Its value.
    pub value: WireValue<'a>,
    /// Where its bytes are in the payload, key included: the offset of the first byte, and the offset after the last.
    pub span: (usize, usize),
}

/// Iterates over the records of a payload, in order. If the bytes that are left do not begin with a record, it returns
/// `WireError::Malformed` once, and then it ends. It does not allocate, and makes one pass over the bytes.
#[derive(Drop)]
pub struct Records<'a> {
    rest: &'a [u8],
    /// The length of the payload, in bytes.
    end: usize,
    /// How deep groups may be nested in the records.
    left: u32,
    ghost inside: { length rest.now ≤ end },
}

impl<'a> Records<'a> {
    ghost use Rattle.shared_core_wire.specs.Grammar.{FieldRecord, IsRecord};
    ghost use Rattle.shared_core_wire.specs.Grammar.{IsRecordList, IsRecordWithin, IsRecordListWithin};
    ghost use Rattle.shared_core_wire.specs.ReadRecords.{AreRecordsFrom, read_records, without_place, record_count};
    ghost use Rattle.shared_core_wire.specs.RecordsLeft.{records_left};
    ghost use Rattle.shared_core_wire.specs.Places.{EachLies};

    /// Returns an iterator over the records of a whole payload, at nesting depth 0.
    pub fn new(payload: &'a [u8]) -> Records<'a>
        // each item, where its bytes are, and how the list ends
        ensures items { AreRecordsFrom (IsRecord 0) payload.now 0 (records_left result) }
        // it ends without Malformed if and only if the payload is a record list, and then it returned its records
        ensures complete { (rs : List FieldRecord)
            → IsRecordList 0 payload.now rs ↔ (map without_place (records_left result) ≡ map Ok rs) }
        // a record takes at least two bytes
        ensures few { 2 * record_count (records_left result) ≤ length payload.now }
    {
        Records::at_level(payload, 0)
    }

    /// Returns an iterator over the records of bytes at a nesting depth from 0 to 100. The records of a message field
    /// or of a group are one deeper than the field. Depth 100 is the greatest (this project's own limit).
    pub fn at_level(payload: &'a [u8], level: u32) -> Records<'a>
        requires { level ≤ 100 }
        ensures items { AreRecordsFrom (IsRecord level) payload.now 0 (records_left result) }
        ensures complete { (rs : List FieldRecord)
            → IsRecordList level payload.now rs ↔ (map without_place (records_left result) ≡ map Ok rs) }
        ensures few { 2 * record_count (records_left result) ≤ length payload.now }
    {
        Records::within(payload, LEVELS - level)
    }

    /// Returns an iterator over the records of bytes in which groups may be nested `left` deep.
    pub fn within(payload: &'a [u8], left: u32) -> Records<'a>
        // the items as a function of the payload
        ensures computed { records_left result ≡ read_records left payload.now }
        ensures items { AreRecordsFrom (IsRecordWithin left) payload.now 0 (records_left result) }
        ensures complete { (rs : List FieldRecord)
            → IsRecordListWithin left payload.now rs ↔ (map without_place (records_left result) ≡ map Ok rs) }
        ensures few { 2 * record_count (records_left result) ≤ length payload.now }
        // a Malformed at the end included
        ensures bound { 2 * length (records_left result) ≤ length payload.now + 1 }
        ensures lies { EachLies payload.now (records_left result) }
    {
        Records {
            rest: payload,
            end: payload.len(),
            left,
        }
    }
}

impl<'a> Iterator for Records<'a> {
    ghost use Rattle.std.specs.Iterator.{YieldsFirstBy, item_count};
    ghost use Rattle.shared_core_wire.specs.RecordsLeft.{records_left, placed_result};

    type Item = Result<Record<'a>, WireError>;

    ghost next_gives = { YieldsFirstBy placed_result records_left };

    ghost remaining = { item_count records_left };

    #[inline(always)]
    fn next(&mut self) -> Option<Result<Record<'a>, WireError>> {
        if self.rest.is_empty() {
            return None;
        }
        let Some((number, value, rest)) = read_record(self.rest, self.left) else {
            self.rest = &[];
            return Some(Err(WireError::Malformed));
        };
        let span = (self.end - self.rest.len(), self.end - rest.len());
        self.rest = rest;
        Some(Ok(Record {
            number,
            value,
            span,
        }))
    }
}
