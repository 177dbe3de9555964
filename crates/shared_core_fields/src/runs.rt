//! Packed runs: the numbers of a repeated field.

ghost use Rattle.std.specs.Prelude.{◌≡◌, true, is_some};
ghost use Rattle.shared_core_wire.specs.Acceptance.{accepts_number};
ghost use Rattle.shared_core_wire.specs.Reader.{packed_numbers};
ghost use Rattle.shared_core_codec.specs.Canonicity.{is_written_run};
ghost use Rattle.shared_core_codec.specs.ProgramRows.{kind_view};
ghost use Rattle.shared_core_fields.specs.NumberValues.{number_value};

use shared_core_codec::rows::Kind;
use shared_core_wire::varint::{low_32, read_varint};

/// A packed run of a canonical payload: the shortest varints of one or more numbers that are written for a kind.
#[derive(Clone, Copy)]
pub struct Run<'a> {
    /// The kind of its numbers.
    pub kind: Kind,
    /// The varints, one after the other.
    pub bytes: &'a [u8],
    pub ghost of_numbers: { accepts_number (kind_view kind) ≡ true },
    pub ghost written: { is_written_run (kind_view kind) bytes.now ≡ true },
}

/// Iterates over the numbers of a packed run, in order: a bool is 0 or 1, and an enum the low 32 bits of its number. It
/// does not allocate.
#[derive(Drop)]
pub struct RunNumbers<'a> {
    kind: Kind,
    rest: &'a [u8],
    ghost varints: { is_some (packed_numbers rest.now) ≡ true },
}

impl<'a> Run<'a> {
    ghost use Rattle.shared_core_fields.specs.Runs.{held_numbers, numbers_left};

    /// Returns an iterator over its numbers.
    pub fn numbers(self) -> RunNumbers<'a>
        ensures { numbers_left result ≡ held_numbers (kind_view self.entry.kind) self.entry.bytes.now }
    {
        RunNumbers::new(self)
    }
}

impl<'a> RunNumbers<'a> {
    ghost use Rattle.shared_core_fields.specs.Runs.{held_numbers, numbers_left};

    /// Returns an iterator over the numbers of a packed run.
    fn new(run: Run<'a>) -> RunNumbers<'a>
        ensures { numbers_left result ≡ held_numbers (kind_view run.entry.kind) run.entry.bytes.now }
    {
        RunNumbers {
            kind: run.kind,
            rest: run.bytes,
        }
    }
}

impl<'a> Iterator for RunNumbers<'a> {
    ghost use Rattle.std.specs.Iterator.{YieldsFirst, item_count};
    ghost use Rattle.shared_core_fields.specs.Runs.{numbers_left};

    type Item = u64;

    ghost next_gives = { YieldsFirst numbers_left };

    ghost remaining = { item_count numbers_left };

    fn next(&mut self) -> Option<u64> {
        if self.rest.is_empty() {
            return None;
        }
        let Some((number, rest)) = read_varint(self.rest) else {
            unreachable!();
        };
        self.rest = rest;
        Some(number_value(self.kind, number))
    }
}

/// The number that a value of a kind holds, for one that was read.
fn number_value(kind: Kind, number: u64) -> u64
    ensures { result ≡ number_value (kind_view kind) number }
{
    match kind {
        Kind::U32 => u64::from(low_32(number)),
        Kind::Boolean => u64::from(number != 0),
        Kind::Enumeration => u64::from(low_32(number)),
        _ => number,
    }
}
