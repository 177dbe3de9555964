//! The records of the entries of a message, level by level, written into a slice as far as there is room.
//!
//! Each function goes on from a place, which it leaves at the first entry that is not its own and after its bytes, or
//! at the entry that may not come. After an error part of the records may be there.

ghost use Rattle.std.specs.Prelude.{◌≡◌, ◌+◌, ◌-◌, ◌<◌, ◌≤◌, ◌⊎◌, ◌∷◌, ℕ, List, Some, None, IsTrue, OnOk};
ghost use Rattle.std.specs.Prelude.{◌&&◌, length, nat_eq};
ghost use Rattle.shared_core_wire.specs.Encoding.{shortest_varint};
ghost use Rattle.shared_core_wire.specs.Schema as schema;
ghost use Rattle.shared_core_codec.specs.Table.{table};
ghost use Rattle.shared_core_codec.specs.Canonicity.{next_view};
ghost use Rattle.shared_core_codec.specs.ProgramRows.{kind_view};
ghost use Rattle.shared_core_codec.specs.RowEncoding.{length_record};
ghost use Rattle.shared_core_fields_writer.specs.Room.{Wrote};
ghost use Rattle.shared_core_fields_writer.specs.Walk.{Nothing, Numbers, walk, entries_from, rest_of, varints};
ghost use Rattle.shared_core_fields_writer.specs.Walk.{run_numbers, onto, Writes, Nests, Goes, GoesOn};
ghost use Rattle.shared_core_fields_writer.specs.Walk.{Continues};

use crate::entry::{Given, given_value, next_of};
use crate::error::Reason;
use crate::flat::write_flat;
use crate::measure::{MOST_NOTED, SHORT, known_length, measure};
use crate::room::{write_content, write_key, write_length, write_number, write_varint};
use shared_core_codec::canonical::NextField;
use shared_core_codec::rows::{Field, rows_of};
use shared_core_codec::size::LENGTH;
use shared_core_fields::table::FieldEntry;
use shared_core_wire::records::LEVELS;
use shared_core_wire::varint::varint_len;

/// The entries of a table, the bytes that they point to, and whether the content of messages is measured before it is
/// written. If it is, room is left for the length that it has, otherwise for one below 128. Some lengths are known: of
/// the messages whose entries begin at an index and those after it; 0 of another entry.
#[derive(Clone, Copy)]
pub(crate) struct Source<'a> {
    pub entries: &'a [FieldEntry],
    pub bytes: &'a [u8],
    pub is_measured: bool,
    pub first: usize,
    pub lengths: &'a [u64],
}

/// A place in a table and in its payload.
#[derive(Clone, Copy)]
pub(crate) struct Place {
    /// The index of the next entry.
    pub entry: usize,
    /// The index of the next byte.
    pub byte: usize,
}

/// The level of the deepest entries that may come.
const MOST_LEVELS: u64 = LEVELS as u64;

/// Writes the records of the entries of a message, which are at a level.
#[cycle(message)]
pub(crate) fn write_message(
    out: &mut [u8],
    at: &mut Place,
    source: &Source<'_>,
    schema: u32,
    level: u64,
) -> Result<(), Reason>
    requires start { at.old.entry ≤ length source.now.entries.now }
    requires levels { level ≤ 100 }
    ensures written { Writes result (walk source.now.bytes.now schema (table schema) None Nothing level (100 - level)
        (entries_from source.now at.old.entry)) out.old at.old.byte out.new at.new.byte
        (entries_from source.now at.new.entry) }
    ensures rest { OnOk result (entries_from source.now at.new.entry
        ≡ rest_of level (entries_from source.now at.old.entry)) }
    ensures end { at.new.entry ≤ length source.now.entries.now }
    ensures more { OnOk result (at.old.entry ≤ at.new.entry) }
{
    let mut rows = rows_of(schema);
    let mut last = None;
    while at.entry < source.entries.len() {
        let entry = &source.entries[at.entry];
        if entry.level != level {
            if entry.level < level {
                return Ok(());
            }
            return Err(Reason::WrongLevel);
        }
        let (number, next) = next_of(schema, rows, last, entry.number)?;
        write_field(out, at, source, entry, number, next)?;
        rows = next.rows;
        last = Some(number);
    }
    Ok(())
}

/// Writes the records of an entry, which is at the place, for its field, with those of the entries that belong to it.
#[cycle(message)]
#[inline(always)]
fn write_field(
    out: &mut [u8],
    at: &mut Place,
    source: &Source<'_>,
    entry: &FieldEntry,
    number: u32,
    next: NextField<'_>,
) -> Result<(), Reason>
    requires start { at.old.entry < length source.now.entries.now }
    requires entry { entries_from source.now at.old.entry ≡ entry.now ∷ entries_from source.now (at.old.entry + 1) }
    requires number { entry.now.number ≡ number }
    requires levels { entry.now.level ≤ 100 }
    ensures written { GoesOn result source.now.bytes.now number (next_view next.entry) Nothing entry.now.level
        (100 - entry.now.level) out.old at.old.byte out.new at.new.byte (entries_from source.now at.old.entry)
        (entries_from source.now at.new.entry) }
    ensures rest { OnOk result (rest_of entry.now.level (entries_from source.now at.new.entry)
        ≡ rest_of entry.now.level (entries_from source.now at.old.entry)) }
    ensures end { at.new.entry ≤ length source.now.entries.now }
    ensures more { OnOk result (at.old.entry < at.new.entry) }
{
    match given_value(next.field.kind, entry, source.bytes)? {
        Given::Number(value) => {
            if next.field.is_packed() {
                let field = Field {
                    number,
                    kind: next.field.kind,
                };
                return write_run(out, at, source, field, value, entry.level);
            }
            at.byte = write_number(out, at.byte, next.is_plain, number, value);
            at.entry += 1;
        }
        Given::Content(content) => {
            at.byte = write_content(out, at.byte, next.is_plain, number, content);
            at.entry += 1;
        }
        Given::Message(inner) => {
            if entry.level >= MOST_LEVELS {
                return Err(Reason::TooDeep);
            }
            at.byte = write_key(out, at.byte, number, LENGTH);
            at.entry += 1;
            write_nested(out, at, source, inner, entry.level + 1)?;
        }
    }
    Ok(())
}

/// Writes the length of a message within another one, and the records of its entries.
#[cycle(message)]
#[inline(always)]
fn write_nested(
    out: &mut [u8],
    at: &mut Place,
    source: &Source<'_>,
    schema: u32,
    level: u64,
) -> Result<(), Reason>
    requires start { at.old.entry ≤ length source.now.entries.now }
    requires levels { level ≤ 100 }
    ensures written { Nests result (walk source.now.bytes.now schema (table schema) None Nothing level (100 - level)
        (entries_from source.now at.old.entry)) out.old at.old.byte out.new at.new.byte
        (entries_from source.now at.new.entry) }
    ensures rest { OnOk result (entries_from source.now at.new.entry
        ≡ rest_of level (entries_from source.now at.old.entry)) }
    ensures end { at.new.entry ≤ length source.now.entries.now }
    ensures more { OnOk result (at.old.entry ≤ at.new.entry) }
{
    match known_length(source, at.entry) {
        Some(likely) => write_likely(out, at, source, schema, level, likely),
        None => write_measured(out, at, source, schema, level),
    }
}

/// The same after it was measured. What is within it is measured too if it is long.
#[cycle(message)]
#[inline(never)]
fn write_measured(
    out: &mut [u8],
    at: &mut Place,
    source: &Source<'_>,
    schema: u32,
    level: u64,
) -> Result<(), Reason>
    requires start { at.old.entry ≤ length source.now.entries.now }
    requires levels { level ≤ 100 }
    ensures written { Nests result (walk source.now.bytes.now schema (table schema) None Nothing level (100 - level)
        (entries_from source.now at.old.entry)) out.old at.old.byte out.new at.new.byte
        (entries_from source.now at.new.entry) }
    ensures rest { OnOk result (entries_from source.now at.new.entry
        ≡ rest_of level (entries_from source.now at.old.entry)) }
    ensures end { at.new.entry ≤ length source.now.entries.now }
    ensures more { OnOk result (at.old.entry ≤ at.new.entry) }
{
    let mut lengths = [0; MOST_NOTED];
    let first = at.entry;
    let likely = measure(&mut lengths, first, source, schema, level);
    let source = Source {
        is_measured: likely > SHORT,
        first,
        lengths: &lengths,
        ..*source
    };
    write_likely(out, at, &source, schema, level, likely)
}

/// The same of one whose length is most likely this.
#[cycle(message)]
#[inline(always)]
fn write_likely(
    out: &mut [u8],
    at: &mut Place,
    source: &Source<'_>,
    schema: u32,
    level: u64,
    likely: u64,
) -> Result<(), Reason>
    requires start { at.old.entry ≤ length source.now.entries.now }
    requires levels { level ≤ 100 }
    ensures written { Nests result (walk source.now.bytes.now schema (table schema) None Nothing level (100 - level)
        (entries_from source.now at.old.entry)) out.old at.old.byte out.new at.new.byte
        (entries_from source.now at.new.entry) }
    ensures rest { OnOk result (entries_from source.now at.new.entry
        ≡ rest_of level (entries_from source.now at.old.entry)) }
    ensures end { at.new.entry ≤ length source.now.entries.now }
    ensures more { OnOk result (at.old.entry ≤ at.new.entry) }
{
    let place = *at;
    let start = write_varint(out, place.byte, likely);
    at.byte = start;
    write_within(out, at, source, schema, level)?;
    if !is_room(likely, place.byte, start, at.byte) {
        *at = place;
        return write_again(out, at, source, schema, level);
    }
    at.byte = write_length(out, place.byte, start, at.byte);
    Ok(())
}

/// Writes the records of the entries of a message within another one, which is flat most often.
#[cycle(message)]
#[inline(always)]
fn write_within(
    out: &mut [u8],
    at: &mut Place,
    source: &Source<'_>,
    schema: u32,
    level: u64,
) -> Result<(), Reason>
    requires start { at.old.entry ≤ length source.now.entries.now }
    requires levels { level ≤ 100 }
    ensures written { Writes result (walk source.now.bytes.now schema (table schema) None Nothing level (100 - level)
        (entries_from source.now at.old.entry)) out.old at.old.byte out.new at.new.byte
        (entries_from source.now at.new.entry) }
    ensures rest { OnOk result (entries_from source.now at.new.entry
        ≡ rest_of level (entries_from source.now at.old.entry)) }
    ensures end { at.new.entry ≤ length source.now.entries.now }
    ensures more { OnOk result (at.old.entry ≤ at.new.entry) }
{
    if let Some(end) = write_flat(out, *at, source, schema, level) {
        *at = end;
        return Ok(());
    }
    write_message(out, at, source, schema, level)
}

/// Writes a message again that is shorter than it was measured to be, and measures nothing within it.
#[cycle(message)]
#[cold]
#[inline(never)]
fn write_again(
    out: &mut [u8],
    at: &mut Place,
    source: &Source<'_>,
    schema: u32,
    level: u64,
) -> Result<(), Reason>
    requires start { at.old.entry ≤ length source.now.entries.now }
    requires levels { level ≤ 100 }
    ensures written { Nests result (walk source.now.bytes.now schema (table schema) None Nothing level (100 - level)
        (entries_from source.now at.old.entry)) out.old at.old.byte out.new at.new.byte
        (entries_from source.now at.new.entry) }
    ensures rest { OnOk result (entries_from source.now at.new.entry
        ≡ rest_of level (entries_from source.now at.old.entry)) }
    ensures end { at.new.entry ≤ length source.now.entries.now }
    ensures more { OnOk result (at.old.entry ≤ at.new.entry) }
{
    let source = Source {
        is_measured: false,
        lengths: &[],
        ..*source
    };
    let place = at.byte;
    let start = write_varint(out, place, 0);
    at.byte = start;
    write_message(out, at, &source, schema, level)?;
    at.byte = write_length(out, place, start, at.byte);
    Ok(())
}

/// Whether the room between `place` and `start`, which was left for a length, is no more than the length of what is
/// from there to `end` takes.
#[inline(always)]
fn is_room(likely: u64, place: usize, start: usize, end: usize) -> bool
    requires start { place ≤ start }
    requires end { start ≤ end }
    ensures { IsTrue result → (likely < 128) ⊎ ((start - place ≤ length (shortest_varint (end - start)))
        × (end < 18446744073709551615)) }
{
    if likely < 128 {
        return true;
    }
    end < usize::MAX && start - place <= varint_len((end - start) as u64) as usize
}

/// Writes the packed run of a number, whose entry is at the place, and of those whose entries come after it.
#[inline(never)]
fn write_run(
    out: &mut [u8],
    at: &mut Place,
    source: &Source<'_>,
    field: Field,
    value: u64,
    level: u64,
) -> Result<(), Reason>
    requires start { at.old.entry < length source.now.entries.now }
    ensures written { (s : ℕ) (rows : List schema.Row) (depth : ℕ) → Goes result
        (onto (length_record field.number
        (varints (value ∷ run_numbers level field.number (entries_from source.now (at.old.entry + 1)))))
        (walk source.now.bytes.now s rows (Some field.number) (Numbers (kind_view field.kind)) level depth
        (entries_from source.now (at.old.entry + 1))))
        (walk source.now.bytes.now s rows (Some field.number) Nothing level depth (entries_from source.now
        at.new.entry))
        out.old at.old.byte out.new at.new.byte (entries_from source.now at.new.entry) }
    ensures rest { OnOk result (rest_of level (entries_from source.now at.new.entry)
        ≡ rest_of level (entries_from source.now (at.old.entry + 1))) }
    ensures end { at.new.entry ≤ length source.now.entries.now }
    ensures more { OnOk result (at.old.entry < at.new.entry) }
{
    let place = write_key(out, at.byte, field.number, LENGTH);
    let start = write_varint(out, place, 0);
    at.byte = write_varint(out, start, value);
    at.entry += 1;
    write_numbers(out, at, source, field, level)?;
    at.byte = write_length(out, place, start, at.byte);
    Ok(())
}

/// Whether an entry at a level is of the number of a field.
pub(crate) fn is_number_of(entry: &FieldEntry, number: u32, level: u64) -> bool
    ensures { result ≡ (nat_eq entry.now.level level && nat_eq entry.now.number number) }
{
    entry.level == level && entry.number == u64::from(number)
}

/// Writes the varints of the numbers of a run.
fn write_numbers(
    out: &mut [u8],
    at: &mut Place,
    source: &Source<'_>,
    field: Field,
    level: u64,
) -> Result<(), Reason>
    requires start { at.old.entry ≤ length source.now.entries.now }
    ensures numbers { OnOk result (Wrote out.old at.old.byte out.new at.new.byte
        (varints (run_numbers level field.number (entries_from source.now at.old.entry)))) }
    ensures walked { (s : ℕ) (rows : List schema.Row) (depth : ℕ) → Continues result
        (walk source.now.bytes.now s rows (Some field.number) (Numbers (kind_view field.kind)) level depth (entries_from
        source.now at.old.entry))
        (walk source.now.bytes.now s rows (Some field.number) Nothing level depth (entries_from source.now
        at.new.entry))
        (entries_from source.now at.new.entry) }
    ensures rest { OnOk result (rest_of level (entries_from source.now at.new.entry)
        ≡ rest_of level (entries_from source.now at.old.entry)) }
    ensures end { at.new.entry ≤ length source.now.entries.now }
    ensures more { at.old.entry ≤ at.new.entry }
{
    while at.entry < source.entries.len() {
        let entry = &source.entries[at.entry];
        if !is_number_of(entry, field.number, level) {
            return Ok(());
        }
        given_value(field.kind, entry, source.bytes)?;
        at.byte = write_varint(out, at.byte, entry.value);
        at.entry += 1;
    }
    Ok(())
}
