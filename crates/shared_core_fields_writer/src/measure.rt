//! How long the content of a message of a table is, before it is written.
//!
//! The length only decides how much room to leave, so nothing is proved of it: the writer puts the length of what it
//! has written, and moves it where the room was another one. Entries that may not come are measured as if they might.

ghost use Rattle.std.specs.Prelude.{◌<◌, ◌≤◌, length};

use crate::walk::{Source, is_number_of};
use shared_core_codec::canonical::{NextField, next_field};
use shared_core_codec::rows::{Kind, rows_of};
use shared_core_fields::table::FieldEntry;
use shared_core_wire::records::LEVELS;
use shared_core_wire::varint::{low_32, varint_len};

/// How long a payload or a message may be within which nothing is measured: then few bytes are moved at all.
pub(crate) const SHORT: u64 = 4096;

/// Of how many entries the lengths are noted when a message is measured, so that those within it are not measured again
/// at each level.
pub(crate) const MOST_NOTED: usize = 32;

/// The length that the content of a message, whose entries begin at an index, was measured to have; 0 if messages are
/// not measured. `None` if it is to be measured.
#[inline(always)]
pub(crate) fn known_length(source: &Source<'_>, index: usize) -> Option<u64> {
    if !source.is_measured {
        return Some(0);
    }
    noted_length(source, index)
}

/// The length that is known of a message, whose entries begin at an index.
fn noted_length(source: &Source<'_>, index: usize) -> Option<u64> {
    let place = index.checked_sub(source.first)?;
    if place < source.lengths.len() && source.lengths[place] > 0 {
        return Some(source.lengths[place]);
    }
    None
}

/// Measures the content of a message of a schema, whose entries are at a level from an index on. Notes the lengths of
/// the messages whose entries begin at the first indices after it.
pub(crate) fn measure(
    lengths: &mut [u64],
    first: usize,
    source: &Source<'_>,
    schema: u32,
    level: u64,
) -> u64
    requires start { first ≤ length source.now.entries.now }
{
    let mut measuring = Measuring { first, at: first };
    measure_message(lengths, &mut measuring, source, schema, level, LEVELS)
}

/// How far a table is measured.
#[derive(Clone, Copy)]
struct Measuring {
    /// The index of the first entry that was measured.
    first: usize,
    /// The index of the next one.
    at: usize,
}

/// Measures the entries of a message of a schema, which are at a level or deeper, from an index on, which is left after
/// them. Returns how many bytes they take. Messages may be nested `depth` deep in it.
#[cycle(measure)]
fn measure_message(
    lengths: &mut [u64],
    measuring: &mut Measuring,
    source: &Source<'_>,
    schema: u32,
    level: u64,
    depth: u32,
) -> u64
    requires start { measuring.old.at ≤ length source.now.entries.now }
    ensures end { measuring.new.at ≤ length source.now.entries.now }
    ensures more { measuring.old.at ≤ measuring.new.at }
{
    let mut rows = rows_of(schema);
    let mut size = 0;
    while measuring.at < source.entries.len() {
        let entry = &source.entries[measuring.at];
        if entry.level < level {
            return size;
        }
        if let Some(next) = next_field(rows, low_32(entry.number)) {
            rows = next.rows;
            size = sum(
                size,
                measure_field(lengths, measuring, source, entry, next, depth),
            );
        } else {
            measuring.at += 1;
        }
    }
    size
}

/// Measures the entry at an index for its field, with those that belong to it.
#[cycle(measure)]
fn measure_field(
    lengths: &mut [u64],
    measuring: &mut Measuring,
    source: &Source<'_>,
    entry: &FieldEntry,
    next: NextField<'_>,
    depth: u32,
) -> u64
    requires start { measuring.old.at < length source.now.entries.now }
    ensures end { measuring.new.at ≤ length source.now.entries.now }
    ensures more { measuring.old.at < measuring.new.at }
{
    measuring.at += 1;
    if let Kind::Message(inner) = next.field.kind {
        if depth == 0 {
            return 0;
        }
        let place = measuring.at.saturating_sub(measuring.first);
        let level = entry.level.saturating_add(1);
        let content = measure_message(lengths, measuring, source, inner, level, depth - 1);
        if place < lengths.len() {
            lengths[place] = content;
        }
        return record_len(entry.number, content);
    }
    if next.field.is_packed() {
        return record_len(entry.number, measure_run(measuring, source, entry));
    }
    own_size(entry, next)
}

/// Measures the run of the number of an entry and of those from an index on.
fn measure_run(measuring: &mut Measuring, source: &Source<'_>, entry: &FieldEntry) -> u64
    requires start { measuring.old.at ≤ length source.now.entries.now }
    ensures end { measuring.new.at ≤ length source.now.entries.now }
    ensures more { measuring.old.at ≤ measuring.new.at }
{
    let mut size = varint_len(entry.value);
    while measuring.at < source.entries.len() {
        let next = &source.entries[measuring.at];
        if !is_number_of(next, low_32(entry.number), entry.level) {
            return size;
        }
        size = sum(size, varint_len(next.value));
        measuring.at += 1;
    }
    size
}

/// The number of bytes of the record of an entry that is neither a message nor of a run.
fn own_size(entry: &FieldEntry, next: NextField<'_>) -> u64 {
    match next.field.kind {
        Kind::Text | Kind::ByteString => {
            if next.is_plain && entry.length == 0 {
                return 0;
            }
            record_len(entry.number, entry.length)
        }
        _ => {
            if next.is_plain && entry.value == 0 {
                return 0;
            }
            sum(key_len(entry.number), varint_len(entry.value))
        }
    }
}

/// The number of bytes of a record with a content.
fn record_len(number: u64, content: u64) -> u64 {
    sum(key_len(number), sum(varint_len(content), content))
}

/// The number of bytes of the key of a record.
fn key_len(number: u64) -> u64 {
    varint_len(number.saturating_mul(8))
}

/// A sum, which is at most the greatest number of 64 bits.
fn sum(a: u64, b: u64) -> u64 {
    a.saturating_add(b)
}
