//! Messages of plain texts and bytes, as most messages within others are: written by a loop without a call.

ghost use Rattle.std.specs.Prelude.{◌≡◌, ◌≤◌, ℕ, List, None, Ok, IfSome, true, length, take};
ghost use Rattle.shared_core_codec.specs.Table.{table};
ghost use Rattle.shared_core_codec.specs.ProgramRows.{kind_view};
ghost use Rattle.shared_core_wire.specs.WrittenRecords.{content_record};
ghost use Rattle.shared_core_fields_writer.specs.Given.{Content, given};
ghost use Rattle.shared_core_fields_writer.specs.Room.{Wrote};
ghost use Rattle.shared_core_fields_writer.specs.Walk.{Nothing, walk, entries_from, rest_of};

use crate::entry::{content_of_kind, first_plain};
use crate::room::{write_few_bytes, write_few_text};
use crate::walk::{Place, Source};
use shared_core_codec::rows::{Kind, rows_of};
use shared_core_fields::table::FieldEntry;

/// Writes the records of the entries of a message, which are at a level, and returns the place after them. It does so
/// if each entry is of the next field of the schema, which is plain, and gives it a few bytes, ASCII in a text, and if
/// there is room for all. Otherwise the bytes from the place on may be any.
#[inline(always)]
pub(crate) fn write_flat(
    out: &mut [u8],
    at: Place,
    source: &Source<'_>,
    schema: u32,
    level: u64,
) -> Option<Place>
    requires start { at.entry ≤ length source.now.entries.now }
    ensures length { length out.new ≡ length out.old }
    ensures before { take at.byte out.new ≡ take at.byte out.old }
    ensures written { IfSome result (λ end. (bytes : List ℕ)
        × ((depth : ℕ) → walk source.now.bytes.now schema (table schema) None Nothing level depth
        (entries_from source.now at.entry) ≡ Ok bytes)
        × Wrote out.old at.byte out.new end.byte bytes) }
    ensures rest { IfSome result (λ end. entries_from source.now end.entry
        ≡ rest_of level (entries_from source.now at.entry)) }
    ensures end { IfSome result (λ end. end.entry ≤ length source.now.entries.now) }
    ensures more { IfSome result (λ end. at.entry ≤ end.entry) }
{
    let mut rows = rows_of(schema);
    let mut end = at;
    while end.entry < source.entries.len() {
        let entry = &source.entries[end.entry];
        if entry.level != level {
            if entry.level < level {
                return Some(end);
            }
            return None;
        }
        let (number, next) = first_plain(rows, entry.number)?;
        end.byte = write_few_of(out, end.byte, number, next.field.kind, entry, source.bytes)?;
        end.entry += 1;
        rows = next.rows;
    }
    Some(end)
}

/// Writes the record of the text or the bytes that an entry gives to a plain field, if these are a few, a text is
/// ASCII, and there is room for it. Otherwise the bytes from the index on may be any.
#[inline(always)]
fn write_few_of(
    out: &mut [u8],
    at: usize,
    number: u32,
    kind: Kind,
    entry: &FieldEntry,
    bytes: &[u8],
) -> Option<usize>
    ensures written { IfSome result (λ end. (content : List ℕ)
        × (given bytes.now (kind_view kind) entry.now ≡ Ok (Content content))
        × Wrote out.old at out.new end (content_record true number content)) }
    ensures length { length out.new ≡ length out.old }
    ensures before { take at out.new ≡ take at out.old }
{
    match kind {
        Kind::Text => {
            let content = content_of_kind(entry, FieldEntry::TEXT, bytes)?;
            write_few_text(out, at, number, content)
        }
        Kind::ByteString => {
            let content = content_of_kind(entry, FieldEntry::BYTE_STRING, bytes)?;
            write_few_bytes(out, at, number, content)
        }
        _ => None,
    }
}
