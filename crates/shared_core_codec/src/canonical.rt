//! What canonical payloads are made of, by the rows of their schema: which field comes next, and what is written for
//! it. `shared_core_fields` checks whole payloads by it.

ghost use Rattle.std.specs.Prelude.{◌≡◌, map, option_map, length};
ghost use Rattle.shared_core_wire.specs.Reader.{Gives};
ghost use Rattle.shared_core_codec.specs.Checking.{field_record_of};
ghost use Rattle.shared_core_codec.specs.RowEncoding.{length_record};
ghost use Rattle.shared_core_codec.specs.ProgramRows.{kind_view, row_view};
ghost use Rattle.shared_core_codec.specs.Canonicity.{next_view, next_field, is_plain, written_size};
ghost use Rattle.shared_core_codec.specs.Canonicity.{is_written_number, is_written_run, written_varint_at};

use crate::rows::{Found, Kind, Row, find_in_row};
use crate::size::{LENGTH, VARINT, key, varint_size};
use shared_core_wire::record::WireValue;
use shared_core_wire::records::Record;
use shared_core_wire::varint::read_varint;

/// A field of which a record may come next in a canonical payload.
#[derive(Clone, Copy)]
pub struct NextField<'a> {
    pub field: Found,
    /// Whether it is a plain field, whose default is not written.
    pub is_plain: bool,
    /// The rows of which records may come after that record.
    pub rows: &'a [Row],
}

/// The field of the first row that has a number, among the rows that may come next in a canonical payload; `None` if no
/// row has it.
pub fn next_field<'a>(rows: &'a [Row], number: u32) -> Option<NextField<'a>>
    ensures { option_map next_view result ≡ next_field (map row_view rows.now) number }
{
    let mut rest = rows;
    while let Some((row, after)) = rest.split_first() {
        if let Some(field) = find_in_row(row, number) {
            return Some(NextField {
                field,
                is_plain: is_plain(row),
                rows: if field.may_recur() { rest } else { after },
            });
        }
        rest = after;
    }
    None
}

/// Whether a number is written for a value of a kind: an enum's is that of 32 bits, sign-extended.
pub fn is_written_number(kind: Kind, number: u64) -> bool
    ensures { result ≡ is_written_number (kind_view kind) number }
{
    match kind {
        Kind::U32 => number < 4_294_967_296,
        Kind::U64 => true,
        Kind::Boolean => number < 2,
        Kind::Enumeration => number < 2_147_483_648 || number > 18_446_744_071_562_067_967,
        _ => false,
    }
}

/// Whether a row is a plain field, whose default is not written.
fn is_plain(row: &Row) -> bool
    ensures { result ≡ is_plain (row_view row.now) }
{
    match row {
        Row::Plain(_) => true,
        _ => false,
    }
}

/// Whether bytes are a packed run as it is written for a kind: the shortest varints of one or more numbers that are
/// written for its values.
pub fn is_written_run(kind: Kind, run: &[u8]) -> bool
    ensures { result ≡ is_written_run (kind_view kind) run.now }
{
    if run.is_empty() {
        return false;
    }
    let mut rest = run;
    while !rest.is_empty() {
        let Some((_number, after)) = read_written_varint(kind, rest) else {
            return false;
        };
        rest = after;
    }
    true
}

/// Reads a varint in its shortest form, of a number that is written for a value of a kind.
#[tactic(auto, unfolding(crate::specs::Canonicity::written_varint_at))]
fn read_written_varint(kind: Kind, bytes: &[u8]) -> Option<(u64, &[u8])>
    ensures { Gives (λ x. (x.0, x.1.now)) result (written_varint_at (kind_view kind) bytes.now) }
{
    let (number, rest) = read_varint(bytes)?;
    if is_written_number(kind, number) && varint_size(number) as usize + rest.len() == bytes.len() {
        Some((number, rest))
    } else {
        None
    }
}

/// The number of bytes of a record that is written for a field.
pub fn written_size(found: &Record<'_>) -> u64
    ensures { result ≡ written_size (field_record_of found.now) }
{
    match found.value {
        WireValue::Varint(number) => varint_size(key(found.number, VARINT)) + varint_size(number),
        WireValue::Length(content) => length_record_size(found.number, content),
        _ => 0,
    }
}

/// The number of bytes of a length-delimited record that is written.
fn length_record_size(number: u32, content: &[u8]) -> u64
    ensures { result ≡ length (length_record number content.now) }
{
    let len = content.len() as u64;
    varint_size(key(number, LENGTH)) + varint_size(len) + len
}
