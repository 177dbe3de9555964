//! The fields of all levels of a payload, in one table.

ghost use Rattle.std.specs.Prelude.{◌≡◌};
ghost use Rattle.shared_core_codec.specs.ProgramRows.{kind_view};
ghost use Rattle.shared_core_fields.specs.Rows.{kind_number};

use shared_core_codec::rows::Kind;

/// A field as six numbers, whose bytes are at an offset in the payload: an entry of the table that other languages
/// read. A repeated field has an entry for each element, and so has a packed run for each number.
#[derive(Clone, Copy)]
#[repr(C)]
pub struct FieldEntry {
    /// The level: 0 of the payload's own fields, and one more within each message.
    pub level: u64,
    /// The field number, from 1 to 536,870,911.
    pub number: u64,
    /// The kind of the field: one of the seven numbers below.
    pub kind: u64,
    /// The number that it holds: 0 or 1 of a bool, sign-extended of an enum. For a message it is the index of its
    /// schema, for a text and bytes 0.
    pub value: u64,
    /// Of a text, bytes or a message where its bytes begin in the payload, otherwise 0.
    pub offset: u64,
    /// How many bytes these are, otherwise 0.
    pub length: u64,
}

impl FieldEntry {
    /// The kind of a uint32.
    pub const U32: u64 = 1;
    /// The kind of a uint64.
    pub const U64: u64 = 2;
    /// The kind of a bool.
    pub const BOOLEAN: u64 = 3;
    /// The kind of an enum.
    pub const ENUMERATION: u64 = 4;
    /// The kind of a text, which is UTF-8.
    pub const TEXT: u64 = 5;
    /// The kind of bytes.
    pub const BYTE_STRING: u64 = 6;
    /// The kind of a message.
    pub const MESSAGE: u64 = 7;
}

/// The number of a kind in entries.
pub fn kind_number(kind: Kind) -> u64
    ensures { result ≡ kind_number (kind_view kind) }
{
    match kind {
        Kind::U32 => FieldEntry::U32,
        Kind::U64 => FieldEntry::U64,
        Kind::Boolean => FieldEntry::BOOLEAN,
        Kind::Enumeration => FieldEntry::ENUMERATION,
        Kind::Text => FieldEntry::TEXT,
        Kind::ByteString => FieldEntry::BYTE_STRING,
        Kind::Message(_) => FieldEntry::MESSAGE,
    }
}

pub mod check;
mod write;
