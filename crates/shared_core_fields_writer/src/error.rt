//! The error of writing a payload from a table of fields.

use std::error::Error;
use std::fmt;

/// Why an entry may not come.
#[derive(Clone, Copy, Debug, PartialEq, Eq, Drop)]
pub enum Reason {
    /// The schema of its message has no field of its number.
    UnknownField,
    /// Its field is before the last one of its message, or is that one, not repeated and in no oneof.
    OutOfOrder,
    /// The last field of its message is in the same oneof, also if it is its own field.
    SeveralMembers,
    /// Its kind is not that of its field, or it is a message of another schema.
    WrongKind,
    /// Its value is not in the range of its kind.
    OutOfRange,
    /// Its bytes should be a text, and are not UTF-8.
    NotUtf8,
    /// Its bytes are not within those that are given.
    OutOfBounds,
    /// It is more than one level deeper than the last entry, or deeper than an entry that is not a message.
    WrongLevel,
    /// It is a message that is nested more than one hundred levels deep.
    TooDeep,
    /// The payload has more than 4,294,967,295 bytes.
    TooLong,
}

impl fmt::Display for Reason {
    ghost use Rattle.std.specs.Prelude.{Some};
    ghost use Rattle.shared_core_fields_writer.specs.Errors.{reason_text};

    ghost output = { λ reason. Some (reason_text reason) };

    fn fmt<W: fmt::Write>(&self, f: &mut fmt::Formatter<W>) -> fmt::Result {
        f.write_str(match self {
            Reason::UnknownField => "unknown field",
            Reason::OutOfOrder => "out of order",
            Reason::SeveralMembers => "several members of a oneof",
            Reason::WrongKind => "wrong kind of value",
            Reason::OutOfRange => "out of range",
            Reason::NotUtf8 => "not UTF-8",
            Reason::OutOfBounds => "out of bounds",
            Reason::WrongLevel => "wrong level",
            Reason::TooDeep => "too deep",
            Reason::TooLong => "too long",
        })
    }
}

/// Why a table was rejected, and the first entry that may not come.
#[derive(Clone, Copy, Debug, PartialEq, Eq, Drop)]
pub struct FieldsError {
    pub reason: Reason,
    /// The index of the entry; the number of entries, if the payload is too long.
    pub index: usize,
}

/// Prints the reason, with the index before it.
impl fmt::Display for FieldsError {
    ghost use Rattle.std.specs.Prelude.{Some};
    ghost use Rattle.shared_core_fields_writer.specs.Errors.{error_text};

    ghost output = { λ error. Some (error_text error) };

    fn fmt<W: fmt::Write>(&self, f: &mut fmt::Formatter<W>) -> fmt::Result {
        let reason = self.reason;
        let index = self.index;
        write!(f, "entry {index}: {reason}")
    }
}

impl Error for FieldsError {}
