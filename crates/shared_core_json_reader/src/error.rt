//! The error of reading JSON.

use std::alloc::AllocError;
use std::error::Error;
use std::fmt;

/// Why a JSON text was rejected.
#[derive(Clone, Copy, Debug, PartialEq, Eq, Drop)]
pub enum Reason {
    /// It is not JSON, or not UTF-8, or has arrays and objects nested more than one thousand levels deep.
    NotJson,
    /// The name of a member is not that of a field of its message.
    UnknownMember,
    /// Two members have a name of the same field.
    RepeatedMember,
    /// Two members of one oneof are present.
    SeveralMembers,
    /// A value is of another kind than its field.
    WrongKind,
    /// A text is neither a name of a value of its field's enum nor a number.
    UnknownName,
    /// A number is not whole, or is not in the range of its field.
    OutOfRange,
    /// A string is not base64.
    NotBase64,
    /// A message is nested more than one hundred levels deep.
    TooDeep,
    /// An allocation failed.
    OutOfMemory,
}

impl fmt::Display for Reason {
    ghost use Rattle.std.specs.Prelude.{Some};
    ghost use Rattle.shared_core_json_reader.specs.Errors.{reason_text};

    ghost output = { λ reason. Some (reason_text reason) };

    fn fmt<W: fmt::Write>(&self, f: &mut fmt::Formatter<W>) -> fmt::Result {
        f.write_str(match self {
            Reason::NotJson => "not JSON",
            Reason::UnknownMember => "unknown member",
            Reason::RepeatedMember => "repeated member",
            Reason::SeveralMembers => "several members of a oneof",
            Reason::WrongKind => "wrong kind of value",
            Reason::UnknownName => "neither a name of its enum nor a number",
            Reason::OutOfRange => "out of range",
            Reason::NotBase64 => "not base64",
            Reason::TooDeep => "too deep",
            Reason::OutOfMemory => "out of memory",
        })
    }
}

impl From<AllocError> for Reason {
    ghost use Rattle.std.specs.Prelude.{◌≡◌};
    ghost use Rattle.shared_core_json_reader.specs.declared.error.Reason.TheVariants.{OutOfMemory};

    ghost from_gives = { λ _ reason. reason ≡ OutOfMemory };

    fn from(_error: AllocError) -> Reason {
        Reason::OutOfMemory
    }
}

/// Why a JSON text was rejected, and where.
#[derive(Debug, Drop)]
pub struct JsonReadError {
    pub reason: Reason,
    /// Where the text stops being JSON, in bytes from its beginning; absent if it is JSON.
    pub offset: Option<usize>,
    /// The members and indices that lead to the rejected value, as `headers[2].key`; empty if the text is not JSON, or
    /// if an allocation failed.
    pub path: String,
}

/// Prints the reason, with the offset, or with the path before it.
impl fmt::Display for JsonReadError {
    ghost use Rattle.std.specs.Prelude.{Some};
    ghost use Rattle.shared_core_json_reader.specs.Errors.{error_text};

    ghost output = { λ error. Some (error_text error) };

    fn fmt<W: fmt::Write>(&self, f: &mut fmt::Formatter<W>) -> fmt::Result {
        let reason = self.reason;
        if let Some(offset) = self.offset {
            return write!(f, "{reason} at byte {offset}");
        }
        if self.path.is_empty() {
            return write!(f, "{reason}");
        }
        let path = self.path.as_str();
        write!(f, "{path}: {reason}")
    }
}

impl Error for JsonReadError {}
