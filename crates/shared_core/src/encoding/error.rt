//! The error of decoding.

use bytes::Bytes;
use shared_core_base::error::{self, InvocationErrorCode, OutOfMemory, codes, error_of};
use shared_core_base::header::{MessageType, UnknownMessageType};
use shared_core_errors::command_type_mismatch::CommandTypeMismatchError;
use shared_core_wire::error::WireError;
use std::alloc::Global;
use std::error::Error;
use std::fmt;

/// Why no message was returned or decoded.
#[derive(Debug, Drop)]
pub enum DecodingError {
    /// The payload of a message of this type is not well-formed. The error next to it is always `Malformed`.
    DecodeMessage(MessageType, WireError),
    /// The message is of another type than the code expects.
    UnexpectedMessageType(CommandTypeMismatchError),
    /// A notification has no id, or an id and no result.
    MissingField {
        /// The type of the notification.
        expected: MessageType,
        /// `id` or `result`.
        field: &'static str,
    },
    /// The next header's code is unassigned, before V9. Its eight bytes are taken.
    UnknownMessageType(UnknownMessageType),
    /// The next message's code is unassigned, from V9 on. Its header and its payload are taken: this is the code, and
    /// the payload.
    SkippedMessage(u16, Bytes),
    /// An allocation failed. Nothing is taken.
    OutOfMemory,
}

impl DecodingError {
    ghost use Rattle.std.specs.Prelude.{◌≡◌, IfOk, Some};
    ghost use Rattle.shared_core_base.specs.Error.{IsErrorOf};
    ghost use Rattle.shared_core.specs.Errors.{decoding_error_code, decoding_error_text};

    /// The code: `JOURNAL_MISMATCH` where the message is of another type, else `INTERNAL`.
    pub fn code(&self) -> InvocationErrorCode
        ensures { result.0 ≡ decoding_error_code self.now }
    {
        match self {
            DecodingError::UnexpectedMessageType(mismatch) => mismatch.code(),
            _ => codes::INTERNAL,
        }
    }

    /// The error with this code and this text.
    pub fn to_error(&self, alloc: Global) -> Result<error::Error, OutOfMemory>
        ensures { IfOk result (IsErrorOf (decoding_error_code self.now) (Some (decoding_error_text self.now))) }
    {
        error_of(alloc, self.code(), self)
    }
}

impl From<UnknownMessageType> for DecodingError {
    ghost use Rattle.std.specs.Prelude.{◌≡◌};
    ghost use Rattle.shared_core.specs.declared.encoding.error.DecodingError.TheVariants as variant;

    ghost from_gives = { λ unknown error. error ≡ variant.UnknownMessageType unknown };

    fn from(unknown: UnknownMessageType) -> DecodingError {
        DecodingError::UnknownMessageType(unknown)
    }
}

impl fmt::Display for DecodingError {
    ghost use Rattle.std.specs.Prelude.{Some};
    ghost use Rattle.shared_core.specs.Errors.{decoding_error_text};

    ghost output = { λ error. Some (decoding_error_text error) };

    fn fmt<W: fmt::Write>(&self, f: &mut fmt::Formatter<W>) -> fmt::Result {
        match self {
            DecodingError::DecodeMessage(ty, _) => {
                let name = ty.debug_name();
                write!(
                    f,
                    "cannot decode protocol message type {name}. Reason: malformed payload"
                )
            }
            DecodingError::UnexpectedMessageType(mismatch) => write!(f, "{mismatch}"),
            DecodingError::MissingField { expected, field } => {
                let name = expected.debug_name();
                let field = *field;
                write!(f, "expected message type {name} to have field {field}")
            }
            DecodingError::UnknownMessageType(unknown) => write!(f, "{unknown}"),
            DecodingError::SkippedMessage(code, payload) => {
                let code = *code;
                let count = payload.len();
                write!(
                    f,
                    "skipped protocol.message code 0x{code:x} with {count} payload bytes"
                )
            }
            DecodingError::OutOfMemory => f.write_str("out of memory"),
        }
    }
}

impl Error for DecodingError {}
