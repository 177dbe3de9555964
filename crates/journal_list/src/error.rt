//! The error of `list_at`.

use command_line::ArgumentsError;
use shared_core_stream::encoding::MessageTooLong;
use std::error::Error;
use std::fmt;

/// Why a listing ended before its last line.
#[derive(Clone, Copy, Debug, PartialEq, Eq, Drop)]
pub enum ListError {
    /// A read failed, or 2^64 - 1 reads met no end.
    Input,
    /// A write failed, or wrote no byte.
    Output,
    /// A chunk, a payload or a line could not be allocated.
    OutOfMemory,
    /// A message is longer than the limit.
    MessageTooLong(MessageTooLong),
}

impl fmt::Display for ListError {
    ghost use Rattle.std.specs.Prelude.{Some};
    ghost use Rattle.journal_list.specs.Listing.{error_text};

    ghost output = { λ error. Some (error_text error) };

    fn fmt<W: fmt::Write>(&self, f: &mut fmt::Formatter<W>) -> fmt::Result {
        match self {
            ListError::Input => f.write_str("input failed"),
            ListError::Output => f.write_str("output failed"),
            ListError::OutOfMemory => f.write_str("out of memory"),
            ListError::MessageTooLong(message) => write!(f, "{message}"),
        }
    }
}

impl Error for ListError {}

/// Arguments that cannot be read are an input that fails.
impl From<ArgumentsError> for ListError {
    ghost use Rattle.std.specs.Prelude.{◌≡◌};
    ghost use Rattle.journal_list.specs.Run.{error_of_arguments};

    ghost from_gives = { λ arguments error. error ≡ error_of_arguments arguments };

    fn from(error: ArgumentsError) -> ListError {
        match error {
            ArgumentsError::NotText => ListError::Input,
            ArgumentsError::OutOfMemory => ListError::OutOfMemory,
        }
    }
}
