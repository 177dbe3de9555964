//! The error of `print_lines`.

use crate::output::OutputFailed;
use shared_core_stream::encoding::MessageTooLong;
use std::alloc::AllocError;
use std::error::Error;
use std::fmt;

/// Why printing ended before the last line.
#[derive(Clone, Copy, Debug, PartialEq, Eq, Drop)]
pub enum PrintError {
    /// A read failed, for another reason than that it was interrupted, or 2^64 - 1 reads met no end.
    Input,
    /// A write failed, or wrote no byte.
    Output,
    /// A chunk, an item or a line could not be allocated.
    OutOfMemory,
    /// An item is too long for a line.
    TooLong,
    /// A message is longer than the limit.
    MessageTooLong(MessageTooLong),
}

impl fmt::Display for PrintError {
    ghost use Rattle.std.specs.Prelude.{Some};
    ghost use Rattle.stream_lines.specs.Printing.{error_text};

    ghost output = { λ error. Some (error_text error) };

    fn fmt<W: fmt::Write>(&self, f: &mut fmt::Formatter<W>) -> fmt::Result {
        match self {
            PrintError::Input => f.write_str("input failed"),
            PrintError::Output => f.write_str("output failed"),
            PrintError::OutOfMemory => f.write_str("out of memory"),
            PrintError::TooLong => f.write_str("an item is too long for a line"),
            PrintError::MessageTooLong(message) => write!(f, "{message}"),
        }
    }
}

impl Error for PrintError {}

impl From<AllocError> for PrintError {
    ghost use Rattle.std.specs.Prelude.{◌≡◌};
    ghost use Rattle.stream_lines.specs.declared.error.PrintError.TheVariants.{OutOfMemory};

    ghost from_gives = { λ _ error. error ≡ OutOfMemory };

    fn from(_error: AllocError) -> PrintError {
        PrintError::OutOfMemory
    }
}

impl From<OutputFailed> for PrintError {
    ghost use Rattle.std.specs.Prelude.{◌≡◌};
    ghost use Rattle.stream_lines.specs.declared.error.PrintError.TheVariants.{Output};

    ghost from_gives = { λ _ error. error ≡ Output };

    fn from(_error: OutputFailed) -> PrintError {
        PrintError::Output
    }
}
