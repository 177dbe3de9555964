//! The errors of parts of streams.

use shared_core_stream::encoding::MessageTooLong;
use std::alloc::AllocError;
use std::error::Error;
use std::fmt;
use stream_lines::output::OutputFailed;

/// Why the items of a stream were not read to its end.
#[derive(Clone, Copy, Debug, PartialEq, Eq, Drop)]
pub enum LocateError {
    /// A read failed, for another reason than that it was interrupted, or 2^64 - 1 items met no end.
    Input,
    /// A chunk or an item could not be allocated.
    OutOfMemory,
    /// A message is longer than the limit.
    MessageTooLong(MessageTooLong),
}

impl fmt::Display for LocateError {
    ghost use Rattle.std.specs.Prelude.{Some};
    ghost use Rattle.stream_parts.specs.Errors.{locate_error_text};

    ghost output = { λ error. Some (locate_error_text error) };

    fn fmt<W: fmt::Write>(&self, f: &mut fmt::Formatter<W>) -> fmt::Result {
        match self {
            LocateError::Input => f.write_str("input failed"),
            LocateError::OutOfMemory => f.write_str("out of memory"),
            LocateError::MessageTooLong(message) => write!(f, "{message}"),
        }
    }
}

impl Error for LocateError {}

/// Why a part of a stream was not copied to its end.
#[derive(Clone, Copy, Debug, PartialEq, Eq, Drop)]
pub enum CopyError {
    /// A read failed, for another reason than that it was interrupted.
    Input,
    /// A write failed, or wrote no byte.
    Output,
    /// The buffer could not be allocated.
    OutOfMemory,
    /// The stream ended before the part did.
    Ended,
}

impl fmt::Display for CopyError {
    ghost use Rattle.std.specs.Prelude.{Some};
    ghost use Rattle.stream_parts.specs.Errors.{copy_error_text};

    ghost output = { λ error. Some (copy_error_text error) };

    fn fmt<W: fmt::Write>(&self, f: &mut fmt::Formatter<W>) -> fmt::Result {
        match self {
            CopyError::Input => f.write_str("input failed"),
            CopyError::Output => f.write_str("output failed"),
            CopyError::OutOfMemory => f.write_str("out of memory"),
            CopyError::Ended => f.write_str("the input is shorter when it is read again"),
        }
    }
}

impl Error for CopyError {}

impl From<AllocError> for CopyError {
    ghost use Rattle.std.specs.Prelude.{◌≡◌};
    ghost use Rattle.stream_parts.specs.declared.error.CopyError.TheVariants.{OutOfMemory};

    ghost from_gives = { λ _ error. error ≡ OutOfMemory };

    fn from(_error: AllocError) -> CopyError {
        CopyError::OutOfMemory
    }
}

impl From<OutputFailed> for CopyError {
    ghost use Rattle.std.specs.Prelude.{◌≡◌};
    ghost use Rattle.stream_parts.specs.declared.error.CopyError.TheVariants.{Output};

    ghost from_gives = { λ _ error. error ≡ Output };

    fn from(_error: OutputFailed) -> CopyError {
        CopyError::Output
    }
}
