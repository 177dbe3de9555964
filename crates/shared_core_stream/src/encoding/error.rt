//! The errors of decoders.

use bytes::Bytes;
use std::alloc::{AllocError, AllocFailed};
use std::error::Error;
use std::fmt;

/// Why a chunk was rejected, and the chunk.
#[derive(Debug, Drop)]
pub enum PushError {
    /// The allocation of one more segment failed.
    OutOfMemory(Bytes),
    /// The pending bytes would be more than 2^64 - 1, or an earlier message is longer than the decoder's limit
    /// (`Decoder::rejected`). The latter never comes from a decoder without one.
    TooLong(Bytes),
}

/// Prints which of the two it is.
impl fmt::Display for PushError {
    ghost use Rattle.std.specs.Prelude.{Some};
    ghost use Rattle.shared_core_stream.specs.Errors.{push_error_text};

    ghost output = { λ error. Some (push_error_text error) };

    fn fmt<W: fmt::Write>(&self, f: &mut fmt::Formatter<W>) -> fmt::Result {
        match self {
            PushError::OutOfMemory(_) => f.write_str("out of memory"),
            PushError::TooLong(_) => f.write_str(
                "more than 2^64 - 1 bytes are pending, or a message is longer than the limit",
            ),
        }
    }
}

impl Error for PushError {}

/// Why a decoder returned no item.
#[derive(Clone, Copy, Debug, PartialEq, Eq, Drop)]
pub enum ItemError {
    /// The allocation of a payload failed. Nothing is taken.
    OutOfMemory,
    /// The next message is longer than the limit: the one of `Decoder::rejected`. Each later call returns this error
    /// too.
    TooLong,
}

/// Prints which of the two it is.
impl fmt::Display for ItemError {
    ghost use Rattle.std.specs.Prelude.{Some};
    ghost use Rattle.shared_core_stream.specs.Errors.{item_error_text};

    ghost output = { λ error. Some (item_error_text error) };

    fn fmt<W: fmt::Write>(&self, f: &mut fmt::Formatter<W>) -> fmt::Result {
        match self {
            ItemError::OutOfMemory => f.write_str("out of memory"),
            ItemError::TooLong => f.write_str("a message is longer than the limit"),
        }
    }
}

impl Error for ItemError {}

impl From<AllocError> for ItemError {
    ghost use Rattle.std.specs.Prelude.{◌≡◌};
    ghost use Rattle.shared_core_stream.specs.declared.encoding.error.ItemError.TheVariants.{OutOfMemory};

    ghost from_gives = { λ _ error. error ≡ OutOfMemory };

    fn from(_error: AllocError) -> ItemError {
        ItemError::OutOfMemory
    }
}

/// Why a list of chunks was not decoded.
#[derive(Debug, Drop)]
pub enum PiecesError {
    /// The joined chunks are more than 2^64 - 1 bytes.
    TooLong,
    /// The list of items, a segment or a payload could not be allocated.
    OutOfMemory,
}

/// Prints which of the two it is.
impl fmt::Display for PiecesError {
    ghost use Rattle.std.specs.Prelude.{Some};
    ghost use Rattle.shared_core_stream.specs.Errors.{pieces_error_text};

    ghost output = { λ error. Some (pieces_error_text error) };

    fn fmt<W: fmt::Write>(&self, f: &mut fmt::Formatter<W>) -> fmt::Result {
        match self {
            PiecesError::TooLong => f.write_str("the chunks have more than 2^64 - 1 bytes"),
            PiecesError::OutOfMemory => f.write_str("out of memory"),
        }
    }
}

impl Error for PiecesError {}

impl From<AllocError> for PiecesError {
    ghost use Rattle.std.specs.Prelude.{◌≡◌};
    ghost use Rattle.shared_core_stream.specs.declared.encoding.error.PiecesError.TheVariants.{OutOfMemory};

    ghost from_gives = { λ _ error. error ≡ OutOfMemory };

    fn from(_error: AllocError) -> PiecesError {
        PiecesError::OutOfMemory
    }
}

impl<T: Drop> From<AllocFailed<T>> for PiecesError {
    ghost use Rattle.std.specs.Prelude.{◌≡◌};
    ghost use Rattle.shared_core_stream.specs.declared.encoding.error.PiecesError.TheVariants.{OutOfMemory};

    ghost from_gives = { λ _ error. error ≡ OutOfMemory };

    fn from(_error: AllocFailed<T>) -> PiecesError {
        PiecesError::OutOfMemory
    }
}
