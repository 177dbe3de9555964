//! The error of encoding, which the functions of `record` return. (That of decoding is `WireError`.)

use std::alloc::{AllocError, AllocFailed};
use std::{error, fmt};

/// An error of encoding a record (this project's own).
#[derive(Debug, Drop)]
pub enum EncodingError {
    /// The canonical payload has more than 4,294,967,295 bytes, the most that a header can hold.
    PayloadTooLong,
    /// An allocation failed.
    OutOfMemory,
}

/// Prints which of the two it is.
impl fmt::Display for EncodingError {
    ghost use Rattle.std.specs.Prelude.{Some};
    ghost use Rattle.shared_core_codec.specs.EncodingErrors.{encoding_error_text};

    ghost output = { λ error. Some (encoding_error_text error) };

    fn fmt<W: fmt::Write>(&self, f: &mut fmt::Formatter<W>) -> fmt::Result {
        match self {
            EncodingError::PayloadTooLong => {
                f.write_str("the payload has more than 4294967295 bytes")
            }
            EncodingError::OutOfMemory => f.write_str("out of memory"),
        }
    }
}

impl error::Error for EncodingError {}

impl From<AllocError> for EncodingError {
    ghost use Rattle.std.specs.Prelude.{◌≡◌};
    ghost use Rattle.shared_core_codec.specs.declared.error.EncodingError.TheVariants.{OutOfMemory};

    ghost from_gives = { λ _ e. e ≡ OutOfMemory };

    fn from(_error: AllocError) -> EncodingError {
        EncodingError::OutOfMemory
    }
}

impl<T: Drop> From<AllocFailed<T>> for EncodingError {
    ghost use Rattle.std.specs.Prelude.{◌≡◌};
    ghost use Rattle.shared_core_codec.specs.declared.error.EncodingError.TheVariants.{OutOfMemory};

    ghost from_gives = { λ _ e. e ≡ OutOfMemory };

    fn from(_error: AllocFailed<T>) -> EncodingError {
        EncodingError::OutOfMemory
    }
}
