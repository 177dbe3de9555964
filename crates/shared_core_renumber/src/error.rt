//! The error of payloads at other field numbers.

use std::alloc::AllocError;
use thiserror::Error;

/// Why a payload is not written at other field numbers.
#[derive(Clone, Copy, Debug, PartialEq, Eq, Error)]
pub enum RenumberError {
    /// The payload or a message within is not made of records, or a record is of another form than its field, or
    /// messages are nested more than one hundred levels deep.
    #[error("malformed payload")]
    Malformed,
    /// The payload would have more than 4,294,967,295 bytes, the most that a header can hold.
    #[error("the payload has more than 4294967295 bytes")]
    TooLong,
    /// An allocation failed.
    #[error("out of memory")]
    OutOfMemory,
}

impl From<AllocError> for RenumberError {
    ghost use Rattle.std.specs.Prelude.{◌≡◌};
    ghost use Rattle.shared_core_renumber.specs.declared.error.RenumberError.TheVariants.{OutOfMemory};

    ghost from_gives = { λ _ error. error ≡ OutOfMemory };

    fn from(_error: AllocError) -> RenumberError {
        RenumberError::OutOfMemory
    }
}
