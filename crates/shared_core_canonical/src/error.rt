//! The error of canonical payloads.

use std::alloc::AllocError;
use thiserror::Error;

/// Why there is no canonical payload of what a payload means.
#[derive(Clone, Copy, Debug, PartialEq, Eq, Error)]
pub enum CanonicalError {
    /// The payload is not well-formed for the schema.
    #[error("malformed payload")]
    Malformed,
    /// The canonical payload has more than 4,294,967,295 bytes, the most that a header can hold.
    #[error("the payload has more than 4294967295 bytes")]
    TooLong,
    /// An allocation failed.
    #[error("out of memory")]
    OutOfMemory,
}

impl From<AllocError> for CanonicalError {
    ghost use Rattle.std.specs.Prelude.{◌≡◌};
    ghost use Rattle.shared_core_canonical.specs.declared.error.CanonicalError.TheVariants.{OutOfMemory};

    ghost from_gives = { λ _ error. error ≡ OutOfMemory };

    fn from(_error: AllocError) -> CanonicalError {
        CanonicalError::OutOfMemory
    }
}
