//! The error of writing JSON.

use shared_core_wire::error::WireError;
use std::alloc::AllocError;
use std::error::Error;
use std::fmt;

/// Why a payload has no JSON.
#[derive(Debug, Drop)]
pub enum JsonError {
    /// It is not well-formed for its message.
    Malformed,
    /// Its canonical payload has more than 4,294,967,295 bytes.
    TooLong,
    /// An allocation failed.
    OutOfMemory,
}

impl fmt::Display for JsonError {
    ghost use Rattle.std.specs.Prelude.{Some};
    ghost use Rattle.shared_core_json.specs.Errors.{error_text};

    ghost output = { λ error. Some (error_text error) };

    fn fmt<W: fmt::Write>(&self, f: &mut fmt::Formatter<W>) -> fmt::Result {
        f.write_str(match self {
            JsonError::Malformed => "malformed payload",
            JsonError::TooLong => "too long",
            JsonError::OutOfMemory => "out of memory",
        })
    }
}

impl Error for JsonError {}

impl From<WireError> for JsonError {
    ghost use Rattle.shared_core_json.specs.Errors.{error_of_wire};
    ghost use Rattle.std.specs.Prelude.{◌≡◌};

    ghost from_gives = { λ error found. found ≡ error_of_wire error };

    fn from(error: WireError) -> JsonError {
        match error {
            WireError::Malformed => JsonError::Malformed,
            WireError::OutOfMemory => JsonError::OutOfMemory,
        }
    }
}

impl From<AllocError> for JsonError {
    ghost use Rattle.std.specs.Prelude.{◌≡◌};
    ghost use Rattle.shared_core_json.specs.declared.error.JsonError.TheVariants.{OutOfMemory};

    ghost from_gives = { λ _ error. error ≡ OutOfMemory };

    fn from(_error: AllocError) -> JsonError {
        JsonError::OutOfMemory
    }
}
