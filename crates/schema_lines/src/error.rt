//! The errors of writing the table.

use crate::renames::RenameFault;
use descriptor_set::DescriptorError;
use std::alloc::{AllocError, AllocFailed};
use std::error::Error;
use std::fmt;
use stream_lines::output::OutputFailed;

/// Why there is no table, or not all of it.
#[derive(Debug, Drop)]
pub enum SchemaError {
    /// No table of schemas comes of the bytes.
    Descriptor(DescriptorError),
    /// Something is wrong with the rename of this index.
    Rename(usize, RenameFault),
    /// No field of the set is one of the protocol's, so that all fields of all payloads would be left out.
    NoFields,
    /// A write failed.
    Output,
    OutOfMemory,
}

impl fmt::Display for SchemaError {
    fn fmt<W: fmt::Write>(&self, f: &mut fmt::Formatter<W>) -> fmt::Result {
        match self {
            SchemaError::Descriptor(error) => write!(f, "{error}"),
            SchemaError::Rename(_, fault) => write!(f, "{fault}"),
            SchemaError::NoFields => write!(f, "no field of the protocol's messages"),
            SchemaError::Output => write!(f, "output failed"),
            SchemaError::OutOfMemory => write!(f, "out of memory"),
        }
    }
}

impl Error for SchemaError {}

impl From<DescriptorError> for SchemaError {
    ghost use Rattle.schema_lines.specs.declared.error.SchemaError.TheVariants.{Descriptor};
    ghost use Rattle.std.specs.Prelude.{◌≡◌};

    ghost from_gives = { λ why error. error ≡ Descriptor why };

    fn from(error: DescriptorError) -> SchemaError {
        SchemaError::Descriptor(error)
    }
}

impl From<OutputFailed> for SchemaError {
    ghost use Rattle.schema_lines.specs.declared.error.SchemaError.TheVariants.{Output};
    ghost use Rattle.std.specs.Prelude.{◌≡◌};

    ghost from_gives = { λ _ error. error ≡ Output };

    fn from(_error: OutputFailed) -> SchemaError {
        SchemaError::Output
    }
}

impl From<AllocError> for SchemaError {
    ghost use Rattle.schema_lines.specs.declared.error.SchemaError.TheVariants.{OutOfMemory};
    ghost use Rattle.std.specs.Prelude.{◌≡◌};

    ghost from_gives = { λ _ error. error ≡ OutOfMemory };

    fn from(_error: AllocError) -> SchemaError {
        SchemaError::OutOfMemory
    }
}

impl<T: Drop> From<AllocFailed<T>> for SchemaError {
    ghost use Rattle.schema_lines.specs.declared.error.SchemaError.TheVariants.{OutOfMemory};
    ghost use Rattle.std.specs.Prelude.{◌≡◌};

    ghost from_gives = { λ _ error. error ≡ OutOfMemory };

    fn from(_error: AllocFailed<T>) -> SchemaError {
        SchemaError::OutOfMemory
    }
}
