//! The errors of a set.

use shared_core_codec::table_error::TableFault;
use std::alloc::{AllocError, AllocFailed};
use std::error::Error;
use std::fmt;

/// Where something of a set is. A name is empty where the set does not say it.
#[derive(Debug, Drop)]
pub struct Place {
    /// The name of a file of the set.
    pub file: String,
    /// The full name of a message.
    pub message: String,
    /// The name of a field of the message.
    pub field: String,
}

/// Prints the file, and the message and the field where there is one: `a.proto: b.Message.field`.
impl fmt::Display for Place {
    fn fmt<W: fmt::Write>(&self, f: &mut fmt::Formatter<W>) -> fmt::Result {
        write!(f, "{}", self.file)?;
        if !self.message.is_empty() {
            write!(f, ": {}", self.message)?;
        }
        if !self.field.is_empty() {
            write!(f, ".{}", self.field)?;
        }
        Ok(())
    }
}

/// Why no table comes of some bytes.
#[derive(Debug, Drop)]
pub enum DescriptorError {
    /// They are not a FileDescriptorSet, or one more than a hundred levels deep. The place has empty names where no
    /// file, message or field of it is malformed by itself.
    Malformed(Place),
    /// There are more than `MOST_BYTES` bytes.
    TooLong,
    /// The full name of a message or an enum has more than `MOST_NAME_BYTES` bytes.
    NameTooLong(Place),
    /// A message has more than `MOST_FIELDS` fields.
    TooManyFields(Place),
    /// Two messages have one full name.
    MessageTwice(Place),
    /// A field is a message of a full name that the set does not have.
    UnknownMessage(Place, String),
    /// No table may have a field.
    InvalidField(Place, TableFault),
    /// A key in JSON is a name of two fields of a message.
    SharedName(Place),
    OutOfMemory,
}

impl fmt::Display for DescriptorError {
    fn fmt<W: fmt::Write>(&self, f: &mut fmt::Formatter<W>) -> fmt::Result {
        match self {
            DescriptorError::Malformed(place) => {
                if place.file.is_empty() {
                    write!(f, "not a descriptor set")
                } else {
                    write!(f, "{place}: malformed")
                }
            }
            DescriptorError::TooLong => write!(f, "the descriptor set is longer than 16 MiB"),
            DescriptorError::NameTooLong(place) => write!(
                f,
                "{place}: a name is longer than 1024 bytes"
            ),
            DescriptorError::TooManyFields(place) => write!(f, "{place}: more than 4096 fields"),
            DescriptorError::MessageTwice(place) => write!(
                f,
                "{place}: a second message of this name"
            ),
            DescriptorError::UnknownMessage(place, name) => write!(
                f,
                "{place}: the set has no message {name}; --include_imports adds what a file imports",
            ),
            DescriptorError::InvalidField(place, fault) => write!(f, "{place}: {fault}"),
            DescriptorError::SharedName(place) => write!(
                f,
                "{place}: a key in JSON is a name of two fields"
            ),
            DescriptorError::OutOfMemory => write!(f, "out of memory"),
        }
    }
}

impl Error for DescriptorError {}

impl From<AllocError> for DescriptorError {
    ghost use Rattle.descriptor_set.specs.declared.error.DescriptorError.TheVariants.{OutOfMemory};
    ghost use Rattle.std.specs.Prelude.{◌≡◌};

    ghost from_gives = { λ _ error. error ≡ OutOfMemory };

    fn from(_error: AllocError) -> DescriptorError {
        DescriptorError::OutOfMemory
    }
}

impl<T: Drop> From<AllocFailed<T>> for DescriptorError {
    ghost use Rattle.descriptor_set.specs.declared.error.DescriptorError.TheVariants.{OutOfMemory};
    ghost use Rattle.std.specs.Prelude.{◌≡◌};

    ghost from_gives = { λ _ error. error ≡ OutOfMemory };

    fn from(_error: AllocFailed<T>) -> DescriptorError {
        DescriptorError::OutOfMemory
    }
}
