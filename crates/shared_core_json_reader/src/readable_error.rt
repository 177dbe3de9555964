//! The error of a table by which JSON is to be read.

use shared_core_codec::table_error::TableError;

/// Why JSON cannot be read by some schemas and names.
#[derive(Clone, Copy, Debug, PartialEq, Eq, Drop)]
pub enum ReadableError {
    /// The schema of this index has a name of no field of its own, a field without a name, or a key that is a name of
    /// two fields.
    Names(usize),
    /// A field that no table may have.
    Field(TableError),
    /// An allocation failed.
    OutOfMemory,
}
