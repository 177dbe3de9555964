//! The error of making a table of schemas.

use std::error::Error;
use std::fmt;

/// Why no table may have a field.
#[derive(Clone, Copy, Debug, PartialEq, Eq, Drop)]
pub enum TableFault {
    /// Its number is not one from 1 to 536,870,911.
    NumberOutOfRange,
    /// A later field of its schema has the same number.
    NumberTwice,
    /// It is a message of a schema that the table does not have.
    UnknownSchema,
    /// It is a message without presence: proto3 has none, and rows have it as optional, repeated or in a oneof.
    PlainMessage,
}

impl fmt::Display for TableFault {
    ghost use Rattle.std.specs.Prelude.{Some};
    ghost use Rattle.shared_core_codec.specs.TableErrors.{fault_text};

    ghost output = { λ fault. Some (fault_text fault) };

    fn fmt<W: fmt::Write>(&self, f: &mut fmt::Formatter<W>) -> fmt::Result {
        f.write_str(match self {
            TableFault::NumberOutOfRange => "number out of range",
            TableFault::NumberTwice => "number of a later field",
            TableFault::UnknownSchema => "unknown schema",
            TableFault::PlainMessage => "message without presence",
        })
    }
}

/// The first field that no table may have, in the order of schemas and rows, and why.
#[derive(Clone, Copy, Debug, PartialEq, Eq, Drop)]
pub struct TableError {
    /// The index of its schema.
    pub schema: usize,
    /// Its number.
    pub number: u32,
    pub fault: TableFault,
}

/// Prints the fault, with the schema and the number before it.
impl fmt::Display for TableError {
    ghost use Rattle.std.specs.Prelude.{Some};
    ghost use Rattle.shared_core_codec.specs.TableErrors.{error_text};

    ghost output = { λ error. Some (error_text error) };

    fn fmt<W: fmt::Write>(&self, f: &mut fmt::Formatter<W>) -> fmt::Result {
        let schema = self.schema;
        let number = self.number;
        let fault = self.fault;
        write!(f, "schema {schema}, field {number}: {fault}")
    }
}

impl Error for TableError {}
