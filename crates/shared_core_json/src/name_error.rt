//! The error of giving names to the fields of a table.

use std::error::Error;
use std::fmt;

/// The first name, in the order of schemas, whose number is 0 or not greater than the one before it in its schema.
#[derive(Clone, Copy, Debug, PartialEq, Eq, Drop)]
pub struct NameError {
    /// The index of its schema.
    pub schema: usize,
    /// Its number.
    pub number: u32,
}

impl fmt::Display for NameError {
    ghost use Rattle.std.specs.Prelude.{Some};
    ghost use Rattle.shared_core_json.specs.LoadedNames.{error_text};

    ghost output = { λ error. Some (error_text error) };

    fn fmt<W: fmt::Write>(&self, f: &mut fmt::Formatter<W>) -> fmt::Result {
        let schema = self.schema;
        let number = self.number;
        write!(f, "schema {schema}, field {number}: name out of order")
    }
}

impl Error for NameError {}
