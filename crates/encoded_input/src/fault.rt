//! What is wrong with a text.

ghost use Rattle.std.specs.Prelude.{Some};
ghost use Rattle.encoded_input.specs.Text.{fault_text};

use std::error::Error;
use std::fmt;

/// What is wrong with a text. Offsets count all characters, from 0.
#[derive(Clone, Copy, Debug, PartialEq, Eq, Drop)]
pub enum Fault {
    /// The character at this offset may not come there.
    Character(u64),
    /// The text ends within a byte, at this offset.
    End(u64),
}

impl fmt::Display for Fault {
    ghost output = { λ fault. Some (fault_text fault) };

    fn fmt<W: fmt::Write>(&self, f: &mut fmt::Formatter<W>) -> fmt::Result {
        match self {
            Fault::Character(offset) => {
                write!(f, "offset {offset}: this character is not a digit")
            }
            Fault::End(offset) => write!(f, "offset {offset}: the text ends within a byte"),
        }
    }
}

impl Error for Fault {}
