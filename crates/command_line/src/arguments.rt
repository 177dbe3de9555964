//! The arguments that a program is given.

use std::error::Error;
use std::{env, fmt, io};

/// Why the arguments cannot be read.
#[derive(Clone, Copy, Debug, PartialEq, Eq, Drop)]
pub enum ArgumentsError {
    /// One of them is not UTF-8.
    NotText,
    /// An allocation failed.
    OutOfMemory,
}

impl ArgumentsError {
    ghost use Rattle.std.specs.Prelude.{◌≡◌};
    ghost use Rattle.command_line.specs.Errors.{arguments_status};

    /// The status of the program: that of invalid arguments, 2, or `failure` if an allocation failed.
    pub fn status(self, failure: u8) -> u8
        ensures { result ≡ arguments_status self failure }
    {
        match self {
            ArgumentsError::NotText => 2,
            ArgumentsError::OutOfMemory => failure,
        }
    }
}

impl fmt::Display for ArgumentsError {
    ghost use Rattle.std.specs.Prelude.{Some};
    ghost use Rattle.command_line.specs.Errors.{arguments_text};

    ghost output = { λ error. Some (arguments_text error) };

    fn fmt<W: fmt::Write>(&self, f: &mut fmt::Formatter<W>) -> fmt::Result {
        f.write_str(match self {
            ArgumentsError::NotText => "an argument is not UTF-8",
            ArgumentsError::OutOfMemory => "out of memory",
        })
    }
}

impl Error for ArgumentsError {}

/// The program's arguments, its own name first.
pub fn read_arguments(rt: &HostRuntime) -> Result<Vec<String>, ArgumentsError> {
    match collect_arguments(rt) {
        Ok(arguments) => Ok(arguments),
        Err(error) if error.kind() == io::ErrorKind::OutOfMemory => {
            Err(ArgumentsError::OutOfMemory)
        }
        Err(_) => Err(ArgumentsError::NotText),
    }
}

/// Collects the arguments.
fn collect_arguments(rt: &HostRuntime) -> io::Result<Vec<String>> {
    Ok(env::args(rt)?.collect(rt.alloc())?)
}
