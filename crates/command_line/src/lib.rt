//! What the programs share: their arguments, their inputs and output, and how they report errors.
#![tactic(auto)]

mod arguments;
mod colors;
mod decoding;
mod definitions;
mod input;
mod max_message;
mod parsing;
mod pipe;
mod progress;
mod protocol;
mod terminal;

ghost use Rattle.std.specs.Prelude.{◌≡◌};
ghost use Rattle.std.specs.Process.{exit_status};

pub use crate::arguments::{ArgumentsError, read_arguments};
pub use crate::colors::{ColorChoice, color_of, has_color};
pub use crate::decoding::{Decoding, encoding_of};
pub use crate::definitions::{Argument, Definition, Form, Values};
pub use crate::input::{Input, OpenError, input_size, is_stdin_open, note_terminal, open};
pub use crate::max_message::max_message_of;
pub use crate::parsing::{FromMatches, parse};
pub use crate::pipe::Pipe;
pub use crate::progress::{Progress, Watched};
pub use crate::protocol::{is_auto, protocol_of};
use clap::Error;
use clap::error::ErrorKind;
use std::fmt::Display;
use std::io::{self, IsTerminal, Write};
use std::process::ExitCode;
use terminal_text::{Escapes, Escaping};

/// Prints `PROGRAM: TEXT` in a line on the standard error. If that is a terminal, what it may take as commands is
/// escaped.
pub fn note<T: Display + Drop>(rt: &HostRuntime, program: &str, text: T) {
    let stderr = rt.stderr();
    // there is nothing to do if the standard error fails too
    if stderr.is_terminal() {
        let mut output = Escaping::new(rt.alloc(), stderr, Escapes::Text, true);
        let _ = write!(output, "{program}: {text}");
        let _ = eprintln!(rt; "");
    } else {
        let _ = eprintln!(rt; "{program}: {text}");
    }
}

/// Prints `PROGRAM: WHY` in a line on the standard error, as `note` does, and returns the status.
pub fn fail<T: Display + Drop>(rt: &HostRuntime, program: &str, why: T, status: u8) -> ExitCode
    ensures { exit_status result ≡ status }
{
    note(rt, program, why);
    ExitCode::from(status)
}

/// Prints the help or the version if the command line requests it, with the status 0. Otherwise prints the command-line
/// error and the usage on the standard error, with the status 2. If an allocation or the output fails, the status is
/// `failure`.
pub fn report(rt: &HostRuntime, program: &str, error: &Error, failure: u8) -> ExitCode {
    if error.kind() == ErrorKind::OutOfMemory {
        return fail(rt, program, "out of memory", failure);
    }
    if error.use_stderr() {
        let stderr = rt.stderr();
        let is_terminal = stderr.is_terminal();
        let mut output = Escaping::new(rt.alloc(), stderr, Escapes::Lines, is_terminal);
        // there is nothing to do if the standard error fails
        let _ = write!(output, "{error}");
        return ExitCode::from(2);
    }
    match error.print(rt) {
        Ok(()) => ExitCode::SUCCESS,
        Err(error) if error.kind() == io::ErrorKind::BrokenPipe => ExitCode::from(failure),
        Err(_) => fail(rt, program, "output failed", failure),
    }
}
