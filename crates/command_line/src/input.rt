//! The input of a program: a file, or the standard input.

use crate::note;
use either::Either;
use std::error::Error;
use std::fs::File;
use std::io::{IsTerminal, Read, Stdin};
use std::{fmt, fs, io};

/// A file, or the standard input.
pub type Input = Either<File, Stdin>;

/// A file that cannot be opened: its path, and why.
#[derive(Debug, Drop)]
pub struct OpenError<'a> {
    path: &'a str,
    reason: io::Error,
}

impl<'a> OpenError<'a> {
    /// Whether there is no such file.
    pub fn is_missing(&self) -> bool {
        self.reason.kind() == io::ErrorKind::NotFound
    }
}

// std says nothing of the text of the reason, so this has no output that a contract could name
impl<'a> fmt::Display for OpenError<'a> {
    fn fmt<W: fmt::Write>(&self, f: &mut fmt::Formatter<W>) -> fmt::Result {
        write!(f, "{}: {}", self.path, self.reason)
    }
}

impl<'a> Error for OpenError<'a> {}

/// Opens a file for reading, or the standard input if the path is `-`.
pub fn open<'a>(rt: &HostRuntime, path: &'a str) -> Result<Input, OpenError<'a>> {
    if path == "-" {
        return Ok(Either::Right(rt.stdin()));
    }
    match open_file(rt, path) {
        Ok(file) => Ok(Either::Left(file)),
        Err(reason) => Err(OpenError { path, reason }),
    }
}

/// Says on the standard error that the standard input is read, if the path is `-` and that is a terminal. A program
/// that waits for what is typed would seem to hang.
pub fn note_terminal(rt: &HostRuntime, program: &str, path: &str) {
    if path == "-" && rt.stdin().is_terminal() {
        note(rt, program, "reading the standard input; Ctrl-D ends it");
    }
}

/// Whether the standard input is open. If it is not, the first file that is opened takes its place, so this is asked
/// before any is.
pub fn is_stdin_open(rt: &HostRuntime) -> bool {
    // a read of no bytes takes none, and fails if there is nothing to read from
    // (std has no call that says it, and to open the null device first would need a path that exists everywhere)
    rt.stdin().read(&mut []).is_ok()
}

/// Opens a file for reading. A directory is an error already here, and not only when it is read.
fn open_file(rt: &HostRuntime, path: &str) -> io::Result<File> {
    let file = fs::open(rt, path)?;
    if file.metadata().is_ok_and(|metadata| metadata.is_dir()) {
        return Err(io::Error::from(io::ErrorKind::IsADirectory));
    }
    Ok(file)
}

/// The size of an input in bytes, if it is a file that has one.
pub fn input_size(input: &Input) -> Option<u64> {
    match input {
        Either::Left(file) => {
            let metadata = file.metadata().ok()?;
            metadata.is_file().then_some(metadata.len())
        }
        Either::Right(_) => None,
    }
}
