//! The error of a command whose type is not the one that the code expects.

ghost use Rattle.std.specs.Prelude.{◌≡◌, IfOk, Some};
ghost use Rattle.shared_core_base.specs.Error.{IsErrorOf};
ghost use Rattle.shared_core_errors.specs.Mismatch.{command_type_mismatch_text};

use shared_core_base::error::{Error, InvocationErrorCode, OutOfMemory, codes, error_of};
use shared_core_base::header::MessageType;
use std::alloc::Global;
use std::{error, fmt};

/// A command does not have the type that the code expects at its index in the journal. A contract sees it as the record
/// of its index and its two types.
#[derive(Debug, Drop)]
pub struct CommandTypeMismatchError {
    command_index: i64,
    actual: MessageType,
    expected: MessageType,
}

impl CommandTypeMismatchError {
    /// The mismatch at a command index: the recorded type, and the one that the code attempts now.
    pub fn new(
        command_index: i64,
        actual: MessageType,
        expected: MessageType,
    ) -> CommandTypeMismatchError
        ensures { result ≡ record { command_index = command_index; actual = actual; expected = expected } }
    {
        CommandTypeMismatchError {
            command_index,
            actual,
            expected,
        }
    }

    /// The code, `JOURNAL_MISMATCH`.
    pub fn code(&self) -> InvocationErrorCode
        ensures { result.0 ≡ 570 }
    {
        codes::JOURNAL_MISMATCH
    }

    /// The error with this code and this text.
    pub fn to_error(&self, alloc: Global) -> Result<Error, OutOfMemory>
        ensures { IfOk result (IsErrorOf 570
            (Some (command_type_mismatch_text self.now.command_index self.now.actual self.now.expected))) }
    {
        error_of(alloc, self.code(), self)
    }
}

/// Prints what was recorded at which command, and what the code attempts.
impl fmt::Display for CommandTypeMismatchError {
    ghost output = { λ error. Some (command_type_mismatch_text error.command_index error.actual error.expected) };

    fn fmt<W: fmt::Write>(&self, f: &mut fmt::Formatter<W>) -> fmt::Result {
        let index = self.command_index;
        let actual = self.actual;
        let expected = self.expected;
        write!(
            f,
            "Found a mismatch between the code paths taken during the previous execution and the paths taken during this execution.\nThis typically happens when some parts of the code are non-deterministic.\n - The previous execution ran and recorded the following: '{actual}' (index '{index}')\n - The current execution attempts to perform the following: '{expected}'"
        )
    }
}

impl error::Error for CommandTypeMismatchError {}
