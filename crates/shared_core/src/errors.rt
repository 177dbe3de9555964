//! Typed and constant errors, which convert to the error of an invocation, that of `error`.

ghost use Rattle.std.specs.Prelude.{◌≡◌, IfOk, Some, codes};
ghost use Rattle.shared_core_base.specs.Error.{IsErrorOf};
ghost use Rattle.shared_core_compare.specs.Differences.{difference};
ghost use Rattle.shared_core.specs.Errors.{command_mismatch_text};

use crate::fmt::Difference;
use shared_core_base::error::{Error, InvocationErrorCode, OutOfMemory, codes, error_of};
use shared_core_compare::difference::CommandMessageHeaderDiff;
pub use shared_core_errors::closed::ClosedError;
pub use shared_core_errors::command_type_mismatch::CommandTypeMismatchError;
pub use shared_core_errors::typed::{
    BadEagerStateKeyError, BadProposeRunCompletionAck, EphemeralStateGetWithClosedInput,
    OutOfBoundsDuration, UnavailableEntryError, UnexpectedStateError,
    UnsupportedFeatureForNegotiatedVersion,
};
pub use shared_core_errors::uncompleted::UncompletedDoProgressDuringReplay;
use shared_core_message::restate_message::RestateMessage;
use std::alloc::Global;
use std::{error, fmt};

// The constant errors: each has a code and a message.
pub use shared_core_errors::constants::{
    empty_get_eager_state, empty_get_eager_state_keys, empty_get_state_ephemeral_notification,
    empty_idempotency_key, empty_limit_key, empty_scope, ephemeral_command_during_replay,
    input_closed_while_waiting_entries, input_closed_while_waiting_ephemeral_notifications,
    known_entries_is_zero, missing_content_type, suspended, unexpected_entry_message,
    unexpected_input_message,
};

/// A command has the type that the code expects at its index in the journal, but differs from the command of the code.
/// A contract sees it as the record of the index and the two commands.
#[derive(Debug, Drop)]
pub struct CommandMismatchError<M> {
    command_index: i64,
    actual: M,
    expected: M,
}

impl<M: Drop> CommandMismatchError<M> {
    /// The mismatch at a command index: what was recorded, and what the code attempts now.
    pub fn new(command_index: i64, actual: M, expected: M) -> CommandMismatchError<M>
        ensures { result ≡ record { command_index = command_index; actual = actual; expected = expected } }
    {
        CommandMismatchError {
            command_index,
            actual,
            expected,
        }
    }
}

impl<M: RestateMessage + CommandMessageHeaderDiff> CommandMismatchError<M> {
    /// The code, `JOURNAL_MISMATCH`.
    pub fn code(&self) -> InvocationErrorCode
        ensures { result.0 ≡ 570 }
    {
        codes::JOURNAL_MISMATCH
    }

    /// The error with this code and this text.
    pub fn to_error(&self, alloc: Global) -> Result<Error, OutOfMemory>
        ensures { IfOk result (IsErrorOf 570 (Some (command_mismatch_text M.message_type self.now.command_index
            (difference M.schema (codes "   ") (M.parts self.now.actual) (M.parts self.now.expected))))) }
    {
        error_of(alloc, self.code(), self)
    }
}

/// Prints the index of the command and the difference: one line per field, after three spaces.
impl<M: RestateMessage + CommandMessageHeaderDiff> fmt::Display for CommandMismatchError<M> {
    ghost output = { λ error. Some (command_mismatch_text M.message_type error.command_index
        (difference M.schema (codes "   ") (M.parts error.actual) (M.parts error.expected))) };

    fn fmt<W: fmt::Write>(&self, f: &mut fmt::Formatter<W>) -> fmt::Result {
        let command = M::ty();
        let index = self.command_index;
        let difference = Difference {
            actual: &self.actual,
            expected: &self.expected,
        };
        write!(
            f,
            "Found a mismatch between the code paths taken during the previous execution and the paths taken during this execution.\nThis typically happens when some parts of the code are non-deterministic.\n- The mismatch happened while executing '{command}' (index '{index}')\n- Difference:{difference}"
        )
    }
}

impl<M: RestateMessage + CommandMessageHeaderDiff + fmt::Debug> error::Error
    for CommandMismatchError<M> {}
