//! Notifications of any type, reduced to an id and a result.

ghost use Rattle.std.specs.Prelude.{IfOk, IsOk, IsTrue, ◌↔◌};
ghost use Rattle.shared_core_parts.specs.Conversions.{IsValueOf, TakesNoMemory};
ghost use Rattle.shared_core_parts.specs.Notifications.{IsFailure};

pub use crate::notification_template::{Id as NotificationId, Result as NotificationResult};
use crate::texts::texts_of_keys;
use shared_core_base::error::OutOfMemory;
use shared_core_base::values;
use std::alloc::Global;

/// The id of a command that awaits a completion.
pub type CompletionId = u32;

/// The id of the signal that cancels an invocation.
pub const CANCEL_SIGNAL_ID: u32 = 1;

/// A notification with its id and its result.
#[derive(Debug, Drop)]
pub struct Notification {
    /// Its id: that of a completion, or a signal by its number or its name.
    pub id: NotificationId,
    /// Its result.
    pub result: NotificationResult,
}

impl NotificationResult {
    /// Whether it is a failure.
    pub fn is_failure(&self) -> bool
        ensures { IsTrue result ↔ IsFailure self.now }
    {
        matches!(self, Self::Failure(_))
    }

    /// Converts the result to a value: a failure as `Failure::into_terminal` does, state keys to text, with U+FFFD for
    /// each sequence that is not UTF-8, and all else unchanged. Only a failure with metadata and a list of keys can
    /// fail with `OutOfMemory`.
    pub fn into_value(self, alloc: Global) -> Result<values::Value, OutOfMemory>
        ensures ok { IfOk result (IsValueOf self) }
        ensures succeeds { TakesNoMemory self → IsOk result }
    {
        Ok(match self {
            Self::Void(_) => values::Value::Void,
            Self::Value(value) => values::Value::Success(value.content),
            Self::Failure(failure) => values::Value::Failure(failure.into_terminal(alloc)?),
            Self::InvocationId(invocation_id) => values::Value::InvocationId(invocation_id),
            Self::StateKeys(state_keys) => {
                values::Value::StateKeys(texts_of_keys(alloc, &state_keys.keys)?)
            }
        })
    }
}
