//! The constant errors: each has a code and a message, and is retried.
//!
//! They are functions, since a constant has no contract.

ghost use Rattle.std.specs.Prelude.{◌≡◌, codes};
ghost use Rattle.shared_core_base.specs.Error.{error_parts, plain_error};

pub use shared_core_base::error::suspended;
use shared_core_base::error::{Error, InvocationErrorCode, codes};
use std::borrow::CowStr;

/// An error of this code and this message, and nothing else.
fn constant(code: InvocationErrorCode, message: &'static str) -> Error
    ensures { error_parts result ≡ plain_error code.0 message.now }
{
    Error::new(code.code(), CowStr::Borrowed(message))
}

/// The request has no content type.
pub fn missing_content_type() -> Error
    ensures { error_parts result ≡ plain_error 415 (codes "Missing content type when invoking the service deployment") }
{
    constant(
        codes::UNSUPPORTED_MEDIA_TYPE,
        "Missing content type when invoking the service deployment",
    )
}

/// A received message is not an entry of the journal.
pub fn unexpected_input_message() -> Error
    ensures { error_parts result ≡ plain_error 571 (codes "Expected incoming message to be an entry") }
{
    constant(
        codes::PROTOCOL_VIOLATION,
        "Expected incoming message to be an entry",
    )
}

/// The start message has no known entry, though the input is always one.
pub fn known_entries_is_zero() -> Error
    ensures { error_parts result ≡ plain_error 500 (codes "Known entries is zero, expected >= 1") }
{
    constant(codes::INTERNAL, "Known entries is zero, expected >= 1")
}

/// A message received during the replay is not an entry of the journal.
pub fn unexpected_entry_message() -> Error
    ensures { error_parts result ≡ plain_error 571 (codes "Expected entry messages only when waiting replay entries") }
{
    constant(
        codes::PROTOCOL_VIOLATION,
        "Expected entry messages only when waiting replay entries",
    )
}

/// The input ended before the whole journal was received.
pub fn input_closed_while_waiting_entries() -> Error
    ensures { error_parts result ≡ plain_error 571 (codes "The input was closed while still waiting to receive all journal to replay") }
{
    constant(
        codes::PROTOCOL_VIOLATION,
        "The input was closed while still waiting to receive all journal to replay",
    )
}

/// An idempotency key is given, and empty.
pub fn empty_idempotency_key() -> Error
    ensures { error_parts result ≡ plain_error 500 (codes "Trying to execute an idempotent request with an empty idempotency key. The idempotency key must be non-empty.") }
{
    constant(
        codes::INTERNAL,
        "Trying to execute an idempotent request with an empty idempotency key. The idempotency key must be non-empty.",
    )
}

/// A limit key is given, and empty.
pub fn empty_limit_key() -> Error
    ensures { error_parts result ≡ plain_error 500 (codes "Trying to execute a request with an empty limit key. The limit key must be non-empty.") }
{
    constant(
        codes::INTERNAL,
        "Trying to execute a request with an empty limit key. The limit key must be non-empty.",
    )
}

/// A scope is given, and empty.
pub fn empty_scope() -> Error
    ensures { error_parts result ≡ plain_error 500 (codes "Trying to execute a request with an empty scope. The scope must be non-empty.") }
{
    constant(
        codes::INTERNAL,
        "Trying to execute a request with an empty scope. The scope must be non-empty.",
    )
}

/// A command that reads state eagerly holds neither a value nor its absence.
pub fn empty_get_eager_state() -> Error
    ensures { error_parts result ≡ plain_error 571 (codes "Unexpected empty value variant for get eager state.") }
{
    constant(
        codes::PROTOCOL_VIOLATION,
        "Unexpected empty value variant for get eager state.",
    )
}

/// A command that reads the state's keys eagerly holds no keys.
pub fn empty_get_eager_state_keys() -> Error
    ensures { error_parts result ≡ plain_error 571 (codes "Unexpected empty value variant for state keys.") }
{
    constant(
        codes::PROTOCOL_VIOLATION,
        "Unexpected empty value variant for state keys.",
    )
}

/// The result of a read of state that is not recorded holds neither a value nor its absence.
pub fn empty_get_state_ephemeral_notification() -> Error
    ensures { error_parts result ≡ plain_error 571 (codes "Unexpected empty result variant for get state ephemeral notification.") }
{
    constant(
        codes::PROTOCOL_VIOLATION,
        "Unexpected empty result variant for get state ephemeral notification.",
    )
}

/// The input ended before the result of a read of state that is not recorded.
pub fn input_closed_while_waiting_ephemeral_notifications() -> Error
    ensures { error_parts result ≡ plain_error 500 (codes "The input stream was closed while waiting for the result of a get state not recorded in the journal. Getting state without recording it in the journal requires a bidirectional stream between Restate and the service (not available in request/response mode, e.g. AWS Lambda), unless the state value is available in the eager state sent by Restate.") }
{
    constant(
        codes::INTERNAL,
        "The input stream was closed while waiting for the result of a get state not recorded in the journal. Getting state without recording it in the journal requires a bidirectional stream between Restate and the service (not available in request/response mode, e.g. AWS Lambda), unless the state value is available in the eager state sent by Restate.",
    )
}

/// A command that is not recorded is attempted during the replay, where its result might differ.
pub fn ephemeral_command_during_replay() -> Error
    ensures { error_parts result ≡ plain_error 570 (codes "Cannot execute ephemeral commands (e.g. get state without recording it in the journal) during replay, as their result might differ from the original execution. Ephemeral commands can be used only while processing new journal entries, e.g. within a ctx.run closure. This usually means the code uses them outside a ctx.run closure, or the code was changed.") }
{
    constant(
        codes::JOURNAL_MISMATCH,
        "Cannot execute ephemeral commands (e.g. get state without recording it in the journal) during replay, as their result might differ from the original execution. Ephemeral commands can be used only while processing new journal entries, e.g. within a ctx.run closure. This usually means the code uses them outside a ctx.run closure, or the code was changed.",
    )
}
