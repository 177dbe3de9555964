//! Errors with fields that say what went wrong.

ghost use Rattle.std.specs.Prelude.{◌≡◌, IfOk, Some};
ghost use Rattle.std.specs.String.{string_bytes};
ghost use Rattle.shared_core_base.specs.Error.{IsErrorOf};
ghost use Rattle.shared_core_errors.specs.Typed.{unavailable_entry_text, unexpected_state_text};
ghost use Rattle.shared_core_errors.specs.Typed.{bad_state_key_text, unsupported_feature_text};
ghost use Rattle.shared_core_errors.specs.Typed.{unproposed_run_text, closed_input_text, long_duration_text};

use shared_core_base::error::{Error, InvocationErrorCode, OutOfMemory, codes, error_of};
use shared_core_base::header::MessageType;
use shared_core_base::version::Version;
use shared_core_parts::notification::CompletionId;
use std::alloc::Global;
use std::{error, fmt};

/// The journal ended before an entry that the replay reads.
#[derive(Debug, Clone, Drop)]
pub struct UnavailableEntryError {
    expected: MessageType,
}

impl UnavailableEntryError {
    /// The error for an entry of this type.
    pub fn new(expected: MessageType) -> UnavailableEntryError
        ensures { result ≡ record { expected = expected } }
    {
        UnavailableEntryError { expected }
    }

    /// The code, `PROTOCOL_VIOLATION`.
    pub fn code(&self) -> InvocationErrorCode
        ensures { result.0 ≡ 571 }
    {
        codes::PROTOCOL_VIOLATION
    }

    /// The error with this code and this text.
    pub fn to_error(&self, alloc: Global) -> Result<Error, OutOfMemory>
        ensures { IfOk result (IsErrorOf 571 (Some (unavailable_entry_text self.now.expected))) }
    {
        error_of(alloc, self.code(), self)
    }
}

/// Prints the type of the missing entry.
impl fmt::Display for UnavailableEntryError {
    ghost output = { λ error. Some (unavailable_entry_text error.expected) };

    fn fmt<W: fmt::Write>(&self, f: &mut fmt::Formatter<W>) -> fmt::Result {
        let expected = self.expected;
        write!(
            f,
            "The execution replay ended unexpectedly. Expecting to read '{expected}' from the recorded journal, but the buffered messages were already drained."
        )
    }
}

impl error::Error for UnavailableEntryError {}

/// The state machine is in a state in which the event cannot happen.
#[derive(Debug, Drop)]
pub struct UnexpectedStateError {
    state: &'static str,
    event: String,
}

impl UnexpectedStateError {
    /// The state's name, and the event.
    pub fn new(state: &'static str, event: String) -> UnexpectedStateError
        ensures { result ≡ record { state = state.entry; event = event } }
    {
        UnexpectedStateError { state, event }
    }

    /// The code, `PROTOCOL_VIOLATION`.
    pub fn code(&self) -> InvocationErrorCode
        ensures { result.0 ≡ 571 }
    {
        codes::PROTOCOL_VIOLATION
    }

    /// The error with this code and this text.
    pub fn to_error(&self, alloc: Global) -> Result<Error, OutOfMemory>
        ensures { IfOk result (IsErrorOf 571 (unexpected_state_text self.now.state.now (string_bytes self.now.event))) }
    {
        error_of(alloc, self.code(), self)
    }
}

/// Prints the state and the event, each quoted as by `Debug`.
impl fmt::Display for UnexpectedStateError {
    ghost output = { λ error. unexpected_state_text error.state.now (string_bytes error.event) };

    fn fmt<W: fmt::Write>(&self, f: &mut fmt::Formatter<W>) -> fmt::Result {
        let state = self.state;
        let event = self.event.as_str();
        write!(f, "Unexpected state '{state:?}' when invoking '{event:?}'")
    }
}

impl error::Error for UnexpectedStateError {}

/// An eager state key is not UTF-8.
#[derive(Debug, Clone, Drop)]
pub struct BadEagerStateKeyError;

impl BadEagerStateKeyError {
    /// The error; it does not hold the key.
    pub fn new() -> BadEagerStateKeyError
        ensures { result ≡ record {} }
    {
        BadEagerStateKeyError
    }

    /// The code, `INTERNAL`.
    pub fn code(&self) -> InvocationErrorCode
        ensures { result.0 ≡ 500 }
    {
        codes::INTERNAL
    }

    /// The error with this code and this text.
    pub fn to_error(&self, alloc: Global) -> Result<Error, OutOfMemory>
        ensures { IfOk result (IsErrorOf 500 (Some bad_state_key_text)) }
    {
        error_of(alloc, self.code(), self)
    }
}

/// Prints that a key is not UTF-8.
impl fmt::Display for BadEagerStateKeyError {
    ghost output = { λ _. Some bad_state_key_text };

    fn fmt<W: fmt::Write>(&self, f: &mut fmt::Formatter<W>) -> fmt::Result {
        f.write_str("Cannot convert a eager state key into UTF-8 String: invalid UTF-8")
    }
}

impl error::Error for BadEagerStateKeyError {}

/// A feature needs a later version of the protocol than the negotiated one.
#[derive(Debug, Drop)]
pub struct UnsupportedFeatureForNegotiatedVersion {
    feature: &'static str,
    current_version: Version,
    minimum_required_version: Version,
}

impl UnsupportedFeatureForNegotiatedVersion {
    /// The feature's name, the negotiated version, and the first one that has the feature.
    pub fn new(
        feature: &'static str,
        current_version: Version,
        minimum_required_version: Version,
    ) -> UnsupportedFeatureForNegotiatedVersion
        ensures { result ≡ record {
          feature = feature.entry;
          current_version = current_version;
          minimum_required_version = minimum_required_version;
        } }
    {
        UnsupportedFeatureForNegotiatedVersion {
            feature,
            current_version,
            minimum_required_version,
        }
    }

    /// The code, `UNSUPPORTED_FEATURE`.
    pub fn code(&self) -> InvocationErrorCode
        ensures { result.0 ≡ 573 }
    {
        codes::UNSUPPORTED_FEATURE
    }

    /// The error with this code and this text.
    pub fn to_error(&self, alloc: Global) -> Result<Error, OutOfMemory>
        ensures { IfOk result (IsErrorOf 573 (Some
            (unsupported_feature_text self.now.feature.now self.now.current_version
            self.now.minimum_required_version))) }
    {
        error_of(alloc, self.code(), self)
    }
}

/// Prints the feature and both versions.
impl fmt::Display for UnsupportedFeatureForNegotiatedVersion {
    ghost output = { λ error. Some (unsupported_feature_text error.feature.now error.current_version
        error.minimum_required_version) };

    fn fmt<W: fmt::Write>(&self, f: &mut fmt::Formatter<W>) -> fmt::Result {
        let feature = self.feature;
        let current_version = self.current_version;
        let minimum_required_version = self.minimum_required_version;
        write!(
            f,
            "Feature '{feature}' is not supported by the negotiated protocol version '{current_version}', the minimum required version is '{minimum_required_version}'"
        )
    }
}

impl error::Error for UnsupportedFeatureForNegotiatedVersion {}

/// The completion of a run that this attempt did not propose is acknowledged.
#[derive(Debug, Drop)]
pub struct BadProposeRunCompletionAck {
    completion_id: CompletionId,
}

impl BadProposeRunCompletionAck {
    /// The acknowledged completion id.
    pub fn new(completion_id: CompletionId) -> BadProposeRunCompletionAck
        ensures { result ≡ record { completion_id = completion_id } }
    {
        BadProposeRunCompletionAck { completion_id }
    }

    /// The code, `PROTOCOL_VIOLATION`.
    pub fn code(&self) -> InvocationErrorCode
        ensures { result.0 ≡ 571 }
    {
        codes::PROTOCOL_VIOLATION
    }

    /// The error with this code and this text.
    pub fn to_error(&self, alloc: Global) -> Result<Error, OutOfMemory>
        ensures { IfOk result (IsErrorOf 571 (Some (unproposed_run_text self.now.completion_id))) }
    {
        error_of(alloc, self.code(), self)
    }
}

/// Prints the completion id.
impl fmt::Display for BadProposeRunCompletionAck {
    ghost output = { λ error. Some (unproposed_run_text error.completion_id) };

    fn fmt<W: fmt::Write>(&self, f: &mut fmt::Formatter<W>) -> fmt::Result {
        let completion_id = self.completion_id;
        write!(
            f,
            "Received a run completion ack for completion id {completion_id}, but the related run was not proposed during this attempt."
        )
    }
}

impl error::Error for BadProposeRunCompletionAck {}

/// A state is read that is not recorded, and the input is closed, so that no result can come.
#[derive(Debug, Drop)]
pub struct EphemeralStateGetWithClosedInput {
    key: String,
}

impl EphemeralStateGetWithClosedInput {
    /// The state's key.
    pub fn new(key: String) -> EphemeralStateGetWithClosedInput
        ensures { result ≡ record { key = key } }
    {
        EphemeralStateGetWithClosedInput { key }
    }

    /// The code, `INTERNAL`.
    pub fn code(&self) -> InvocationErrorCode
        ensures { result.0 ≡ 500 }
    {
        codes::INTERNAL
    }

    /// The error with this code and this text.
    pub fn to_error(&self, alloc: Global) -> Result<Error, OutOfMemory>
        ensures { IfOk result (IsErrorOf 500 (Some (closed_input_text (string_bytes self.now.key)))) }
    {
        error_of(alloc, self.code(), self)
    }
}

/// Prints the state's key.
impl fmt::Display for EphemeralStateGetWithClosedInput {
    ghost output = { λ error. Some (closed_input_text (string_bytes error.key)) };

    fn fmt<W: fmt::Write>(&self, f: &mut fmt::Formatter<W>) -> fmt::Result {
        let key = self.key.as_str();
        write!(
            f,
            "Cannot get state '{key}' without recording it in the journal: the input stream is closed, thus Restate cannot answer the request. Getting state without recording it in the journal requires a bidirectional stream between Restate and the service (not available in request/response mode, e.g. AWS Lambda), unless the state value is available in the eager state sent by Restate."
        )
    }
}

impl error::Error for EphemeralStateGetWithClosedInput {}

/// A duration is too long for the protocol.
#[derive(Debug, Clone, Drop)]
pub struct OutOfBoundsDuration(&'static str);

impl OutOfBoundsDuration {
    /// The purpose of the duration.
    pub fn new(duration_of: &'static str) -> OutOfBoundsDuration
        ensures { result ≡ record { 0 = duration_of.entry } }
    {
        OutOfBoundsDuration(duration_of)
    }

    /// The code, `INTERNAL`.
    pub fn code(&self) -> InvocationErrorCode
        ensures { result.0 ≡ 500 }
    {
        codes::INTERNAL
    }

    /// The error with this code and this text.
    pub fn to_error(&self, alloc: Global) -> Result<Error, OutOfMemory>
        ensures { IfOk result (IsErrorOf 500 (Some (long_duration_text self.now.0.now))) }
    {
        error_of(alloc, self.code(), self)
    }
}

/// Prints the purpose of the duration.
impl fmt::Display for OutOfBoundsDuration {
    ghost output = { λ error. Some (long_duration_text error.0.now) };

    fn fmt<W: fmt::Write>(&self, f: &mut fmt::Formatter<W>) -> fmt::Result {
        let duration_of = self.0;
        write!(
            f,
            "The provided duration for '{duration_of}' is out of bounds: value out of range"
        )
    }
}

impl error::Error for OutOfBoundsDuration {}
