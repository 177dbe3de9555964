//! The values that the SDK state machine takes and gives.

ghost use Rattle.std.specs.Prelude.{◌≡◌, true, false};
ghost use Rattle.shared_core_base.specs.Values.{variant_name_of, value_of_non_empty};

use crate::command_type::CommandType;
use bytes::Bytes;
use std::borrow::CowStr;

/// What a notification brings.
#[derive(Debug, Drop, PartialEq, Eq)]
pub enum Value {
    /// Nothing: the call succeeded without a value, or there is none.
    Void,
    /// The call succeeded with these bytes.
    Success(Bytes),
    /// The call failed for good.
    Failure(TerminalFailure),
    /// The keys of the state: only a read of the keys has this result.
    StateKeys(Vec<String>),
    /// The id of the invocation that a call made: only a call has this result.
    InvocationId(String),
}

impl Value {
    /// The name of the variant, as `StateKeys`.
    pub fn variant_name(&self) -> &'static str
        ensures { result.now ≡ variant_name_of self.now }
    {
        match self {
            Value::Void => "Void",
            Value::Success(_) => "Success",
            Value::Failure(_) => "Failure",
            Value::StateKeys(_) => "StateKeys",
            Value::InvocationId(_) => "InvocationId",
        }
    }
}

/// The result of an operation that has a value or fails for good.
#[derive(Debug, Drop)]
pub enum NonEmptyValue {
    /// The value, as bytes.
    Success(Bytes),
    /// It failed for good.
    Failure(TerminalFailure),
}

/// The same contents under the same name.
impl From<NonEmptyValue> for Value {
    ghost from_gives = { λ value same. same ≡ value_of_non_empty value };

    fn from(value: NonEmptyValue) -> Value {
        match value {
            NonEmptyValue::Success(bytes) => Value::Success(bytes),
            NonEmptyValue::Failure(failure) => Value::Failure(failure),
        }
    }
}

/// A failure that is not retried.
#[derive(Debug, Drop, PartialEq, Eq)]
pub struct TerminalFailure {
    /// The code, as of HTTP statuses.
    pub code: u16,
    /// A description of what went wrong.
    pub message: String,
    /// Further pairs of a key and a value, in order.
    pub metadata: Vec<(String, String)>,
}

/// A header of a request or of a call.
#[derive(Debug, Drop, PartialEq, Eq)]
pub struct Header {
    /// Its name.
    pub key: CowStr<'static>,
    /// Its value.
    pub value: CowStr<'static>,
}

/// How a payload is serialized. By default its bytes are the same each time.
#[derive(Clone, Copy, Debug, Default)]
pub struct PayloadOptions {
    /// Whether the same value may be serialized to other bytes another time, so that a replay compares no payload
    /// bytes.
    pub unstable_serialization: bool,
}

impl PayloadOptions {
    /// A value has the same bytes each time.
    pub fn stable_serialization() -> PayloadOptions
        ensures { result ≡ record { unstable_serialization = false } }
    {
        PayloadOptions {
            unstable_serialization: false,
        }
    }

    /// A value may have other bytes another time.
    pub fn unstable_serialization() -> PayloadOptions
        ensures { result ≡ record { unstable_serialization = true } }
    {
        PayloadOptions {
            unstable_serialization: true,
        }
    }
}

/// The command that an error is about, as the SDK state machine names it.
#[derive(Debug, Drop, PartialEq, Eq)]
pub enum CommandRelationship {
    /// The last command.
    Last,
    /// The command that comes next.
    Next {
        /// What it does.
        ty: CommandType,
        /// The name that the user gave it, if any.
        name: Option<CowStr<'static>>,
    },
    /// The command at a place of the journal.
    Specific {
        /// Its place among the commands, from 0.
        command_index: u32,
        /// What it does.
        ty: CommandType,
        /// The name that the user gave it, if any.
        name: Option<CowStr<'static>>,
    },
}
