//! What a line needs to know of an item, other than its text.

ghost use Rattle.std.specs.Prelude.{◌≡◌};
ghost use Rattle.shared_core_codec.specs.Payloads.{payload_meaning};
ghost use Rattle.show_lines.specs.Contents.{fails_as, has_failure, is_failure, number_in, number_part};
ghost use Rattle.show_lines.specs.Contents.{role_of, value_fields};
ghost use Rattle.show_lines.specs.Lines.{fields_facts, is_command, no_ids};
ghost use Rattle.shared_core_fields.specs.Views.{field_part};

use shared_core_base::header::MessageType;
use shared_core_fields::fields::{CanonicalPayload, Field, FieldValue};

/// The number of the schema of failures.
pub const FAILURE: u32 = 2;

/// The number of the schema of error messages.
const ERROR: u32 = 13;

/// What a message is for.
#[derive(Clone, Copy, Debug, PartialEq, Eq, Drop)]
pub enum Role {
    /// A command.
    Command,
    /// A notification.
    Notification,
    /// Neither, as what starts and ends an invocation, or an item that is not a message.
    Other,
}

/// What is known of an item.
#[derive(Clone, Copy, Debug, PartialEq, Eq, Drop)]
pub struct Facts {
    /// What it is for.
    pub role: Role,
    /// Of a command, the id by which the id of the invocation that it calls becomes known.
    pub invocation: Option<u32>,
    /// Of a command the id of its result, and of a notification the id that it completes.
    pub result: Option<u32>,
    /// Whether it is a failure, or malformed.
    pub is_failure: bool,
}

impl Facts {
    /// Those of an item without ids.
    pub fn without_ids(role: Role, is_failure: bool) -> Facts
        ensures { result ≡ no_ids role is_failure }
    {
        Facts {
            role,
            invocation: None,
            result: None,
            is_failure,
        }
    }

    /// Whether it is a command.
    pub fn is_command(&self) -> bool
        ensures { result ≡ is_command self.now }
    {
        matches!(self.role, Role::Command)
    }
}

/// What messages of a type are for.
pub fn role_of(ty: MessageType) -> Role
    ensures { result ≡ role_of ty }
{
    if ty.is_command() {
        Role::Command
    } else if ty.is_notification() {
        Role::Notification
    } else {
        Role::Other
    }
}

/// What is known of a message by its payload.
pub fn facts_of(role: Role, payload: CanonicalPayload<'_>) -> Facts
    ensures { result ≡ fields_facts role payload.entry.schema
        (value_fields payload.entry.schema (payload_meaning payload.entry.schema payload.entry.bytes.now)) }
{
    let is_failure = is_failing(payload);
    match role {
        Role::Command => Facts {
            role,
            invocation: number_in(payload, 10),
            result: number_in(payload, 11),
            is_failure,
        },
        Role::Notification => Facts {
            role,
            invocation: None,
            result: number_in(payload, 1),
            is_failure,
        },
        Role::Other => Facts::without_ids(role, is_failure),
    }
}

/// The number of the first field with this number, if that is one of 32 bits.
fn number_in(payload: CanonicalPayload<'_>, number: u32) -> Option<u32>
    ensures { result ≡ number_in number
        (value_fields payload.entry.schema (payload_meaning payload.entry.schema payload.entry.bytes.now)) }
{
    for field in payload.fields() {
        if field.number == number {
            return number_of(&field);
        }
    }
    None
}

/// The number of a field that is one of 32 bits.
fn number_of(field: &Field<'_>) -> Option<u32>
    ensures { result ≡ number_part (field_part field.now) }
{
    match field.value {
        FieldValue::U32(number) => Some(number),
        _ => None,
    }
}

/// Whether it is an error message, or one of its fields is a failure.
pub fn is_failing(payload: CanonicalPayload<'_>) -> bool
    ensures { result ≡ fails_as payload.entry.schema
        (value_fields payload.entry.schema (payload_meaning payload.entry.schema payload.entry.bytes.now)) }
{
    payload.schema == ERROR || has_failure(payload)
}

/// Whether one of the fields is a failure.
fn has_failure(payload: CanonicalPayload<'_>) -> bool
    ensures { result ≡ has_failure
        (value_fields payload.entry.schema (payload_meaning payload.entry.schema payload.entry.bytes.now)) }
{
    for field in payload.fields() {
        if is_failure(&field) {
            return true;
        }
    }
    false
}

/// Whether a field is a failure.
fn is_failure(field: &Field<'_>) -> bool
    ensures { result ≡ is_failure (field_part field.now) }
{
    match field.value {
        FieldValue::Message(message) => message.schema == FAILURE,
        _ => false,
    }
}
