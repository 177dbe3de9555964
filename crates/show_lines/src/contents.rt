//! What a line has of the fields of a message.

ghost use Rattle.std.specs.Prelude.{◌≡◌, ◌++◌, OnOk};
ghost use Rattle.std.specs.String.{string_bytes};
ghost use Rattle.shared_core_codec.specs.Payloads.{payload_meaning};
ghost use Rattle.shared_core_fields.specs.Views.{field_part};
ghost use Rattle.show_lines.specs.Contents.{field_text, fields_text, is_id, nested_text, scalar_text, value_fields};
ghost use Rattle.show_lines.specs.Contents.{shown_bytes, shown_number, shown_text};

use crate::excerpt::push_excerpt;
use crate::facts::{FAILURE, Role};
use shared_core_fields::fields::{CanonicalPayload, Field, FieldValue};
use shared_core_json::names::name_of;
use std::alloc::AllocError;

/// Appends the fields of a message, in order.
pub fn push_fields(
    line: &mut String,
    role: Role,
    payload: CanonicalPayload<'_>,
) -> Result<(), AllocError>
    ensures { OnOk result (string_bytes line.new ≡ string_bytes line.old ++ fields_text role payload.entry.schema
        (value_fields payload.entry.schema (payload_meaning payload.entry.schema payload.entry.bytes.now))) }
{
    let schema = payload.schema;
    for field in payload.fields() {
        push_field(line, role, schema, &field)?;
    }
    Ok(())
}

/// Appends a field of a message.
fn push_field(
    line: &mut String,
    role: Role,
    schema: u32,
    field: &Field<'_>,
) -> Result<(), AllocError>
    ensures { OnOk result (string_bytes line.new ≡ string_bytes line.old
        ++ field_text role schema (field_part field.now)) }
{
    match field.value {
        FieldValue::Message(message) if !field.is_repeated => push_nested(line, message),
        _ => push_scalar(line, role, schema, field),
    }
}

/// Appends the fields of a nested message, except those that are messages.
fn push_nested(line: &mut String, payload: CanonicalPayload<'_>) -> Result<(), AllocError>
    ensures { OnOk result (string_bytes line.new ≡ string_bytes line.old ++ nested_text payload.entry.schema
        (payload_meaning payload.entry.schema payload.entry.bytes.now)) }
{
    let schema = payload.schema;
    if schema == FAILURE {
        line.push_str(" failed")?;
    }
    for field in payload.fields() {
        push_scalar(line, Role::Other, schema, &field)?;
    }
    Ok(())
}

/// Appends a field that is not a message: a text, bytes or a number; nothing of an id, of a repeated field or of
/// another kind.
fn push_scalar(
    line: &mut String,
    role: Role,
    schema: u32,
    field: &Field<'_>,
) -> Result<(), AllocError>
    ensures { OnOk result (string_bytes line.new ≡ string_bytes line.old
        ++ scalar_text role schema (field_part field.now)) }
{
    if field.is_repeated {
        return Ok(());
    }
    match field.value {
        FieldValue::Text(text) => push_text(line, text),
        FieldValue::ByteString(bytes) => push_bytes(line, bytes),
        FieldValue::U32(number) => {
            if is_id(role, field.number) {
                return Ok(());
            }
            push_number(line, schema, field.number, u64::from(number))
        }
        FieldValue::U64(number) => push_number(line, schema, field.number, number),
        _ => Ok(()),
    }
}

/// Whether a field of a message has the id by which a command and its completion belong together.
fn is_id(role: Role, number: u32) -> bool
    ensures { result ≡ is_id role number }
{
    match role {
        Role::Command => number == 10 || number == 11,
        Role::Notification => number == 1,
        Role::Other => false,
    }
}

/// Appends a text, after a space.
fn push_text(line: &mut String, text: &str) -> Result<(), AllocError>
    ensures { OnOk result (string_bytes line.new ≡ string_bytes line.old ++ shown_text text.now) }
{
    line.push_str(" ")?;
    push_excerpt(line, text.as_bytes())
}

/// Appends bytes, after a space and in quotes.
pub fn push_bytes(line: &mut String, bytes: &[u8]) -> Result<(), AllocError>
    ensures { OnOk result (string_bytes line.new ≡ string_bytes line.old ++ shown_bytes bytes.now) }
{
    line.push_str(" \"")?;
    push_excerpt(line, bytes)?;
    line.push_str("\"")
}

/// Appends a number, after a space and the name of its field in a schema.
fn push_number(line: &mut String, schema: u32, field: u32, number: u64) -> Result<(), AllocError>
    ensures { OnOk result (string_bytes line.new ≡ string_bytes line.old ++ shown_number schema field number) }
{
    let name = name_of(schema, field);
    write!(line, " {name}={number}")
}
