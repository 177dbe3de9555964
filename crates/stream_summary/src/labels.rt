//! The fields of a message with their names, as a description has them.

ghost use Rattle.std.specs.Prelude.{◌≡◌, ◌++◌, OnOk};
ghost use Rattle.std.specs.String.{string_bytes};
ghost use Rattle.shared_core_codec.specs.Payloads.{payload_meaning};
ghost use Rattle.shared_core_fields.specs.Runs.{held_numbers};
ghost use Rattle.shared_core_fields.specs.Views.{field_part};
ghost use Rattle.shared_core_wire.specs.Value.{Number};
ghost use Rattle.shared_core_codec.specs.FieldParts.{parts_of};
ghost use Rattle.shared_core_codec.specs.ProgramRows.{kind_view};
ghost use Rattle.show_lines.specs.Contents.{held_view};
ghost use Rattle.stream_summary.specs.Labels.{held_labels, label, labels, named, number_label, numbers_labels};
ghost use Rattle.stream_summary.specs.Labels.{scalar_label};

use shared_core_fields::fields::{CanonicalPayload, Field, FieldValue};
use shared_core_fields::runs::Run;
use shared_core_json::names::name_of;
use show_lines::excerpt::push_excerpt;
use show_lines::held::Held;
use std::alloc::AllocError;

/// The levels of messages whose fields are written: all that a payload may have.
const LEVELS: u32 = 101;

/// The number of the schema of futures.
const FUTURE: u32 = 7;

/// Appends the fields of what an item holds.
pub fn push_labels(line: &mut String, held: Held<'_>) -> Result<(), AllocError>
    ensures { OnOk result (string_bytes line.new ≡ string_bytes line.old ++ held_labels (held_view held.entry)) }
{
    match held {
        Held::Opaque(_) => Ok(()),
        Held::Malformed(_) => line.push_str(" malformed"),
        Held::Fields(payload) => push_fields(line, payload, LEVELS),
    }
}

/// Appends the fields of a message, and of those that are nested in it, over a number of levels.
#[cycle(labels)]
#[tactic(auto, using(crate::proofs::Levels::levels_less, crate::proofs::Levels::no_levels))]
fn push_fields(
    line: &mut String,
    payload: CanonicalPayload<'_>,
    levels: u32,
) -> Result<(), AllocError>
    ensures { OnOk result (string_bytes line.new ≡ string_bytes line.old ++ labels levels payload.entry.schema
        (payload_meaning payload.entry.schema payload.entry.bytes.now)) }
{
    if levels == 0 {
        return Ok(());
    }
    let schema = payload.schema;
    for field in payload.fields() {
        push_field(line, schema, &field, levels - 1)?;
    }
    Ok(())
}

/// Appends a field of a schema; of a message its fields, over a number of levels. Repeated messages are left out,
/// unless they are futures.
#[cycle(labels)]
fn push_field(
    line: &mut String,
    schema: u32,
    field: &Field<'_>,
    levels: u32,
) -> Result<(), AllocError>
    ensures { OnOk result (string_bytes line.new ≡ string_bytes line.old
        ++ label levels schema (field_part field.now)) }
{
    match field.value {
        FieldValue::Message(message) => {
            if field.is_repeated && message.schema != FUTURE {
                return Ok(());
            }
            push_fields(line, message, levels)
        }
        _ => push_scalar(line, name_of(schema, field.number), field),
    }
}

/// Appends a field of this name that is not a message: a text, bytes, numbers or a flag.
fn push_scalar(line: &mut String, name: &str, field: &Field<'_>) -> Result<(), AllocError>
    ensures { OnOk result (string_bytes line.new ≡ string_bytes line.old
        ++ scalar_label name.now (field_part field.now)) }
{
    match field.value {
        FieldValue::Text(text) => {
            push_named(line, name)?;
            push_excerpt(line, text.as_bytes())
        }
        FieldValue::ByteString(bytes) => {
            push_named(line, name)?;
            line.push_str("\"")?;
            push_excerpt(line, bytes)?;
            line.push_str("\"")
        }
        FieldValue::U32(number) => push_number(line, name, u64::from(number)),
        FieldValue::U64(number) => push_number(line, name, number),
        FieldValue::Numbers(run) => push_numbers(line, name, run),
        _ => Ok(()),
    }
}

/// Appends a name and the sign after it.
fn push_named(line: &mut String, name: &str) -> Result<(), AllocError>
    ensures { OnOk result (string_bytes line.new ≡ string_bytes line.old ++ named name.now) }
{
    write!(line, " {name}=")
}

/// Appends a number after its name.
fn push_number(line: &mut String, name: &str, number: u64) -> Result<(), AllocError>
    ensures { OnOk result (string_bytes line.new ≡ string_bytes line.old ++ number_label name.now number) }
{
    write!(line, " {name}={number}")
}

/// Appends the numbers of a run, each after their name.
fn push_numbers(line: &mut String, name: &str, run: Run<'_>) -> Result<(), AllocError>
    ensures { OnOk result (string_bytes line.new ≡ string_bytes line.old
        ++ numbers_labels name.now
        (parts_of Number (held_numbers (kind_view run.entry.kind) run.entry.bytes.now))) }
{
    for number in run.numbers() {
        push_number(line, name, number)?;
    }
    Ok(())
}
