//! Whether a path leads to a field, by what it calls the field.

ghost use Rattle.std.specs.Prelude.{◌≡◌, ◌++◌, IfOk, OnOk};
ghost use Rattle.std.specs.String.{string_bytes};
ghost use Rattle.shared_core_fields.specs.Views.{field_part};
ghost use Rattle.field_paths.specs.Paths.{is_element, label_of, next_index, step_after, step_at, step_view};

use shared_core_fields::fields::{Field, FieldValue};
use shared_core_json::names::name_of;
use std::alloc::{AllocError, Global};

/// Whether a path leads past a field, to it, or on within it.
#[derive(Clone, Copy)]
pub enum Step<'q> {
    Past,
    Here,
    /// With this path.
    Within(&'q [u8]),
}

/// The step of a path at a field of a schema that has this index in its list, if it is an element of one.
pub fn step_of<'q>(
    alloc: Global,
    schema: u32,
    field: &Field<'_>,
    index: u64,
    path: &'q [u8],
) -> Result<Step<'q>, AllocError>
    ensures { IfOk result (λ step. step_view step
        ≡ step_at (label_of schema (field_part field.now) index) path.now) }
{
    let mut label = String::new(alloc);
    push_label(&mut label, schema, field, index)?;
    Ok(step_at(label.as_bytes(), path))
}

/// Appends what a path calls a field.
fn push_label(
    label: &mut String,
    schema: u32,
    field: &Field<'_>,
    index: u64,
) -> Result<(), AllocError>
    ensures { OnOk result (string_bytes label.new
        ≡ string_bytes label.old ++ label_of schema (field_part field.now) index) }
{
    label.push_str(name_of(schema, field.number))?;
    if is_element(field) {
        write!(label, "[{index}]")?;
    }
    Ok(())
}

/// Whether a field is one element of a list.
fn is_element(field: &Field<'_>) -> bool
    ensures { result ≡ is_element (field_part field.now).1 }
{
    match field.value {
        FieldValue::Text(_) | FieldValue::ByteString(_) | FieldValue::Message(_) => {
            field.is_repeated
        }
        _ => false,
    }
}

/// The step of a path at a field that it calls by this label.
fn step_at<'q>(label: &[u8], path: &'q [u8]) -> Step<'q>
    ensures { step_view result ≡ step_at label.now path.now }
{
    if !path.starts_with(label) {
        return Step::Past;
    }
    step_after(&path[label.len()..])
}

/// What follows a label in a path.
fn step_after<'q>(rest: &'q [u8]) -> Step<'q>
    ensures { step_view result ≡ step_after rest.now }
{
    if rest.is_empty() {
        return Step::Here;
    }
    if rest[0] == b'.' {
        Step::Within(&rest[1..])
    } else {
        Step::Past
    }
}

/// The index of a field in its list, by the number and the index of the field before it.
pub fn next_index(before: u32, index: u64, number: u32) -> u64
    ensures { result ≡ next_index before index number }
{
    if number == before {
        index.saturating_add(1)
    } else {
        0
    }
}
