//! The fields of messages by their paths.

ghost use Rattle.std.specs.Prelude.{◌≡◌, IfOk};
ghost use Rattle.shared_core_codec.specs.Payloads.{payload_meaning};
ghost use Rattle.shared_core_fields.specs.Views.{field_part};
ghost use Rattle.field_paths.specs.Paths.{found_at, found_view, within_by};

use crate::label::{Step, next_index, step_of};
use shared_core_fields::fields::{CanonicalPayload, Field, FieldValue};
use std::alloc::{AllocError, Global};

/// The levels of messages: all that a payload may have.
const LEVELS: u32 = 101;

/// What a path leads to.
#[derive(Clone, Copy)]
pub enum Lookup<'p, 'q> {
    /// A field.
    Field(Field<'p>),
    /// No field, in a message of this schema: none that it has is called as the rest of the path begins.
    Lacking(u32, &'q [u8]),
    /// A field that is not a message, though this is left of the path.
    NoMessage(&'q [u8]),
}

/// Finds the field of a canonical payload that a path leads to: names of fields, as JSON has them, with points between
/// them. The elements of a list are `name[0]`, `name[1]` and so on; a list of numbers is one field.
pub fn find_field<'p, 'q>(
    alloc: Global,
    payload: CanonicalPayload<'p>,
    path: &'q [u8],
) -> Result<Lookup<'p, 'q>, AllocError>
    ensures { IfOk result (λ found. found_view found ≡ found_at 101 payload.entry.schema
        (payload_meaning payload.entry.schema payload.entry.bytes.now) path.now) }
{
    find_in(alloc, payload, path, LEVELS)
}

/// `find_field`, over a number of levels.
#[cycle(finding)]
#[tactic(auto, using(crate::proofs::Finding::levels_less, crate::proofs::Finding::no_levels))]
fn find_in<'p, 'q>(
    alloc: Global,
    payload: CanonicalPayload<'p>,
    path: &'q [u8],
    levels: u32,
) -> Result<Lookup<'p, 'q>, AllocError>
    ensures { IfOk result (λ found. found_view found ≡ found_at levels payload.entry.schema
        (payload_meaning payload.entry.schema payload.entry.bytes.now) path.now) }
{
    let schema = payload.schema;
    if levels == 0 {
        return Ok(Lookup::Lacking(schema, path));
    }
    let mut before = 0;
    let mut index = 0;
    for field in payload.fields() {
        index = next_index(before, index, field.number);
        before = field.number;
        match step_of(alloc, schema, &field, index, path)? {
            Step::Past => {}
            Step::Here => return Ok(Lookup::Field(field)),
            Step::Within(rest) => return find_within(alloc, field, rest, levels - 1),
        }
    }
    Ok(Lookup::Lacking(schema, path))
}

/// What a path leads to within a field, over a number of levels.
#[cycle(finding)]
fn find_within<'p, 'q>(
    alloc: Global,
    field: Field<'p>,
    rest: &'q [u8],
    levels: u32,
) -> Result<Lookup<'p, 'q>, AllocError>
    ensures { IfOk result (λ found. found_view found
        ≡ within_by (found_at levels) (field_part field.entry) rest.now) }
{
    match field.value {
        FieldValue::Message(message) => find_in(alloc, message, rest, levels),
        _ => Ok(Lookup::NoMessage(rest)),
    }
}
