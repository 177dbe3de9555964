//! The rows of a message in a table of schemas.

ghost use Rattle.std.specs.Prelude.{◌≡◌, ◌∷◌, ◌++◌, [], IfErr, IfOk, None, map};
ghost use Rattle.shared_core_codec.specs.LoadedRows.{row_view, rows_view};
ghost use Rattle.shared_core_codec.specs.ProgramRows.{field_view};
ghost use Rattle.descriptor_set.specs.Tables.{field_rows, formed_in, members_of, row_at, rows_from, unknown_in};
ghost use Rattle.descriptor_set.specs.TableErrors.{IsUnknown, IsUnknownOf, place_at, place_view};
ghost use Rattle.descriptor_set.specs.TableErrors.{text_at};

use crate::error::{DescriptorError, Place};
use crate::field::{FieldDescriptor, Presence};
use crate::form::{Form, form_of};
use crate::set::{DescriptorSet, MessageDescriptor};
use shared_core_codec::loaded_rows::LoadedRow;
use shared_core_codec::rows::Field;
use std::alloc::{AllocError, Global};

/// A field that a table has.
#[derive(Clone, Copy)]
pub(crate) struct Formed {
    pub(crate) presence: Presence,
    pub(crate) field: Field,
}

/// The text of an index; empty if there is none.
fn text_at(texts: &[String], index: usize) -> &str
    ensures { result.now ≡ text_at texts.now index }
{
    match texts.get(index) {
        Some(text) => text.as_str(),
        None => "",
    }
}

/// The place of a message of a set, with the name of a field.
pub(crate) fn place_of(
    alloc: Global,
    set: &DescriptorSet,
    message: &MessageDescriptor,
    field: &str,
) -> Result<Place, AllocError>
    ensures { IfOk result (λ place. place_view place ≡ place_at set.now message.now field.now) }
{
    let file = String::from_str(alloc, text_at(set.files.as_slice(), message.file))?;
    let name = String::from_str(alloc, message.name.as_str())?;
    let field = String::from_str(alloc, field)?;
    Ok(Place {
        file,
        message: name,
        field,
    })
}

/// The error of a field that is a message which the set does not have.
fn unknown_message(
    alloc: Global,
    set: &DescriptorSet,
    message: &MessageDescriptor,
    field: &FieldDescriptor,
) -> Result<DescriptorError, AllocError>
    ensures { IfOk result (IsUnknown set.now message.now field.now) }
{
    let place = place_of(alloc, set, message, field.name.as_str())?;
    let wanted = String::from_str(alloc, field.type_name.as_str())?;
    Ok(DescriptorError::UnknownMessage(place, wanted))
}

/// The fields of a message that the table has, in their order.
fn formed_of(
    alloc: Global,
    set: &DescriptorSet,
    message: &MessageDescriptor,
) -> Result<Vec<Formed>, DescriptorError>
    ensures formed { IfOk result (λ formed. formed.items ≡ formed_in set.now message.now.fields.items) }
    ensures known { IfOk result (λ _. unknown_in set.now message.now.fields.items ≡ None) }
    ensures unknown { IfErr result (IsUnknownOf set.now message.now
        (unknown_in set.now message.now.fields.items)) }
{
    let mut formed = Vec::with_capacity(alloc, message.fields.len())?;
    let mut rest = message.fields.as_slice();
    while let Some((field, after)) = rest.split_first() {
        match form_of(set, field) {
            Form::Kind(kind) => formed.push(Formed {
                presence: field.presence,
                field: Field {
                    number: field.number,
                    kind,
                },
            })?,
            Form::None(_) => {}
            Form::Unknown => {
                let error = unknown_message(alloc, set, message, field)?;
                return Err(error);
            }
        }
        rest = after;
    }
    Ok(formed)
}

/// The members of a oneof: the first one, and those among the fields that follow.
fn members_of(
    alloc: Global,
    oneof: u32,
    first: Field,
    rest: &[Formed],
) -> Result<Vec<Field>, AllocError>
    ensures { IfOk result (λ members. map field_view members.items ≡ field_view first ∷ members_of oneof rest.now) }
{
    let mut members = Vec::new(alloc);
    members.push(first)?;
    append_members(&mut members, oneof, rest)?;
    Ok(members)
}

/// Appends the members of a oneof among some fields.
fn append_members(members: &mut Vec<Field>, oneof: u32, fields: &[Formed]) -> Result<(), AllocError>
    ensures { IfOk result (λ _. map field_view members.new.items
        ≡ map field_view members.old.items ++ members_of oneof fields.now) }
{
    let mut rest = fields;
    while let Some((formed, after)) = rest.split_first() {
        if formed.presence.is_member_of(oneof) {
            members.push(formed.field)?;
        }
        rest = after;
    }
    Ok(())
}

/// The row of a field that is followed by others: the one of its oneof, if it is in one.
fn row_at(alloc: Global, first: &Formed, rest: &[Formed]) -> Result<LoadedRow, AllocError>
    ensures { IfOk result (λ row. row_view row ≡ row_at first.now.presence (field_view first.now.field) rest.now) }
{
    let field = first.field;
    match first.presence {
        Presence::Plain => Ok(LoadedRow::Plain(field)),
        Presence::Optional => Ok(LoadedRow::Optional(field)),
        Presence::Repeated => Ok(LoadedRow::Repeated(field)),
        Presence::Member(oneof) => {
            let members = members_of(alloc, oneof, field, rest)?;
            Ok(LoadedRow::OneOf(members))
        }
    }
}

/// The rows of some fields: a oneof is one at its first member.
fn rows_of(alloc: Global, fields: &[Formed]) -> Result<Vec<LoadedRow>, AllocError>
    ensures { IfOk result (λ rows. rows_view rows.items ≡ rows_from [] fields.now) }
{
    let mut rows = Vec::new(alloc);
    let mut seen = Vec::new(alloc);
    let mut rest = fields;
    while let Some((first, after)) = rest.split_first() {
        if !first.presence.is_among(seen.as_slice()) {
            let row = row_at(alloc, first, after)?;
            rows.push(row)?;
            first.presence.append_oneof(&mut seen)?;
        }
        rest = after;
    }
    Ok(rows)
}

/// The rows of a message, in the order of its fields. A field for which the engine has no form is passed over.
pub(crate) fn message_rows(
    alloc: Global,
    set: &DescriptorSet,
    message: &MessageDescriptor,
) -> Result<Vec<LoadedRow>, DescriptorError>
    ensures rows { IfOk result (λ rows. rows_view rows.items ≡ field_rows set.now message.now) }
    ensures known { IfOk result (λ _. unknown_in set.now message.now.fields.items ≡ None) }
    ensures unknown { IfErr result (IsUnknownOf set.now message.now
        (unknown_in set.now message.now.fields.items)) }
{
    let formed = formed_of(alloc, set, message)?;
    let rows = rows_of(alloc, formed.as_slice())?;
    Ok(rows)
}
