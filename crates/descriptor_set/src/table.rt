//! The table of schemas of a set's messages.

ghost use Rattle.std.specs.Prelude.{◌≡◌, ◌++◌, IfErr, IfOk, None};
ghost use Rattle.std.specs.Option.{option_copied};
ghost use Rattle.shared_core_wire.specs.Schema.{table_of};
ghost use Rattle.shared_core_codec.specs.LoadedRows.{schemas_view};
ghost use Rattle.descriptor_set.specs.Tables.{field_rows, passed_from, passed_in, schemas_of};
ghost use Rattle.descriptor_set.specs.TableErrors.{IsInvalid, IsUnknownAmong, last_numbered, name_or_empty};
ghost use Rattle.descriptor_set.specs.TableErrors.{ReturnsTable, unknown_from, unknown_of};

use crate::error::DescriptorError;
use crate::field::FieldDescriptor;
use crate::form::{Form, NoForm, form_of};
use crate::set::DescriptorSet;
use crate::table_rows::{message_rows, place_of};
use shared_core_codec::any_table::Schemas;
use shared_core_codec::loaded_rows::LoadedRow;
use shared_core_codec::loaded_table::LoadedSchemas;
use shared_core_codec::table_error::TableError;
use std::alloc::{AllocError, Global};

/// A field that is passed over as an unknown number is.
#[derive(Clone, Copy, Debug, PartialEq, Eq)]
pub struct PassedOver {
    /// The index of its message.
    pub message: usize,
    /// Its index among the message's fields.
    pub field: usize,
    pub why: NoForm,
}

/// The last field of a number.
fn last_numbered(fields: &[FieldDescriptor], number: u32) -> Option<&FieldDescriptor>
    ensures { option_copied result ≡ last_numbered None number fields.now }
{
    let mut found = None;
    let mut rest = fields;
    while let Some((field, after)) = rest.split_first() {
        if field.number == number {
            found = Some(field);
        }
        rest = after;
    }
    found
}

/// The name of the last field of a number; empty if there is none.
fn numbered_name(fields: &[FieldDescriptor], number: u32) -> &str
    ensures { result.now ≡ name_or_empty (last_numbered None number fields.now) }
{
    match last_numbered(fields, number) {
        Some(field) => field.name.as_str(),
        None => "",
    }
}

/// What an error of a table says, with names.
pub(crate) fn invalid_field(
    alloc: Global,
    set: &DescriptorSet,
    error: &TableError,
) -> Result<DescriptorError, AllocError>
    ensures { IfOk result (IsInvalid set.now error.now) }
{
    let Some(message) = set.messages.get(error.schema) else {
        return Ok(DescriptorError::OutOfMemory);
    };
    let name = numbered_name(message.fields.as_slice(), error.number);
    let place = place_of(alloc, set, message, name)?;
    Ok(DescriptorError::InvalidField(place, error.fault))
}

/// The rows of each message of a set.
pub(crate) fn all_rows_of(
    alloc: Global,
    set: &DescriptorSet,
) -> Result<Vec<Vec<LoadedRow>>, DescriptorError>
    ensures rows { IfOk result (λ schemas. schemas_view schemas.items ≡ schemas_of set.now) }
    ensures known { IfOk result (λ _. unknown_of set.now ≡ None) }
    ensures unknown { IfErr result (IsUnknownAmong set.now (unknown_of set.now)) }
{
    let mut schemas = Vec::new(alloc);
    let mut rest = set.messages.as_slice();
    while let Some((message, after)) = rest.split_first() {
        let rows = message_rows(alloc, set, message)?;
        schemas.push(rows)?;
        rest = after;
    }
    Ok(schemas)
}

/// The table of the messages of a set, whose index of a schema is the index of its message. A field for which the
/// engine has no form is passed over. Errors: `UnknownMessage`, of the first field of a message that the set does not
/// have; `InvalidField`, of the first one that no table may have; `OutOfMemory`.
pub fn table_of(alloc: Global, set: &DescriptorSet) -> Result<LoadedSchemas, DescriptorError>
    ensures table { IfOk result (λ loaded. ⟦<LoadedSchemas as Schemas>⟧.table loaded
        ≡ table_of (schemas_of set.now)) }
    ensures error { ReturnsTable set.now result }
{
    let rows = all_rows_of(alloc, set)?;
    match LoadedSchemas::new(rows) {
        Ok(loaded) => Ok(loaded.indexed(alloc)?),
        Err(error) => {
            let error = invalid_field(alloc, set, &error)?;
            Err(error)
        }
    }
}

/// Appends the fields of the message of an index that its table has no row for.
fn append_passed(
    found: &mut Vec<PassedOver>,
    set: &DescriptorSet,
    message: usize,
    fields: &[FieldDescriptor],
) -> Result<(), AllocError>
    ensures { IfOk result (λ _. found.new.items ≡ found.old.items ++ passed_in set.now message 0 fields.now) }
{
    let mut rest = fields;
    let mut index: usize = 0;
    while let Some((field, after)) = rest.split_first() {
        if let Form::None(why) = form_of(set, field) {
            found.push(PassedOver {
                message,
                field: index,
                why,
            })?;
        }
        rest = after;
        index += 1;
    }
    Ok(())
}

/// The fields that the table of a set has no row for, in the order of messages and fields.
pub fn passed_over(alloc: Global, set: &DescriptorSet) -> Result<Vec<PassedOver>, AllocError>
    ensures { IfOk result (λ found. found.items ≡ passed_from set.now 0 set.now.messages.items) }
{
    let mut found = Vec::new(alloc);
    let mut rest = set.messages.as_slice();
    let mut index: usize = 0;
    while let Some((message, after)) = rest.split_first() {
        append_passed(&mut found, set, index, message.fields.as_slice())?;
        rest = after;
        index += 1;
    }
    Ok(found)
}
