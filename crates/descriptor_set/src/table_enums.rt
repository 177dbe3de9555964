//! The table of a set by which JSON is read, with the values of its enums.

ghost use Rattle.std.specs.Prelude.{◌≡◌, IfOk};
ghost use Rattle.std.specs.String.{string_bytes};
ghost use Rattle.shared_core_json_reader.specs.Loaded.{loaded_format};
ghost use Rattle.shared_core_json_reader.specs.LoadedEnums.{all_fields_view, all_values_view, fields_view, values_view};
ghost use Rattle.descriptor_set.specs.Tables.{schemas_of};
ghost use Rattle.descriptor_set.specs.TableNames.{set_names};
ghost use Rattle.descriptor_set.specs.TableEnums.{all_enum_fields, all_values, enum_fields, enum_index, IsShared};
ghost use Rattle.descriptor_set.specs.TableEnums.{ReturnsReadable, set_values, values_of};

use crate::error::DescriptorError;
use crate::field::{FieldDescriptor, FieldKind};
use crate::names::find;
use crate::set::{DescriptorSet, EnumDescriptor};
use crate::table::{all_rows_of, invalid_field, table_of};
use crate::table_names::names_of;
use crate::table_rows::place_of;
use shared_core_codec::loaded_table::LoadedSchemas;
use shared_core_json_reader::readable::ReadableSchemas;
use shared_core_json_reader::{
    LoadedEnumField, LoadedEnums, LoadedValue, ReadableError, ReadableTable, readable_table,
};
use std::alloc::{AllocError, Global};

/// The index of the enum of a field.
fn enum_index(set: &DescriptorSet, field: &FieldDescriptor) -> Option<usize>
    ensures { result ≡ enum_index set.now field.now.kind (string_bytes field.now.type_name) }
{
    match field.kind {
        FieldKind::Enumeration => find(set.enums.as_slice(), field.type_name.as_str()),
        _ => None,
    }
}

/// The fields that have an enum of the set, of some fields.
fn enum_fields(
    alloc: Global,
    set: &DescriptorSet,
    fields: &[FieldDescriptor],
) -> Result<Vec<LoadedEnumField>, AllocError>
    ensures { IfOk result (λ found. fields_view found.items ≡ enum_fields set.now fields.now) }
{
    let mut found = Vec::new(alloc);
    let mut rest = fields;
    while let Some((field, after)) = rest.split_first() {
        if let Some(index) = enum_index(set, field) {
            found.push(LoadedEnumField {
                number: field.number,
                index,
            })?;
        }
        rest = after;
    }
    Ok(found)
}

/// Those of each message of a set.
fn all_enum_fields(
    alloc: Global,
    set: &DescriptorSet,
) -> Result<Vec<Vec<LoadedEnumField>>, AllocError>
    ensures { IfOk result (λ fields. all_fields_view fields.items ≡ all_enum_fields set.now) }
{
    let mut fields = Vec::new(alloc);
    let mut rest = set.messages.as_slice();
    while let Some((message, after)) = rest.split_first() {
        let own = enum_fields(alloc, set, message.fields.as_slice())?;
        fields.push(own)?;
        rest = after;
    }
    Ok(fields)
}

/// The values of an enum.
fn values_of(alloc: Global, descriptor: &EnumDescriptor) -> Result<Vec<LoadedValue>, AllocError>
    ensures { IfOk result (λ values. values_view values.items ≡ values_of descriptor.now) }
{
    let mut values = Vec::new(alloc);
    let mut rest = descriptor.values.as_slice();
    while let Some((value, after)) = rest.split_first() {
        let name = String::from_str(alloc, value.name.as_str())?;
        values.push(LoadedValue {
            name,
            number: value.number.cast_unsigned(),
        })?;
        rest = after;
    }
    Ok(values)
}

/// The values of each enum of a set.
fn all_values(alloc: Global, set: &DescriptorSet) -> Result<Vec<Vec<LoadedValue>>, AllocError>
    ensures { IfOk result (λ values. all_values_view values.items ≡ all_values set.now) }
{
    let mut values = Vec::new(alloc);
    let mut rest = set.enums.as_slice();
    while let Some((descriptor, after)) = rest.split_first() {
        let own = values_of(alloc, descriptor)?;
        values.push(own)?;
        rest = after;
    }
    Ok(values)
}

/// The values of each enum of a set, and the fields of each message that have an enum of the set.
fn enums_of(alloc: Global, set: &DescriptorSet) -> Result<LoadedEnums, AllocError>
    ensures fields { IfOk result (λ enums. all_fields_view enums.fields.items ≡ all_enum_fields set.now) }
    ensures values { IfOk result (λ enums. all_values_view enums.values.items ≡ all_values set.now) }
{
    let fields = all_enum_fields(alloc, set)?;
    let values = all_values(alloc, set)?;
    Ok(LoadedEnums { fields, values })
}

/// The error of a message, by its index, in which two fields have one name in JSON.
fn shared_name(
    alloc: Global,
    set: &DescriptorSet,
    schema: usize,
) -> Result<DescriptorError, AllocError>
    ensures { IfOk result (IsShared set.now schema) }
{
    match set.messages.get(schema) {
        Some(message) => {
            let place = place_of(alloc, set, message, "")?;
            Ok(DescriptorError::SharedName(place))
        }
        None => Ok(DescriptorError::OutOfMemory),
    }
}

/// `table_of`, with the names by which JSON is read: of its fields, and of the values of its enums. Another error:
/// `SharedName`, of the first message in which two fields have one name in JSON.
pub fn readable_table_of(
    alloc: Global,
    set: &DescriptorSet,
) -> Result<ReadableTable<LoadedSchemas>, DescriptorError>
    ensures format { IfOk result (λ table. ⟦<ReadableTable<LoadedSchemas> as ReadableSchemas>⟧.format table
        ≡ loaded_format (schemas_of set.now) (set_names set.now) (set_values set.now)) }
    ensures error { ReturnsReadable set.now result }
{
    let enums = enums_of(alloc, set)?;
    let rows = all_rows_of(alloc, set)?;
    let names = names_of(alloc, set)?;
    match readable_table(alloc, rows, names, enums) {
        Ok(readable) => Ok(readable),
        Err(ReadableError::Field(error)) => {
            let error = invalid_field(alloc, set, &error)?;
            Err(error)
        }
        Err(ReadableError::Names(schema)) => {
            // a number that two fields share says more
            table_of(alloc, set)?;
            let error = shared_name(alloc, set, schema)?;
            Err(error)
        }
        Err(ReadableError::OutOfMemory) => Err(DescriptorError::OutOfMemory),
    }
}
