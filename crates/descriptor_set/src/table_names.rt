//! The table of a set, with the names of its fields in JSON.

ghost use Rattle.std.specs.Prelude.{◌≡◌, IfOk, map};
ghost use Rattle.shared_core_wire.specs.Schema.{table_of};
ghost use Rattle.shared_core_json.specs.LoadedNames.{all_digits_view, all_names_view, digits_view, names_view};
ghost use Rattle.descriptor_set.specs.Tables.{schemas_of};
ghost use Rattle.descriptor_set.specs.TableNames.{all_digits, all_names, digits_by, names_in, ReturnsNamed, set_names};

use crate::error::DescriptorError;
use crate::field::FieldDescriptor;
use crate::form::{Form, digits_of, form_of};
use crate::set::DescriptorSet;
use crate::table::{invalid_field, table_of};
use shared_core_codec::any_table::Schemas;
use shared_core_codec::loaded_table::LoadedSchemas;
use shared_core_codec::table_error::{TableError, TableFault};
use shared_core_json::loaded_names::LoadedName;
use shared_core_json::named_schemas::NamedSchemas;
use shared_core_json::named_table::NamedTable;
use std::alloc::{AllocError, Global};

/// The names in JSON of the fields that a table has rows for, of some fields.
fn names_in(
    alloc: Global,
    set: &DescriptorSet,
    fields: &[FieldDescriptor],
) -> Result<Vec<LoadedName>, AllocError>
    ensures names { IfOk result (λ names. names_view names.items ≡ names_in set.now fields.now) }
    ensures digits { IfOk result (λ names. map digits_view names.items ≡ digits_by set.now fields.now) }
{
    let mut names = Vec::new(alloc);
    let mut rest = fields;
    while let Some((field, after)) = rest.split_first() {
        if let Form::Kind(_) = form_of(set, field) {
            let name = String::from_str(alloc, field.json_name.as_str())?;
            names.push(LoadedName {
                number: field.number,
                name,
                digits: digits_of(field.kind),
            })?;
        }
        rest = after;
    }
    Ok(names)
}

/// Those of each message of a set.
pub(crate) fn names_of(
    alloc: Global,
    set: &DescriptorSet,
) -> Result<Vec<Vec<LoadedName>>, AllocError>
    ensures names { IfOk result (λ names. all_names_view names.items ≡ all_names set.now) }
    ensures digits { IfOk result (λ names. all_digits_view names.items ≡ all_digits set.now) }
{
    let mut names = Vec::new(alloc);
    let mut rest = set.messages.as_slice();
    while let Some((message, after)) = rest.split_first() {
        let own = names_in(alloc, set, message.fields.as_slice())?;
        names.push(own)?;
        rest = after;
    }
    Ok(names)
}

/// `table_of`, with the names that its fields have in JSON. Another error: `InvalidField` of the first field whose
/// number is not greater than the one before it in its message.
pub fn named_table_of(
    alloc: Global,
    set: &DescriptorSet,
) -> Result<NamedTable<LoadedSchemas>, DescriptorError>
    ensures table { IfOk result (λ named. ⟦<NamedTable<LoadedSchemas> as Schemas>⟧.table named
        ≡ table_of (schemas_of set.now)) }
    ensures names { IfOk result (λ named. ⟦<NamedTable<LoadedSchemas> as NamedSchemas>⟧.names named
        ≡ set_names set.now) }
    ensures error { ReturnsNamed set.now result }
{
    let table = table_of(alloc, set)?;
    let names = names_of(alloc, set)?;
    match NamedTable::new(table, names) {
        Ok(named) => Ok(named),
        Err(error) => {
            let error = TableError {
                schema: error.schema,
                number: error.number,
                fault: TableFault::NumberTwice,
            };
            let error = invalid_field(alloc, set, &error)?;
            Err(error)
        }
    }
}
