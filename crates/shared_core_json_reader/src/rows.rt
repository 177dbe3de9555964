//! What JSON adds to the rows of schemas, which are those of `shared_core_codec`: the names of the values of enums.

ghost use Rattle.std.specs.Prelude.{◌≡◌, map};
ghost use Rattle.shared_core_json_reader.specs.EnumValues.{enum_fields};
ghost use Rattle.shared_core_json_reader.specs.Rows.{value_view, enum_field_view, enum_values};
ghost use Rattle.shared_core_json_reader.specs.Rows.{named_row, named_rows};

use crate::enum_values::ENUM_FIELDS;
use crate::readable::ReadableSchemas;

/// The name of a value of an enum, and its number.
#[derive(Clone, Copy)]
pub struct EnumValue(pub &'static str, pub u32);

/// A field with an enum: its schema and its number, and the values of the enum.
#[derive(Clone, Copy)]
pub struct EnumField {
    pub schema: u32,
    pub number: u32,
    pub values: &'static [EnumValue],
}

/// The fields with an enum.
fn enum_fields() -> &'static [EnumField]
    ensures { map enum_field_view result.now ≡ enum_fields }
{
    &ENUM_FIELDS
}

/// The values of the enum of a field; none if it has no enum.
pub fn values_of(schema: u32, number: u32) -> &'static [EnumValue]
    ensures { map value_view result.now ≡ enum_values schema number }
{
    for field in enum_fields() {
        if field.schema == schema && field.number == number {
            return field.values;
        }
    }
    &[]
}

/// The rows of the schema at an index of a table; past its end there are none.
pub fn rows_of<T: ReadableSchemas>(schemas: &T, schema: u32) -> &[T::Row]
    ensures named { map (named_row (T.format schemas.now) schema) (map T.Row.view result.now)
        ≡ named_rows (T.format schemas.now) schema }
    ensures rows { map T.Row.view result.now ≡ (T.format schemas.now).table schema }
{
    schemas.rows_of(schema)
}
