//! A table of schemas by which JSON is read, made at run time.

ghost use Rattle.std.specs.Prelude.{◌≡◌, ℕ, IfOk, map, true};
ghost use Rattle.shared_core_codec.specs.LoadedRows.{schemas_view};
ghost use Rattle.shared_core_json.specs.Fields.{names_at};
ghost use Rattle.shared_core_json.specs.LoadedNames.{all_digits_view, all_names_view, digits_in, digits_view};
ghost use Rattle.shared_core_json.specs.LoadedNames.{loaded_names, names_view};
ghost use Rattle.shared_core_json_reader.specs.Loaded.{loaded_format, ReturnsTable};
ghost use Rattle.shared_core_json_reader.specs.LoadedEnums.{enum_values};
ghost use Rattle.shared_core_json_reader.specs.Places.{as_it_is, number_by};
ghost use Rattle.shared_core_json_reader.specs.Readable.{AreNamed, are_low};
ghost use Rattle.shared_core_json_reader.specs.Reading.{original_name};

use crate::loaded_enums::{LoadedEnums, value_named};
use crate::members::is_original;
use crate::name_checks::{first_unreadable, name_in};
use crate::readable::ReadableSchemas;
use crate::readable_error::ReadableError;
use shared_core_codec::any_table::Schemas;
use shared_core_codec::loaded_rows::LoadedRow;
use shared_core_codec::loaded_table::LoadedSchemas;
use shared_core_json::digits::Digits;
use shared_core_json::loaded_names::LoadedName;
use shared_core_json::names::Name;
use std::alloc::Global;

/// A table of schemas by which JSON is read, made at run time.
#[derive(Drop)]
pub struct ReadableTable<T: Schemas> {
    schemas: T,
    names: Vec<Vec<LoadedName>>,
    enums: LoadedEnums,
    ghost named: { AreNamed (T.table schemas) (loaded_names names.items) },
    ghost low: { (s n : ℕ) → are_low (enum_values enums s n) ≡ true },
}

impl<T: Schemas> ReadableTable<T> {
    /// The names of the fields of a schema; past the last one there are none.
    fn names_of(&self, schema: u32) -> &[LoadedName]
        ensures names { names_view result.now ≡ names_at (all_names_view self.now.names.items) schema }
        ensures digits { map digits_view result.now ≡ names_at (all_digits_view self.now.names.items) schema }
    {
        let place = schema as usize;
        if place < self.names.len() {
            self.names[place].as_slice()
        } else {
            &[]
        }
    }
}

impl<T: Schemas> ReadableSchemas for ReadableTable<T> {
    type Row = T::Row;

    ghost format = { λ t. record {
      table = T.table t.schemas;
      names = loaded_names t.names.items;
      values = enum_values t.enums;
    } };

    #[inline(always)]
    fn rows_of(&self, schema: u32) -> &[T::Row] {
        self.schemas.rows_of(schema)
    }

    fn name_of(&self, schema: u32, number: u32) -> &str {
        name_in(self.names_of(schema), number)
    }

    fn digits_of(&self, schema: u32, number: u32) -> Digits {
        digits_in(self.names_of(schema), number)
    }

    #[tactic(auto, unfolding(crate::specs::Places::number_of))]
    fn number_of(&self, schema: u32, key: &str) -> Option<u32> {
        let names = self.names_of(schema);
        match number_named(names, key) {
            Some(number) => Some(number),
            None => number_of_original(names, key),
        }
    }

    fn likely_names(&self, _schema: u32) -> &'static [Name] {
        &[]
    }

    fn value_named(&self, schema: u32, number: u32, name: &str) -> Option<u32> {
        value_named(self.enums.values_of(schema, number), name)
    }

    ghost readable = { λ t. record { names = t.named; rows = T.valid t.schemas; low = t.low } };
}

/// How the numbers of the field are written of the first of some names that has a number; without a sign, if none has.
fn digits_in(names: &[LoadedName], number: u32) -> Digits
    ensures { result ≡ digits_in (map digits_view names.now) number }
{
    for name in names {
        if name.number == number {
            return name.digits;
        }
    }
    Digits::Unsigned
}

/// The number of the first of some names that is a key.
fn number_named(names: &[LoadedName], key: &str) -> Option<u32>
    ensures { result ≡ number_by as_it_is (names_view names.now) key.now }
{
    for name in names {
        if key == name.name.as_str() {
            return Some(name.number);
        }
    }
    None
}

/// The number of the first of some names whose original name is a key.
fn number_of_original(names: &[LoadedName], key: &str) -> Option<u32>
    ensures { result ≡ number_by original_name (names_view names.now) key.now }
{
    for name in names {
        if is_original(key.as_bytes(), name.name.as_bytes()) {
            return Some(name.number);
        }
    }
    None
}

/// The table of these schemas, by their index, with these names: those of each schema, in any order; and with these
/// enums. The rules on schemas are those of `LoadedSchemas::new`. Besides, the names of a schema are those of its
/// fields, and no key is a name of two fields of one schema: neither a name in lower camel case nor an original one.
/// Nothing is asked of enums: if two values of one have a name, it is that of the first. Compares each name of a schema
/// with all others, and allocates the original name of each.
pub fn readable_table(
    alloc: Global,
    schemas: Vec<Vec<LoadedRow>>,
    names: Vec<Vec<LoadedName>>,
    enums: LoadedEnums,
) -> Result<ReadableTable<LoadedSchemas>, ReadableError>
    ensures format { IfOk result (λ table. ⟦<ReadableTable<LoadedSchemas> as ReadableSchemas>⟧.format table
        ≡ loaded_format (schemas_view schemas.items) (loaded_names names.items) (enum_values enums)) }
    ensures error { ReturnsTable (schemas_view schemas.items) (all_names_view names.items) result }
{
    let found = match first_unreadable(alloc, names.as_slice(), schemas.as_slice()) {
        Ok(found) => found,
        Err(_) => return Err(ReadableError::OutOfMemory),
    };
    if let Some(schema) = found {
        return Err(ReadableError::Names(schema));
    }
    match LoadedSchemas::new(schemas) {
        Ok(schemas) => Ok(ReadableTable {
            schemas,
            names,
            enums,
        }),
        Err(error) => Err(ReadableError::Field(error)),
    }
}
