//! A table of schemas, with names that are made at run time.

ghost use Rattle.std.specs.Prelude.{◌≡◌, ℕ, Some, None, IfOk, MatchResult, option_map};
ghost use Rattle.shared_core_json.specs.Fields.{name_in, names_at};
ghost use Rattle.shared_core_json.specs.LoadedNames.{all_digits_view, all_names_view, name_error, unsorted_after};
ghost use Rattle.shared_core_json.specs.LoadedNames.{digits_found, digits_in, loaded_names, name_found};

use crate::digits::Digits;
use crate::loaded_names::{LoadedName, find_name, first_error};
use crate::name_error::NameError;
use crate::named_schemas::NamedSchemas;
use shared_core_codec::any_table::Schemas;

/// A table of schemas, and the names of their fields.
#[derive(Drop)]
pub struct NamedTable<T> {
    schemas: T,
    names: Vec<Vec<LoadedName>>,
    ghost sorted: { (s : ℕ) → unsorted_after 0 (names_at (all_names_view names.items) s) ≡ None },
}

impl<T: Schemas + Drop> Schemas for NamedTable<T> {
    type Row = T::Row;

    ghost table = { λ named. T.table named.schemas };

    #[inline(always)]
    fn rows_of(&self, schema: u32) -> &[T::Row] {
        self.schemas.rows_of(schema)
    }

    #[inline(always)]
    fn rows_before(&self, schema: u32, number: u32) -> usize {
        self.schemas.rows_before(schema, number)
    }

    ghost valid = { λ named. T.valid named.schemas };
}

impl<T: Schemas + Drop> NamedSchemas for NamedTable<T> {
    ghost names = { λ named. loaded_names named.names.items };

    fn name_of(&self, schema: u32, number: u32) -> &str {
        match self.find(schema, number) {
            Some(name) => name.name.as_str(),
            None => "",
        }
    }

    fn digits_of(&self, schema: u32, number: u32) -> Digits {
        match self.find(schema, number) {
            Some(name) => name.digits,
            None => Digits::Unsigned,
        }
    }
}

impl<T: Schemas + Drop> NamedTable<T> {
    /// The table with these names: those of each schema, by its index, in the order of their field numbers. An error is
    /// the first number, in this order, that is 0 or not greater than the one before it in its schema. A field that is
    /// given no name has an empty one. Does not allocate.
    pub fn new(schemas: T, names: Vec<Vec<LoadedName>>) -> Result<NamedTable<T>, NameError>
        ensures table { IfOk result (λ named. ⟦<NamedTable<T> as Schemas>⟧.table named ≡ T.table schemas) }
        ensures names { IfOk result (λ named. ⟦<NamedTable<T> as NamedSchemas>⟧.names named
            ≡ loaded_names names.items) }
        ensures error { MatchResult result (λ _. name_error (all_names_view names.items) ≡ None)
            (λ error. name_error (all_names_view names.items) ≡ Some error) }
    {
        if let Some(error) = first_error(names.as_slice()) {
            return Err(error);
        }
        Ok(NamedTable { schemas, names })
    }

    /// What the field of a schema has that has a number; none if it was given no name.
    fn find(&self, schema: u32, number: u32) -> Option<&LoadedName>
        ensures name { name_found (option_map (λ name. name.now) result)
            ≡ name_in (names_at (all_names_view self.now.names.items) schema) number }
        ensures digits { digits_found (option_map (λ name. name.now) result)
            ≡ digits_in (names_at (all_digits_view self.now.names.items) schema) number }
    {
        let place = schema as usize;
        if place < self.names.len() {
            find_name(self.names[place].as_slice(), number)
        } else {
            None
        }
    }
}
