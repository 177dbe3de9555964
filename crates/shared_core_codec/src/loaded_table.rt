//! A table of schemas that is made at run time.

ghost use Rattle.std.specs.Prelude.{◌≡◌, Some, None, true, is_ok, IfOk, MatchResult};
ghost use Rattle.std.specs.List.{list_all};
ghost use Rattle.shared_core_wire.specs.Schema.{table_of};
ghost use Rattle.shared_core_codec.specs.Tables.{each_is_rows, are_rows};
ghost use Rattle.shared_core_codec.specs.LoadedRows.{schemas_view, are_schemas};
ghost use Rattle.shared_core_codec.specs.RowIndexes.{AreIndexes};
ghost use Rattle.shared_core_codec.specs.TableErrors.{table_error};

use crate::any_table::Schemas;
use crate::loaded_rows::{LoadedRow, first_error};
use crate::row_index::{self, NumberPlace, indexes_of};
use crate::table_error::TableError;
use std::alloc::{AllocError, Global};

/// A table of schemas that is made at run time, whose rows were checked.
#[derive(Drop)]
pub struct LoadedSchemas {
    schemas: Vec<Vec<LoadedRow>>,
    indexes: Vec<Vec<NumberPlace>>,
    ghost valid: { list_all are_rows (schemas_view schemas.items) ≡ true },
    ghost indexed: { AreIndexes (schemas_view schemas.items) indexes.items },
}

impl Schemas for LoadedSchemas {
    type Row = LoadedRow;

    ghost table = { λ loaded. table_of (schemas_view loaded.schemas.items) };

    #[inline(always)]
    fn rows_of(&self, schema: u32) -> &[LoadedRow] {
        let place = schema as usize;
        if place < self.schemas.len() {
            self.schemas[place].as_slice()
        } else {
            &[]
        }
    }

    #[inline(always)]
    fn rows_before(&self, schema: u32, number: u32) -> usize {
        let place = schema as usize;
        if place < self.indexes.len() {
            row_index::rows_before(self.rows_of(schema), self.indexes[place].as_slice(), number)
        } else {
            0
        }
    }

    ghost valid = { λ loaded. each_is_rows _ loaded.valid };
}

impl LoadedSchemas {
    /// A table of these schemas, by their index, each with its rows in the order in which a canonical payload has them;
    /// a oneof's members are at its place. An error is the first field, in this order, whose number is not one from 1
    /// to 536,870,911, or is that of a later field of its schema; which is a message of none of these schemas; or which
    /// is a message without presence (`LoadedRow::Plain`). The rules on numbers are proto3's. Compares each number of
    /// a schema with all later ones, and does not allocate.
    #[tactic(auto, using(crate::proofs::LoadedTables::rows_valid, crate::proofs::LoadedTables::none_valid, crate::proofs::LoadedTables::some_invalid))]
    pub fn new(schemas: Vec<Vec<LoadedRow>>) -> Result<LoadedSchemas, TableError>
        ensures table { IfOk result (λ loaded. ⟦<LoadedSchemas as Schemas>⟧.table loaded
            ≡ table_of (schemas_view schemas.items)) }
        ensures error { MatchResult result (λ _. table_error (schemas_view schemas.items) ≡ None)
            (λ error. table_error (schemas_view schemas.items) ≡ Some error) }
        ensures valid { is_ok result ≡ are_schemas (schemas_view schemas.items) }
    {
        if let Some(error) = first_error(schemas.as_slice()) {
            return Err(error);
        }
        let indexes = Vec::new(*schemas.allocator());
        Ok(LoadedSchemas { schemas, indexes })
    }

    /// The same table with an index of each schema of more than 16 rows: its numbers in ascending order, with the
    /// places of their rows. Then the row of a number is found by halves, and not from the first row on. An error is
    /// a failed allocation.
    pub fn indexed(self, alloc: Global) -> Result<LoadedSchemas, AllocError>
        ensures { IfOk result (λ indexed. ⟦<LoadedSchemas as Schemas>⟧.table indexed
            ≡ ⟦<LoadedSchemas as Schemas>⟧.table self) }
    {
        let indexes = indexes_of(alloc, self.schemas.as_slice())?;
        Ok(LoadedSchemas {
            schemas: self.schemas,
            indexes,
        })
    }
}
