//! The tables of schemas that payloads are checked by, as payloads hold them.

ghost use Rattle.std.specs.Prelude.{◌≡◌, refl};
ghost use Rattle.shared_core_wire.specs.Schema.{Table};
ghost use Rattle.shared_core_codec.specs.Table.{table as protocol};

use shared_core_codec::any_table::{ProtocolSchemas, Schemas};
use std::alloc::AllocError;

/// What has a table of schemas. It is apart from `Schemas`, so that the type of a payload does not name how the table
/// holds its rows.
pub trait Tabled {
    /// The table that contracts speak of.
    ghost table_of: { Self → Table };
}

/// A table of schemas that payloads hold, and that is copied with them.
pub trait PayloadTable: Schemas + Tabled + Copy {
    /// Both speak of one table.
    ghost same: { (schemas : Self) → Self.table_of schemas ≡ Self.table schemas };
}

impl Tabled for ProtocolSchemas {
    ghost table_of = { λ _. protocol };
}

impl PayloadTable for ProtocolSchemas {
    ghost same = { λ _. refl };
}

/// A table of schemas that is borrowed. It is copied as a reference is, so payloads of any table can hold it.
pub struct TableRef<'t, T> {
    /// The table.
    pub table: &'t T,
}

impl<'t, T> Clone for TableRef<'t, T> {
    ghost is_clone = { λ old new. new ≡ old };

    ghost is_infallible = { λ _. Unit {0} };

    fn clone(&self) -> Result<TableRef<'t, T>, AllocError> {
        Ok(TableRef { table: self.table })
    }
}

impl<'t, T> Copy for TableRef<'t, T> {}

impl<'t, T: Schemas> Schemas for TableRef<'t, T> {
    type Row = T::Row;

    ghost table = { λ borrowed. T.table borrowed.table.now };

    #[inline(always)]
    fn rows_of(&self, schema: u32) -> &[T::Row] {
        self.table.rows_of(schema)
    }

    #[inline(always)]
    fn rows_before(&self, schema: u32, number: u32) -> usize {
        self.table.rows_before(schema, number)
    }

    ghost valid = { λ borrowed. T.valid borrowed.table.now };
}

impl<'t, T: Schemas> Tabled for TableRef<'t, T> {
    ghost table_of = { λ borrowed. T.table borrowed.table.now };
}

impl<'t, T: Schemas> PayloadTable for TableRef<'t, T> {
    ghost same = { λ _. refl };
}
