//! Tables of schemas as values. What reads payloads without a record is generic over one.

ghost use Rattle.std.specs.Prelude.{◌≡◌, ◌≤◌, false, length, map, take};
ghost use Rattle.shared_core_wire.specs.Schema.{Row as AnyRow, Table, all_numbers, includes};
ghost use Rattle.shared_core_codec.specs.Table.{table as protocol};
ghost use Rattle.shared_core_codec.specs.Tables.{IsTable, protocol_is_table};
ghost use Rattle.shared_core_codec.specs.ProgramRows.{row_view, shape_view};

use crate::rows::{self, Field, Row};

/// What a row of a schema is: a field by its presence, or a oneof with its members.
#[derive(Clone, Copy)]
pub enum RowShape<'a> {
    Plain(&'a Field),
    Optional(&'a Field),
    Repeated(&'a Field),
    OneOf(&'a [Field]),
}

/// A row of a schema, however a table holds it.
pub trait SchemaRow {
    /// The row that contracts speak of.
    ghost view: { Self → AnyRow };

    /// What it is.
    fn shape(&self) -> RowShape<'_>
        ensures { shape_view result ≡ view self.now };
}

/// A table of schemas.
pub trait Schemas {
    /// How it holds a row.
    type Row: SchemaRow;

    /// The table that contracts speak of.
    ghost table: { Self → Table };

    /// The rows of the schema at an index of the table; past its end there are none.
    fn rows_of(&self, schema: u32) -> &[Self::Row]
        ensures { map Self.Row.view result.now ≡ table self.now schema };

    /// How many of the first rows of a schema are passed over in search of a number: none of them has it. A table
    /// without an index passes over none.
    #[inline(always)]
    fn rows_before(&self, schema: u32, number: u32) -> usize
        ensures within { result ≤ length (table self.now schema) }
        ensures lack { includes (all_numbers (take result (table self.now schema))) number ≡ false }
    {
        0
    }

    /// The numbers of a schema are field numbers, no two fields share one, and no message field is a plain one.
    ghost valid: { (schemas : Self) → IsTable (table schemas) };
}

impl SchemaRow for Row {
    ghost view = { row_view };

    #[inline(always)]
    fn shape(&self) -> RowShape<'_> {
        match self {
            Row::Plain(field) => RowShape::Plain(field),
            Row::Optional(field) => RowShape::Optional(field),
            Row::Repeated(field) => RowShape::Repeated(field),
            Row::OneOf(members) => RowShape::OneOf(members),
        }
    }
}

/// The table of the protocol's messages. It holds nothing at run time, so what is generic is compiled as if it named
/// the table.
#[derive(Clone, Copy)]
pub struct ProtocolSchemas;

impl Schemas for ProtocolSchemas {
    type Row = Row;

    ghost table = { λ _. protocol };

    #[inline(always)]
    fn rows_of(&self, schema: u32) -> &[Row] {
        rows::rows_of(schema)
    }

    ghost valid = { λ _. protocol_is_table };
}
