//! Looking up the name that a field has in JSON, by its schema and its number.

ghost use Rattle.std.specs.Prelude.{◌≡◌, map};
ghost use Rattle.shared_core_json.specs.Names.{names};
ghost use Rattle.shared_core_json.specs.Fields.{name_view, names_view, names_of, name_of};

use crate::name_table::NAMES;

/// The number of a field, and its name in lower camel case.
#[derive(Clone, Copy)]
pub struct Name(pub u32, pub &'static str);

/// The names of the fields of each schema, in the order of the table: a `static` that is proved, by computing, to be
/// the names that contracts cite.
fn names() -> &'static [&'static [Name]]
    ensures { map names_view result.now ≡ names }
{
    &NAMES
}

/// The names of the fields of the schema at an index of the table; past its end there are none.
pub fn names_of(schema: u32) -> &'static [Name]
    ensures { map name_view result.now ≡ (names_of schema).names }
{
    let names = names();
    let place = schema as usize;
    if place < names.len() {
        names[place]
    } else {
        &[]
    }
}

/// The name of the field of a schema that has a number; empty if none has it.
pub fn name_of(schema: u32, number: u32) -> &'static str
    ensures { result.now ≡ name_of (names_of schema) number }
{
    for name in names_of(schema) {
        if name.0 == number {
            return name.1;
        }
    }
    ""
}
