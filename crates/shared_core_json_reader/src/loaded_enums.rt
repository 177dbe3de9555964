//! Names of the values of enums, made at run time. Each enum is there once: with a copy for each field a table could
//! have thousands of times the names of its description.

ghost use Rattle.std.specs.Prelude.{◌≡◌, ◌%◌, ◌^◌};
ghost use Rattle.shared_core_json_reader.specs.LoadedEnums.{all_fields_view, all_values_view, enum_of, enum_values};
ghost use Rattle.shared_core_json_reader.specs.LoadedEnums.{fields_view, list_at, values_view};
ghost use Rattle.shared_core_json_reader.specs.Scalars.{value_named};

/// The name of a value of an enum, and the low 32 bits of its number.
#[derive(Drop)]
pub struct LoadedValue {
    pub name: String,
    pub number: u32,
}

impl LoadedValue {
    /// The low 32 bits of the number, which are all that it has.
    #[tactic(auto, using(crate::proofs::EnumLists::low_number))]
    fn low_bits(&self) -> u32
        ensures { result ≡ self.now.number % 2 ^ 32 }
    {
        self.number
    }
}

/// The number of a field with an enum, and the index of the enum.
#[derive(Clone, Copy)]
pub struct LoadedEnumField {
    pub number: u32,
    pub index: usize,
}

/// The enums of the fields of a table.
#[derive(Drop)]
pub struct LoadedEnums {
    /// The fields of each schema, by its index, that have an enum.
    pub fields: Vec<Vec<LoadedEnumField>>,
    /// The values of each enum, by its index.
    pub values: Vec<Vec<LoadedValue>>,
}

impl LoadedEnums {
    /// The fields of a schema that have an enum; past the last one there are none.
    fn fields_of(&self, schema: u32) -> &[LoadedEnumField]
        ensures { fields_view result.now ≡ list_at (all_fields_view self.now.fields.items) schema }
    {
        let place = schema as usize;
        if place < self.fields.len() {
            self.fields[place].as_slice()
        } else {
            &[]
        }
    }

    /// The values of the enum at an index; past the last one there are none.
    fn values_at(&self, index: usize) -> &[LoadedValue]
        ensures { values_view result.now ≡ list_at (all_values_view self.now.values.items) index }
    {
        if index < self.values.len() {
            self.values[index].as_slice()
        } else {
            &[]
        }
    }

    /// The values of the enum of a field; none if it has no enum.
    pub(crate) fn values_of(&self, schema: u32, number: u32) -> &[LoadedValue]
        ensures { values_view result.now ≡ enum_values self.now schema number }
    {
        match enum_of(self.fields_of(schema), number) {
            Some(index) => self.values_at(index),
            None => &[],
        }
    }
}

/// The index of the enum of the first of some fields that has a number.
fn enum_of(fields: &[LoadedEnumField], number: u32) -> Option<usize>
    ensures { result ≡ enum_of (fields_view fields.now) number }
{
    for field in fields {
        if field.number == number {
            return Some(field.index);
        }
    }
    None
}

/// The number of the first of some values that has a name.
pub(crate) fn value_named(values: &[LoadedValue], name: &str) -> Option<u32>
    ensures { result ≡ value_named (values_view values.now) name.now }
{
    for value in values {
        if name == value.name.as_str() {
            return Some(value.low_bits());
        }
    }
    None
}
