//! The members of an object, by the names of fields.
//!
//! Each key is looked up once, in the table of names: it is the name of one field at most. Where the values of the
//! fields are is then found by their numbers (`Places`).
//!
//! The original name of a field is defined by that in lower camel case: for a capital letter an underscore and the
//! small letter. So one table of names serves for both.

ghost use Rattle.std.specs.Prelude.{◌≡◌, true, false, Some, None, map, option_map, IfErr, IsTrue, OnOk};
ghost use Rattle.std.specs.Prelude.{MatchResult, length, replicate};
ghost use Rattle.std.specs.Str.{bytes_eq};
ghost use Rattle.json.specs.Json.{no_members};
ghost use Rattle.json_table.specs.Places.{Say};
ghost use Rattle.json_table.specs.declared.places.Place.TheVariants.{Absent};
ghost use Rattle.shared_core_json.specs.Fields.{name_view};
ghost use Rattle.shared_core_json_reader.specs.Rows.{in_schema, named_rows, protocol};
ghost use Rattle.shared_core_json_reader.specs.Original.{after_byte, after_original};
ghost use Rattle.shared_core_json_reader.specs.Reading.{original_name, is_named, are_known, given};
ghost use Rattle.shared_core_json_reader.specs.Places.{number_by, as_it_is, number_of, place_count, ArePlaces, IsOf};
ghost use Rattle.shared_core_json_reader.specs.Places.{AreLikely, IsAbsent, Lacks};
ghost use Rattle.shared_core_json_reader.specs.FirstError.{first_unknown};

use crate::error::Reason;
use crate::readable::ReadableSchemas;
use json_table::{Members, Names, Node, Place, first_present, present};
use shared_core_codec::any_table::{RowShape, SchemaRow};
use shared_core_codec::rows::Field;
use shared_core_json::names::{Name, names_of};

/// How many numbers of fields have a place: those below it.
pub const PLACES: usize = 20;

/// Where an object of a schema has the values of its fields, by their numbers.
#[derive(Clone, Copy)]
pub struct Places {
    pub schema: u32,
    pub numbered: [Place; PLACES],
}

/// What comes after a byte, if the text begins with it.
fn after_byte(text: &[u8], byte: u8) -> Option<&[u8]>
    ensures { option_map (λ rest. rest.now) result ≡ after_byte byte text.now }
{
    if !text.is_empty() && text[0] == byte {
        Some(&text[1..])
    } else {
        None
    }
}

/// What comes after a byte of a name in lower camel case as the original name has it, if the text begins with that.
fn after_original(text: &[u8], byte: u8) -> Option<&[u8]>
    ensures { option_map (λ rest. rest.now) result ≡ after_original byte text.now }
{
    if b'A' <= byte && byte <= b'Z' {
        return after_byte(after_byte(text, b'_')?, byte + 32);
    }
    after_byte(text, byte)
}

/// Whether a key is the original name of the field that has this name in lower camel case.
pub fn is_original(key: &[u8], name: &[u8]) -> bool
    ensures { result ≡ bytes_eq key.now (original_name name.now) }
{
    let mut rest = key;
    for byte in name {
        let Some(after) = after_original(rest, *byte) else {
            return false;
        };
        rest = after;
    }
    rest.is_empty()
}

/// Whether a key is one of the two names of a field of a schema.
fn is_named<T: ReadableSchemas>(schemas: &T, schema: u32, field: &Field, key: &str) -> bool
    ensures { result ≡ is_named (in_schema (T.format schemas.now) schema field.now) key.now }
{
    let name = schemas.name_of(schema, field.number);
    key == name || is_original(key.as_bytes(), name.as_bytes())
}

/// The number of the first of some names that is a key.
fn number_named(names: &[Name], key: &str) -> Option<u32>
    ensures { result ≡ number_by as_it_is (map name_view names.now) key.now }
{
    for name in names {
        if key == name.1 {
            return Some(name.0);
        }
    }
    None
}

/// The number of the first of some names whose original name is a key.
fn number_of_original(names: &[Name], key: &str) -> Option<u32>
    ensures { result ≡ number_by original_name (map name_view names.now) key.now }
{
    for name in names {
        if is_original(key.as_bytes(), name.1.as_bytes()) {
            return Some(name.0);
        }
    }
    None
}

/// The number of the field of a schema of the protocol of which a key is a name.
#[tactic(auto, unfolding(crate::specs::Places::number_of))]
pub fn number_of(schema: u32, key: &str) -> Option<u32>
    ensures { result ≡ number_of protocol schema key.now }
{
    let names = names_of(schema);
    match number_named(names, key) {
        Some(number) => Some(number),
        None => number_of_original(names, key),
    }
}

/// The names of the fields of a schema of a table.
#[derive(Drop)]
struct FieldNames<'t, T: ReadableSchemas> {
    schemas: &'t T,
    schema: u32,
    likely: &'static [Name],
    ghost finding: { AreLikely (T.format schemas.now) schema (map name_view likely.now) },
}

impl<'t, T: ReadableSchemas> FieldNames<'t, T> {
    /// The names of a schema's fields.
    #[inline(always)]
    fn of(schemas: &'t T, schema: u32) -> FieldNames<'t, T>
        ensures { (result.schemas.now ≡ schemas.now) × (result.schema ≡ schema) }
    {
        FieldNames {
            schemas,
            schema,
            likely: schemas.likely_names(schema),
        }
    }
}

impl<'t, T: ReadableSchemas> Names for FieldNames<'t, T> {
    ghost finds = { λ names. number_of (T.format names.schemas.now) names.schema };

    ghost count = { λ names. length names.likely.now };

    #[inline(always)]
    fn len(&self) -> usize {
        self.likely.len()
    }

    #[inline(always)]
    fn name_at(&self, index: usize) -> (&'static str, usize) {
        let names = self.likely;
        let Name(number, name) = names[index];
        (name, number as usize)
    }

    fn place_of(&self, key: &str) -> Option<usize> {
        match self.schemas.number_of(self.schema, key) {
            Some(number) => Some(number as usize),
            None => None,
        }
    }
}

/// Finds where an object of a schema has the values of its fields. The error is the first key that is not a name of a
/// field.
#[inline(always)]
pub fn find_places<'a, T: ReadableSchemas>(
    schemas: &T,
    schema: u32,
    members: &Members<'_, 'a>,
    numbered: &mut [Place; PLACES],
) -> Result<(), &'a str>
    requires { numbered.old ≡ replicate place_count Absent }
    ensures places { OnOk result (Say (number_of (T.format schemas.now) schema) place_count members.now no_members
        numbered.new) }
    ensures known { MatchResult result
        (λ _. are_known (named_rows (T.format schemas.now) schema) members.now ≡ true)
        (λ _. are_known (named_rows (T.format schemas.now) schema) members.now ≡ false) }
    ensures unknown { MatchResult result
        (λ _. first_unknown (named_rows (T.format schemas.now) schema) members.now ≡ None)
        (λ key. first_unknown (named_rows (T.format schemas.now) schema) members.now ≡ Some key.now) }
{
    match json_table::find_places(&FieldNames::of(schemas, schema), members, numbered) {
        Ok(_) => Ok(()),
        Err(key) => Err(key),
    }
}

/// The value that an object gives a field of its schema, if it is there and not null. An error if it comes twice.
pub fn given<'t, 'a, T: ReadableSchemas>(
    schemas: &T,
    members: &Members<'t, 'a>,
    places: &Places,
    field: &Field,
) -> Result<Option<Node<'t, 'a>>, Reason>
    requires places { ArePlaces (T.format schemas.now) members.now places.now }
    requires field { IsOf (T.format schemas.now) places.now.schema
        (in_schema (T.format schemas.now) places.now.schema field.now) }
    ensures given { MatchResult result
        (λ found. given (in_schema (T.format schemas.now) places.now.schema field.now) members.now ≡ Some found)
        (λ _. given (in_schema (T.format schemas.now) places.now.schema field.now) members.now ≡ None) }
    ensures repeated { IfErr result (λ reason. reason ≡ Reason.RepeatedMember) }
{
    let number = field.number as usize;
    if number >= PLACES {
        return given_by_name(schemas, members, places.schema, field);
    }
    match places.numbered[number] {
        Place::Absent => Ok(None),
        Place::Once(left) => Ok(first_present(members, left)),
        Place::Several => Err(Reason::RepeatedMember),
    }
}

/// Whether an object gives a row of its schema nothing, as can be seen without the names of its fields.
#[inline(always)]
pub fn lacks<R: SchemaRow>(places: &Places, row: &R) -> bool
    ensures { IsTrue result → Lacks places.now (R.view row.now) }
{
    match row.shape() {
        RowShape::Plain(field) | RowShape::Optional(field) | RowShape::Repeated(field) => {
            is_absent(places, field)
        }
        RowShape::OneOf(_) => false,
    }
}

/// Whether an object gives a field of its schema nothing, as can be seen without the field's names.
#[inline(always)]
pub fn is_absent(places: &Places, field: &Field) -> bool
    ensures { IsTrue result → IsAbsent places.now field.now.number }
{
    let number = field.number as usize;
    number < PLACES && matches!(places.numbered[number], Place::Absent)
}

/// The value that an object most likely gives a field, for one that only wants to know how long it is.
pub fn likely<'t, 'a, T: ReadableSchemas>(
    schemas: &T,
    members: &Members<'t, 'a>,
    places: &Places,
    field: &Field,
) -> Option<Node<'t, 'a>>
    requires { ArePlaces (T.format schemas.now) members.now places.now }
{
    let number = field.number as usize;
    if number >= PLACES {
        return match given_by_name(schemas, members, places.schema, field) {
            Ok(found) => found,
            Err(_) => None,
        };
    }
    match places.numbered[number] {
        Place::Once(left) => first_present(members, left),
        _ => None,
    }
}

/// The value that members give a field of a schema, by its names, if it is there and not null. An error if it comes
/// twice.
fn given_by_name<'t, 'a, T: ReadableSchemas>(
    schemas: &T,
    members: &Members<'t, 'a>,
    schema: u32,
    field: &Field,
) -> Result<Option<Node<'t, 'a>>, Reason>
    ensures given { MatchResult result
        (λ found. given (in_schema (T.format schemas.now) schema field.now) members.now ≡ Some found)
        (λ _. given (in_schema (T.format schemas.now) schema field.now) members.now ≡ None) }
    ensures repeated { IfErr result (λ reason. reason ≡ Reason.RepeatedMember) }
{
    let mut found: Option<Node<'t, 'a>> = None;
    let mut rest = members.copy();
    while let Some((key, value)) = rest.next() {
        if is_named(schemas, schema, field, key) {
            if found.is_some() {
                return Err(Reason::RepeatedMember);
            }
            found = Some(value);
        }
    }
    match found {
        Some(value) => Ok(present(value)),
        None => Ok(None),
    }
}
