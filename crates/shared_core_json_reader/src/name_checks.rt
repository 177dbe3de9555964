//! Whether names that are made at run time are those of the fields of schemas, and apart.

ghost use Rattle.std.specs.Prelude.{◌≡◌, ◌++◌, map, IfOk, OnOk};
ghost use Rattle.std.specs.List.{list_all};
ghost use Rattle.std.specs.String.{string_bytes};
ghost use Rattle.shared_core_wire.specs.Schema.{numbers, all_numbers, includes};
ghost use Rattle.shared_core_codec.specs.LoadedRows.{row_view, rows_view, schemas_view};
ghost use Rattle.shared_core_codec.specs.ProgramRows.{field_view};
ghost use Rattle.shared_core_json.specs.Fields.{name_in};
ghost use Rattle.shared_core_json.specs.LoadedNames.{name_view, names_view, all_names_view};
ghost use Rattle.shared_core_json_reader.specs.Reading.{original_byte, original_name};
ghost use Rattle.shared_core_json_reader.specs.Readable.{all_apart, are_apart, are_found, are_names, numbers_of};
ghost use Rattle.shared_core_json_reader.specs.Readable.{same_test, unreadable_from};

use crate::members::is_original;
use shared_core_codec::loaded_rows::LoadedRow;
use shared_core_codec::rows::Field;
use shared_core_json::loaded_names::LoadedName;
use std::alloc::{AllocError, Global};

/// The index of the first schema whose names are not those of its fields, or not apart; or that has no names or no
/// rows, if there are fewer lists of these.
pub(crate) fn first_unreadable(
    alloc: Global,
    names: &[Vec<LoadedName>],
    schemas: &[Vec<LoadedRow>],
) -> Result<Option<usize>, AllocError>
    ensures { IfOk result (λ found. found ≡ unreadable_from 0 (all_names_view names.now) (schemas_view schemas.now)) }
{
    let mut names = names;
    let mut rest = schemas;
    let mut schema = 0;
    while let Some((rows, later)) = rest.split_first() {
        let Some((own, others)) = names.split_first() else {
            return Ok(Some(schema));
        };
        if !are_names(alloc, own.as_slice(), rows.as_slice())? {
            return Ok(Some(schema));
        }
        names = others;
        rest = later;
        schema += 1;
    }
    if names.is_empty() {
        Ok(None)
    } else {
        Ok(Some(schema))
    }
}

/// Whether names are those of the fields of some rows, and apart.
fn are_names(alloc: Global, names: &[LoadedName], rows: &[LoadedRow]) -> Result<bool, AllocError>
    ensures { IfOk result (λ are. are ≡ are_names (names_view names.now) (all_numbers (rows_view rows.now))) }
{
    if !all_apart(alloc, names)? {
        return Ok(false);
    }
    Ok(are_found(names) && are_listed(names, rows) && are_own(names, rows))
}

/// Whether each two of some names are apart.
fn all_apart(alloc: Global, names: &[LoadedName]) -> Result<bool, AllocError>
    ensures { IfOk result (λ are. are ≡ all_apart (names_view names.now)) }
{
    for name in names {
        let original = original_of(alloc, name.name.as_bytes())?;
        if !apart_from(name, original.as_slice(), names) {
            return Ok(false);
        }
    }
    Ok(true)
}

/// Whether a name and each of some names are apart.
fn apart_from(name: &LoadedName, original: &[u8], names: &[LoadedName]) -> bool
    requires { original.now ≡ original_name (string_bytes name.now.name) }
    ensures { result ≡ list_all (are_apart (name_view name.now)) (names_view names.now) }
{
    for other in names {
        if !are_apart(name, original, other) {
            return false;
        }
    }
    true
}

/// Whether a name and another one are apart, or of one field.
fn are_apart(name: &LoadedName, original: &[u8], other: &LoadedName) -> bool
    requires { original.now ≡ original_name (string_bytes name.now.name) }
    ensures { result ≡ are_apart (name_view name.now) (name_view other.now) }
{
    let key = other.name.as_bytes();
    let is_one = name.number == other.number;
    same_test(key == name.name.as_bytes() || key == original, is_one)
        && same_test(is_original(original, key), is_one)
}

/// Whether two tests have the same result.
fn same_test(test: bool, other: bool) -> bool
    ensures { result ≡ same_test test other }
{
    if test { other } else { !other }
}

/// The original name of a field, by its name in lower camel case.
fn original_of(alloc: Global, name: &[u8]) -> Result<Vec<u8>, AllocError>
    ensures { IfOk result (λ original. original.items ≡ original_name name.now) }
{
    let mut original = Vec::new(alloc);
    for byte in name {
        push_original(&mut original, *byte)?;
    }
    Ok(original)
}

/// Appends a byte of a name in lower camel case as the original name has it.
fn push_original(original: &mut Vec<u8>, byte: u8) -> Result<(), AllocError>
    ensures { OnOk result (original.new.items ≡ original.old.items ++ original_byte byte) }
{
    if b'A' <= byte && byte <= b'Z' {
        original.push(b'_')?;
        original.push(byte + 32)?;
        return Ok(());
    }
    original.push(byte)?;
    Ok(())
}

/// Whether each of some names is what its number finds.
fn are_found(names: &[LoadedName]) -> bool
    ensures { result ≡ are_found (names_view names.now) (names_view names.now) }
{
    for name in names {
        if name.name.as_str() != name_in(names, name.number) {
            return false;
        }
    }
    true
}

/// The name that a number has among some names; empty if none has it.
pub(crate) fn name_in(names: &[LoadedName], number: u32) -> &str
    ensures { result.now ≡ name_in (names_view names.now) number }
{
    for name in names {
        if name.number == number {
            return name.name.as_str();
        }
    }
    ""
}

/// Whether each field of some rows has a name.
fn are_listed(names: &[LoadedName], rows: &[LoadedRow]) -> bool
    ensures { result ≡ list_all (includes (numbers_of (names_view names.now))) (all_numbers (rows_view rows.now)) }
{
    for row in rows {
        if !is_listed(names, row) {
            return false;
        }
    }
    true
}

/// Whether each field of a row has a name.
fn is_listed(names: &[LoadedName], row: &LoadedRow) -> bool
    ensures { result ≡ list_all (includes (numbers_of (names_view names.now))) (numbers (row_view row.now)) }
{
    match row {
        LoadedRow::Plain(field) | LoadedRow::Optional(field) | LoadedRow::Repeated(field) => {
            has_number(names, field.number)
        }
        LoadedRow::OneOf(members) => members_listed(names, members.as_slice()),
    }
}

/// Whether each of some fields has a name.
fn members_listed(names: &[LoadedName], members: &[Field]) -> bool
    ensures { result ≡ list_all (includes (numbers_of (names_view names.now)))
        (map (λ m. m.0) (map field_view members.now)) }
{
    for member in members {
        if !has_number(names, member.number) {
            return false;
        }
    }
    true
}

/// Whether one of some names has a number.
fn has_number(names: &[LoadedName], number: u32) -> bool
    ensures { result ≡ includes (numbers_of (names_view names.now)) number }
{
    for name in names {
        if name.number == number {
            return true;
        }
    }
    false
}

/// Whether each of some names is that of a field of some rows.
fn are_own(names: &[LoadedName], rows: &[LoadedRow]) -> bool
    ensures { result ≡ list_all (includes (all_numbers (rows_view rows.now))) (numbers_of (names_view names.now)) }
{
    for name in names {
        if !rows_include(rows, name.number) {
            return false;
        }
    }
    true
}

/// Whether one of some rows has a number.
fn rows_include(rows: &[LoadedRow], number: u32) -> bool
    ensures { result ≡ includes (all_numbers (rows_view rows.now)) number }
{
    for row in rows {
        if row_includes(row, number) {
            return true;
        }
    }
    false
}

/// Whether a row has a number.
fn row_includes(row: &LoadedRow, number: u32) -> bool
    ensures { result ≡ includes (numbers (row_view row.now)) number }
{
    match row {
        LoadedRow::Plain(field) | LoadedRow::Optional(field) | LoadedRow::Repeated(field) => {
            field.number == number
        }
        LoadedRow::OneOf(members) => members_include(members.as_slice(), number),
    }
}

/// Whether one of some fields has a number.
fn members_include(members: &[Field], number: u32) -> bool
    ensures { result ≡ includes (map (λ m. m.0) (map field_view members.now)) number }
{
    for member in members {
        if member.number == number {
            return true;
        }
    }
    false
}
