//! Names of fields that are made at run time.

ghost use Rattle.std.specs.Prelude.{◌≡◌, None, map, option_map};
ghost use Rattle.shared_core_json.specs.Fields.{name_in};
ghost use Rattle.shared_core_json.specs.LoadedNames.{all_names_view, names_view, name_error, unsorted_after};
ghost use Rattle.shared_core_json.specs.LoadedNames.{digits_view, digits_in, name_found, digits_found};

use crate::digits::Digits;
use crate::name_error::NameError;

/// The number of a field, its name in JSON, and how its numbers are written; of another kind than `U32` and `U64` its
/// digits are of no use.
#[derive(Drop)]
pub struct LoadedName {
    pub number: u32,
    pub name: String,
    pub digits: Digits,
}

/// The first name, in the order of schemas, whose number is not greater than the one before it.
pub(crate) fn first_error(names: &[Vec<LoadedName>]) -> Option<NameError>
    ensures { result ≡ name_error (all_names_view names.now) }
{
    let mut rest = names;
    let mut schema = 0;
    while let Some((own, after)) = rest.split_first() {
        if let Some(number) = first_unsorted(own.as_slice()) {
            return Some(NameError { schema, number });
        }
        rest = after;
        schema += 1;
    }
    None
}

/// The first number of a schema's names that is not greater than the one before it, or is 0.
fn first_unsorted(names: &[LoadedName]) -> Option<u32>
    ensures { result ≡ unsorted_after 0 (names_view names.now) }
{
    let mut before = 0;
    for name in names {
        if name.number <= before {
            return Some(name.number);
        }
        before = name.number;
    }
    None
}

/// What a number has among names in the order of their numbers. Searches by halves.
pub(crate) fn find_name(names: &[LoadedName], number: u32) -> Option<&LoadedName>
    requires { unsorted_after 0 (names_view names.now) ≡ None }
    ensures name { name_found (option_map (λ name. name.now) result) ≡ name_in (names_view names.now) number }
    ensures digits { digits_found (option_map (λ name. name.now) result)
        ≡ digits_in (map digits_view names.now) number }
{
    match names.binary_search_by_key(&number, |name| name.number) {
        Ok(place) => Some(&names[place]),
        Err(_place) => None,
    }
}
