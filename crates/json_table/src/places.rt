//! Where an object has the members of some names: each key is looked up once, and the object is traversed once.

ghost use Rattle.std.specs.Prelude.{◌≡◌, ◌<◌, ℕ, List, Option, Some, None, replicate, IfOk, MatchResult};
ghost use Rattle.json.specs.Json.{no_members};
ghost use Rattle.json_table.specs.Tails.{last_members, IsTail};
ghost use Rattle.json_table.specs.Places.{Say, first_unknown, first_value, has_several, is_taken, place_after};
ghost use Rattle.json_table.specs.Places.{present};
ghost use Rattle.json_table.specs.declared.places.Place.TheVariants.{Absent};

use crate::node::{Members, Node};

/// Where an object has the value of a name: nowhere, once or several times. Once: with how many entries the members
/// end that begin with it.
#[derive(Clone, Copy)]
pub enum Place {
    Absent,
    Once(usize),
    Several,
}

/// The names that the members of an object may have, in the order in which they come most often. Each has a place,
/// which may be that of another name too.
pub trait Names {
    /// The place of a key, if it is a name.
    ghost finds: { Self → List ℕ → Option ℕ };

    /// How many names have an index.
    ghost count: { Self → ℕ };

    /// How many names have an index.
    fn len(&self) -> usize
        ensures { result ≡ count self.now };

    /// The name at an index, and its place.
    fn name_at(&self, index: usize) -> (&'static str, usize)
        requires { index < count self.now }
        ensures { finds self.now result.0.now ≡ Some result.1 };

    /// The place of a key, if it is a name, which may have no index.
    fn place_of(&self, key: &str) -> Option<usize>
        ensures { result ≡ finds self.now key.now };
}

/// The place of a key, if it is a name. The first name from `next` on that is as long is tried first, and `next` is set
/// after it: most objects have their members in the order of the names.
#[inline(always)]
fn next_place<N: Names>(names: &N, next: &mut usize, key: &str) -> Option<usize>
    ensures { result ≡ N.finds names.now key.now }
{
    for index in *next..names.len() {
        let (name, place) = names.name_at(index);
        if name.len() == key.len() {
            if name != key {
                break;
            }
            *next = index + 1;
            return Some(place);
        }
    }
    names.place_of(key)
}

/// Whether a place has a value.
#[inline(always)]
fn is_taken(place: Place) -> bool
    ensures { result ≡ is_taken place }
{
    !matches!(place, Place::Absent)
}

/// The place of a name that has one more value, with which the members begin that have this many entries.
#[inline(always)]
fn place_after(place: Place, left: usize) -> Place
    ensures { result ≡ place_after place left }
{
    match place {
        Place::Absent => Place::Once(left),
        _ => Place::Several,
    }
}

/// Finds where an object has the values of some names, and returns whether a place has several. The error is the first
/// key that is not a name. A name whose place is none of these is passed over.
#[inline(always)]
pub fn find_places<'a, N: Names, const COUNT: usize>(
    names: &N,
    members: &Members<'_, 'a>,
    places: &mut [Place; COUNT],
) -> Result<bool, &'a str>
    requires { places.old ≡ replicate COUNT Absent }
    ensures places { IfOk result (λ _. Say (N.finds names.now) COUNT members.now no_members places.new) }
    ensures several { IfOk result (λ are_several. are_several ≡ has_several places.new) }
    ensures known { MatchResult result
        (λ _. first_unknown (N.finds names.now) members.now ≡ None)
        (λ key. first_unknown (N.finds names.now) members.now ≡ Some key.now) }
{
    let mut rest = members.copy();
    let mut next = 0;
    let mut are_several = false;
    loop {
        let left = rest.left();
        let Some((key, _)) = rest.next() else {
            return Ok(are_several);
        };
        let Some(place) = next_place(names, &mut next, key) else {
            return Err(key);
        };
        if place < COUNT {
            let before = places[place];
            are_several |= is_taken(before);
            places[place] = place_after(before, left);
        }
    }
}

/// The value of the first of those of the members, at the end, that have this many entries, unless it is null.
pub fn first_present<'t, 'a>(members: &Members<'t, 'a>, left: usize) -> Option<Node<'t, 'a>>
    requires { IsTail left members.now }
    ensures { result ≡ present (first_value (last_members left members.now)) }
{
    match members.last(left).next() {
        Some((_, value)) => present(value),
        None => None,
    }
}

/// A value, unless it is null.
pub fn present<'t, 'a>(value: Node<'t, 'a>) -> Option<Node<'t, 'a>>
    ensures { result ≡ present value.entry }
{
    if value.is_null() { None } else { Some(value) }
}
