//! The members of a line, by their names.
//!
//! A line is traversed once: each name has a place (`Line`), and only a line with a fault is traversed again.

ghost use Rattle.std.specs.Prelude.{◌≡◌, ◌≢◌, ◌<◌, None, map, option_map, replicate, IsTrue, MatchBool};
ghost use Rattle.json.specs.Json.{object};
ghost use Rattle.json_table.specs.declared.places.Place.TheVariants.{Absent};
ghost use Rattle.make_lines.specs.Appending.{said_of, HasFault};
ghost use Rattle.make_lines.specs.Members.{is_known, has_key, members_fault, pairs_fault};
ghost use Rattle.make_lines.specs.Members.{given, given_either, gives_both};
ghost use Rattle.make_lines.specs.Places.{names, place_of, name_at, place_count, ArePlaces};

use crate::error::{LineError, LineReason};
use crate::reject::{Fault, reject};
use json_table::{Members, Names, Node, Place, first_present};
use shared_core_json_reader::Reason;
use std::alloc::Global;
use std::marker::Model;

/// How many places there are.
pub const PLACES: usize = 14;

/// The names of the members that a line may have, in the order in which a dump has them; the place of a name is its
/// index.
static NAMES: [&str; PLACES] = [
    "offset",
    "type",
    "code",
    "length",
    "requestedAck",
    "header",
    "message",
    "bytes",
    "malformed",
    "unknown",
    "skipped",
    "rest",
    "payload",
    "ack",
];

/// The place of the member `type`.
pub const TYPE: u8 = 1;

/// The place of the member `code`.
pub const CODE: u8 = 2;

/// The place of the member `requestedAck`.
pub const REQUESTED_ACK: u8 = 4;

/// The place of the member `header`.
pub const HEADER: u8 = 5;

/// The place of the member `message`.
pub const MESSAGE: u8 = 6;

/// The place of the member `bytes`.
pub const BYTES: u8 = 7;

/// The place of the member `unknown`.
pub const UNKNOWN: u8 = 9;

/// The place of the member `rest`.
pub const REST: u8 = 11;

/// The place of the member `payload`.
pub const PAYLOAD: u8 = 12;

/// The place of the member `ack`.
pub const ACK: u8 = 13;

/// The place of no member, whose name is empty: that of the line itself.
pub const LINE: u8 = 15;

/// The value of a line: an object of members that a line may have. A contract sees the value.
#[derive(Drop)]
pub struct Line<'t, 'a> {
    members: Members<'t, 'a>,
    /// Where the member of each name is.
    places: &'t [Place; PLACES],
}

impl<'t, 'a> Model for Line<'t, 'a> {
    ghost use Rattle.json.specs.Json.{Json, object};
    ghost use Rattle.json_table.specs.Codes.{value_code};

    ghost Value = { Json };

    ghost coded = { value_code };

    ghost use Rattle.make_lines.specs.Places.{ArePlaces};

    ghost view = { λ a. object a.members };

    ghost invariant = { λ a. ArePlaces a.members a.places.now };
}

/// The names of the members that a line may have.
fn names() -> &'static [&'static str]
    ensures { map (λ s. s.now) result.now ≡ names }
{
    &NAMES
}

/// The name of a place.
pub fn name_at(place: u8) -> &'static str
    ensures { result.now ≡ name_at place }
{
    match names().get(usize::from(place)) {
        Some(name) => *name,
        None => "",
    }
}

/// The place of a key, if it is a name.
#[inline(never)]
fn place_of(key: &str) -> Option<usize>
    ensures { result ≡ place_of key.now }
{
    let names = names();
    let mut place = 0;
    while place < names.len() {
        if key == names[place] {
            return Some(place);
        }
        place += 1;
    }
    None
}

/// The names of the members that a line may have, each with its index as its place.
#[derive(Drop)]
struct LineNames;

impl Names for LineNames {
    ghost use Rattle.make_lines.specs.Places.{place_of, place_count};

    ghost finds = { λ _. place_of };

    ghost count = { λ _. place_count };

    #[inline(always)]
    fn len(&self) -> usize {
        PLACES
    }

    #[inline(always)]
    fn name_at(&self, index: usize) -> (&'static str, usize) {
        (names()[index], index)
    }

    fn place_of(&self, key: &str) -> Option<usize> {
        place_of(key)
    }
}

/// Whether a line may have a member with this key.
#[tactic(auto, using(crate::proofs::Placing::known_if))]
fn is_known(key: &str) -> bool
    ensures { result ≡ is_known key.now }
{
    place_of(key).is_some()
}

/// Whether a member has this key.
fn has_key(key: &str, members: &Members<'_, '_>) -> bool
    ensures { result ≡ has_key key.now members.now }
{
    let mut rest = members.copy();
    while let Some((other, _)) = rest.next() {
        if other == key {
            return true;
        }
    }
    false
}

/// The fault of the first member whose key a line may not have, or whose key occurs again.
#[cold]
pub fn first_fault(alloc: Global, members: &Members<'_, '_>) -> LineError
    requires { members_fault members.now ≢ None }
    ensures { HasFault (members_fault members.now) result }
{
    let mut rest = members.copy();
    while let Some((key, _)) = rest.next() {
        if !is_known(key) {
            return reject(alloc, LineReason::Json(Reason::UnknownMember), key);
        }
        if has_key(key, &rest) {
            return reject(alloc, LineReason::Json(Reason::RepeatedMember), key);
        }
    }
    unreachable!()
}

/// Finds where the member of each name is, and returns whether there are no other members and none twice.
#[inline(always)]
pub fn find_places(members: &Members<'_, '_>, places: &mut [Place; PLACES]) -> bool
    requires { places.old ≡ replicate place_count Absent }
    ensures places { IsTrue result → ArePlaces members.now places.new }
    ensures fault { MatchBool result (members_fault members.now ≡ None) (members_fault members.now ≢ None) }
{
    match json_table::find_places(&LineNames, members, places) {
        Ok(are_several) => !are_several,
        Err(_) => false,
    }
}

impl<'t, 'a> Line<'t, 'a> {
    /// The line of these members, by where those of each name are.
    #[inline(always)]
    pub fn new(members: Members<'t, 'a>, places: &'t [Place; PLACES]) -> Line<'t, 'a>
        requires { ArePlaces members places.now }
        ensures { result ≡ object members.entry }
    {
        Line { members, places }
    }

    /// The fault of two members that give the same under two names.
    #[inline(always)]
    pub fn pairs_fault(&self) -> Option<Fault>
        ensures { option_map (said_of self.now) result ≡ pairs_fault self.now }
    {
        if self.gives_both(BYTES, PAYLOAD) {
            return Some(Fault::at(LINE, LineReason::SeveralPayloads));
        }
        if self.gives_both(REQUESTED_ACK, ACK) {
            return Some(Fault::at(ACK, LineReason::Json(Reason::RepeatedMember)));
        }
        None
    }

    /// The value of the member of a place, if it is present and not null.
    #[inline(always)]
    pub fn given(&self, place: u8) -> Option<Node<'t, 'a>>
        requires { place < place_count }
        ensures { result ≡ given (name_at place) self.now }
    {
        match self.places[usize::from(place)] {
            Place::Once(left) => first_present(&self.members, left),
            _ => None,
        }
    }

    /// The value of a member by either of its names.
    #[inline(always)]
    pub fn given_either(&self, place: u8, other: u8) -> Option<Node<'t, 'a>>
        requires { (place < place_count) × (other < place_count) }
        ensures { result ≡ given_either (name_at place) (name_at other) self.now }
    {
        match self.given(place) {
            Some(value) => Some(value),
            None => self.given(other),
        }
    }

    /// Whether both names have values.
    #[inline(always)]
    fn gives_both(&self, place: u8, other: u8) -> bool
        requires { (place < place_count) × (other < place_count) }
        ensures { result ≡ gives_both (name_at place) (name_at other) self.now }
    {
        self.given(place).is_some() && self.given(other).is_some()
    }
}
