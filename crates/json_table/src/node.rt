//! Values, items and members in a table.

ghost use Rattle.std.specs.Prelude.{◌≡◌, ◌≢◌, ◌≤◌, ◌+◌, option_map, MatchOption, MatchBool};
ghost use Rattle.json.specs.Json.{Json, no_items, item, no_members, member};
ghost use Rattle.json.specs.Find.{is_null, as_bool, as_number, as_str};
ghost use Rattle.json_table.specs.Counts.{items_count};
ghost use Rattle.json_table.specs.Entries.{value_len, members_len, value_of};
ghost use Rattle.json_table.specs.Tails.{last_members, IsTail};
ghost use Rattle.json_table.specs.Views.{entries_from, AreValue, BeginsValue};
ghost use Rattle.json_table.specs.Shapes.{shape_view};

use json::Node as Entry;
use std::marker::Model;

/// A value in a table: the entries from a place on begin with its own. A contract sees the value.
#[derive(Drop)]
pub struct Node<'t, 'a> {
    entries: &'t [Entry<'a>],
    at: usize,
}

impl<'t, 'a> Model for Node<'t, 'a> {
    ghost use Rattle.json.specs.Json.{Json};
    ghost use Rattle.json_table.specs.Codes.{value_code};

    ghost Value = { Json };

    ghost coded = { value_code };

    ghost use Rattle.json_table.specs.Entries.{value_of};
    ghost use Rattle.json_table.specs.Views.{entries_from, AreValue};

    ghost view = { λ a. value_of (entries_from a.at a.entries.now) };

    ghost invariant = { λ a. AreValue a.entries.now a.at };
}

/// The items of an array that are left: the entries from a place on begin with theirs. A contract sees these items.
#[derive(Drop)]
pub struct Items<'t, 'a> {
    entries: &'t [Entry<'a>],
    at: usize,
}

impl<'t, 'a> Model for Items<'t, 'a> {
    ghost use Rattle.json.specs.Json.{Items};
    ghost use Rattle.json_table.specs.Codes.{items_code};

    ghost Value = { Items };

    ghost coded = { items_code };

    ghost use Rattle.json_table.specs.Entries.{items_of};
    ghost use Rattle.json_table.specs.Views.{entries_from, AreItems};

    ghost view = { λ a. items_of (entries_from a.at a.entries.now) };

    ghost invariant = { λ a. AreItems a.entries.now a.at };
}

/// The members of an object that are left: the entries from a place on, up to the end, are theirs. A contract sees
/// these members.
#[derive(Drop)]
pub struct Members<'t, 'a> {
    entries: &'t [Entry<'a>],
    at: usize,
    /// The place after the closing bracket.
    end: usize,
}

impl<'t, 'a> Model for Members<'t, 'a> {
    ghost use Rattle.json.specs.Json.{Members};
    ghost use Rattle.json_table.specs.Codes.{members_code};

    ghost Value = { Members };

    ghost coded = { members_code };

    ghost use Rattle.json_table.specs.Entries.{members_of};
    ghost use Rattle.json_table.specs.Views.{entries_from, AreMembers};

    ghost view = { λ a. members_of (entries_from a.at a.entries.now) };

    ghost invariant = { λ a. AreMembers a.entries.now a.at a.end };
}

/// What a value is: a scalar, or what is in it.
#[derive(Drop)]
pub enum Shape<'t, 'a> {
    Null,
    Boolean(bool),
    /// The text of a number.
    Number(&'a str),
    /// The text of a string, unescaped.
    String(&'a str),
    Array(Items<'t, 'a>),
    Object(Members<'t, 'a>),
}

/// The place after the value whose first entry has a place.
#[inline(always)]
fn place_after(entries: &[Entry<'_>], at: usize) -> usize
    requires { AreValue entries.now at }
    ensures { (j : Json) → BeginsValue entries.now at j → result ≡ at + value_len j }
{
    let first = entries[at];
    match first {
        Entry::Array(end) | Entry::Object(end) => end,
        _ => at + 1,
    }
}

impl<'t, 'a> Node<'t, 'a> {
    /// The value with which these entries begin.
    #[inline(always)]
    pub(crate) fn of_entries(entries: &'t [Entry<'a>]) -> Node<'t, 'a>
        requires { AreValue entries.now 0 }
        ensures { result ≡ value_of (entries_from 0 entries.now) }
    {
        Node { entries, at: 0 }
    }

    /// Returns the same value once more.
    #[inline(always)]
    pub fn copy(&self) -> Node<'t, 'a>
        ensures { result ≡ self.now }
    {
        Node {
            entries: self.entries,
            at: self.at,
        }
    }

    /// Returns what the value is.
    #[inline]
    pub fn shape(&self) -> Shape<'t, 'a>
        ensures { shape_view result ≡ self.now }
    {
        let (entries, at) = (self.entries, self.at);
        let first = entries[at];
        match first {
            Entry::Bool(b) => Shape::Boolean(b),
            Entry::Number(text) => Shape::Number(text),
            Entry::String(text) => Shape::String(text),
            Entry::Array(_) => Shape::Array(Items {
                entries,
                at: at + 1,
            }),
            Entry::Object(end) => Shape::Object(Members {
                entries,
                at: at + 1,
                end,
            }),
            // no value begins with one of the others
            Entry::Null | Entry::Key(_) | Entry::EndArray | Entry::EndObject => Shape::Null,
        }
    }

    /// Returns whether the value is null.
    #[inline]
    pub fn is_null(&self) -> bool
        ensures { result ≡ is_null self.now }
    {
        matches!(self.shape(), Shape::Null)
    }

    /// Returns the value, if it is a boolean.
    #[inline]
    pub fn as_bool(&self) -> Option<bool>
        ensures { result ≡ as_bool self.now }
    {
        match self.shape() {
            Shape::Boolean(b) => Some(b),
            _ => None,
        }
    }

    /// Returns the text of the value, if it is a number.
    #[inline]
    pub fn as_number(&self) -> Option<&'a str>
        ensures { option_map (λ s. s.now) result ≡ as_number self.now }
    {
        match self.shape() {
            Shape::Number(text) => Some(text),
            _ => None,
        }
    }

    /// Returns the text of the value, if it is a string.
    #[inline]
    pub fn as_str(&self) -> Option<&'a str>
        ensures { option_map (λ s. s.now) result ≡ as_str self.now }
    {
        match self.shape() {
            Shape::String(text) => Some(text),
            _ => None,
        }
    }
}

impl<'t, 'a> Items<'t, 'a> {
    /// Returns the same items once more.
    #[inline(always)]
    pub fn copy(&self) -> Items<'t, 'a>
        ensures { result ≡ self.now }
    {
        Items {
            entries: self.entries,
            at: self.at,
        }
    }

    /// Returns whether no item is left.
    #[inline(always)]
    pub fn is_empty(&self) -> bool
        ensures { MatchBool result (self.now ≡ no_items) (self.now ≢ no_items) }
    {
        let first = self.entries[self.at];
        matches!(first, Entry::EndArray)
    }

    /// Returns a number that is not below that of the items, for a loop over them. Which one is not promised: it may be
    /// larger.
    #[inline(always)]
    pub fn upper_bound(&self) -> usize
        ensures { items_count self.now ≤ result }
    {
        self.entries.len() - self.at
    }

    /// Takes the next item.
    #[inline]
    pub fn next(&mut self) -> Option<Node<'t, 'a>>
        ensures { MatchOption result ((self.old ≡ no_items) × (self.new ≡ no_items))
            (λ node. self.old ≡ item node self.new) }
    {
        if self.is_empty() {
            return None;
        }
        let (entries, at) = (self.entries, self.at);
        *self = Items {
            entries,
            at: place_after(entries, at),
        };
        Some(Node { entries, at })
    }
}

impl<'t, 'a> Members<'t, 'a> {
    /// Returns the same members once more.
    #[inline(always)]
    pub fn copy(&self) -> Members<'t, 'a>
        ensures { result ≡ self.now }
    {
        Members {
            entries: self.entries,
            at: self.at,
            end: self.end,
        }
    }

    /// Returns whether no member is left.
    #[inline(always)]
    pub fn is_empty(&self) -> bool
        ensures { MatchBool result (self.now ≡ no_members) (self.now ≢ no_members) }
    {
        let first = self.entries[self.at];
        matches!(first, Entry::EndObject)
    }

    /// Returns how many entries are left, with the closing bracket.
    #[inline(always)]
    pub fn left(&self) -> usize
        ensures { result ≡ members_len self.now }
    {
        self.end - self.at
    }

    /// Returns those of the members, at the end, that have this many entries.
    #[inline(always)]
    pub fn last(&self, left: usize) -> Members<'t, 'a>
        requires { IsTail left self.now }
        ensures { result ≡ last_members left self.now }
    {
        Members {
            entries: self.entries,
            at: self.end - left,
            end: self.end,
        }
    }

    /// Takes the next member: its key and its value.
    #[inline]
    pub fn next(&mut self) -> Option<(&'a str, Node<'t, 'a>)>
        ensures { MatchOption result ((self.old ≡ no_members) × (self.new ≡ no_members))
            (λ found. self.old ≡ member found.0.now found.1 self.new) }
    {
        let (entries, end) = (self.entries, self.end);
        let first = entries[self.at];
        let Entry::Key(key) = first else {
            return None;
        };
        let at = self.at + 1;
        *self = Members {
            entries,
            at: place_after(entries, at),
            end,
        };
        Some((key, Node { entries, at }))
    }
}
