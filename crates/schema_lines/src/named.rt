//! The messages of a set for the protocol's, by names and renames.

ghost use Rattle.std.specs.Prelude.{◌≡◌, Err, IfOk, None, Ok, slice_get};
ghost use Rattle.schema_lines.specs.MessageNames.{texts};
ghost use Rattle.schema_lines.specs.Messages.{HasKeys};
ghost use Rattle.schema_lines.specs.Named.{Adds, filled, FindsNamed, is_free, named_of, none_of, our_place, place_in};
ghost use Rattle.schema_lines.specs.Named.{own_of, renamed, renamed_from, Renames, start, state_of, suspended};
ghost use Rattle.schema_lines.specs.Named.{suspension_after};
ghost use Rattle.schema_lines.specs.Named.{with_suspensions};

use crate::error::SchemaError;
use crate::message_names::message_names;
use crate::messages::{Messages, find, their_index};
use crate::names::{is_same, plain};
use crate::renames::{Rename, RenameFault};
use std::alloc::{AllocError, Global};

/// The message of a set for each schema that a rename names, and the indices of these messages.
#[derive(Drop)]
struct Renamed {
    named: Vec<Option<usize>>,
    taken: Vec<usize>,
}

/// No message for each of some names.
fn none_of(alloc: Global, names: &[&str]) -> Result<Vec<Option<usize>>, AllocError>
    ensures { IfOk result (λ named. named.items ≡ none_of (texts names.now)) }
{
    let mut named = Vec::new(alloc);
    for _name in names {
        named.push(None)?;
    }
    Ok(named)
}

/// The index of the first of some names that has a plain form.
#[tactic(auto, using(crate::proofs::Steps::drop_item))]
fn place_in(alloc: Global, names: &[&str], key: &[u8]) -> Result<Option<usize>, AllocError>
    ensures { IfOk result (λ place. place ≡ place_in key.now 0 (texts names.now)) }
{
    for (place, name) in names.iter().enumerate() {
        let own = plain(alloc, name)?;
        if own.as_slice() == key {
            return Ok(Some(place));
        }
    }
    Ok(None)
}

/// The index of the schema of a name of the protocol, in any form.
#[tactic(auto, unfolding(crate::specs::Named::our_place))]
fn our_place(alloc: Global, name: &str) -> Result<Option<usize>, AllocError>
    ensures { IfOk result (λ place. place ≡ our_place name.now) }
{
    let key = plain(alloc, name)?;
    place_in(alloc, message_names(), key.as_slice())
}

/// Whether a place is there and has no message.
fn is_free(named: &[Option<usize>], place: usize) -> bool
    ensures { result ≡ is_free (slice_get named.now place) }
{
    match named.get(place) {
        Some(None) => true,
        _ => false,
    }
}

impl Renamed {
    /// Adds the message that a rename names, or returns what is wrong with it.
    #[tactic(auto, unfolding(crate::specs::Named::renamed))]
    fn add(
        &mut self,
        alloc: Global,
        messages: &Messages<'_>,
        rename: &Rename<'_>,
    ) -> Result<Option<RenameFault>, AllocError>
        requires { HasKeys messages.now }
        ensures { IfOk result (Adds (renamed messages.now.set.now (state_of self.old) rename.now) (state_of self.new)) }
    {
        let Some(place) = our_place(alloc, rename.ours)? else {
            return Ok(Some(RenameFault::UnknownHere));
        };
        let Some(message) = their_index(alloc, messages, rename.theirs)? else {
            return Ok(Some(RenameFault::UnknownThere));
        };
        if !is_free(self.named.as_slice(), place) {
            return Ok(Some(RenameFault::Twice));
        }
        self.named[place] = Some(message);
        self.taken.push(message)?;
        Ok(None)
    }
}

/// The messages that renames name.
#[tactic(auto, using(crate::proofs::Steps::drop_item), unfolding(crate::specs::Named::start))]
fn by_renames(
    alloc: Global,
    messages: &Messages<'_>,
    renames: &[Rename<'_>],
) -> Result<Renamed, SchemaError>
    requires { HasKeys messages.now }
    ensures { Renames (renamed_from messages.now.set.now 0 start renames.now) result }
{
    let mut found = Renamed {
        named: none_of(alloc, message_names())?,
        taken: Vec::new(alloc),
    };
    for (index, rename) in renames.iter().enumerate() {
        if let Some(fault) = found.add(alloc, messages, rename)? {
            return Err(SchemaError::Rename(index, fault));
        }
    }
    Ok(found)
}

/// The message for each name: the one of its rename, or else the one that it finds.
#[tactic(auto, using(crate::proofs::Steps::drop_item))]
fn filled(
    alloc: Global,
    messages: &Messages<'_>,
    renamed: &Renamed,
    names: &[&str],
) -> Result<Vec<Option<usize>>, AllocError>
    requires { HasKeys messages.now }
    ensures { IfOk result (λ all. all.items
        ≡ filled messages.now.set.now renamed.now.taken.items (texts names.now) renamed.now.named.items) }
{
    let mut all = Vec::new(alloc);
    let taken = renamed.taken.as_slice();
    let mut left = renamed.named.as_slice();
    for name in names {
        let Some((found, others)) = left.split_first() else {
            return Ok(all);
        };
        let other = find(alloc, messages, taken, name)?;
        all.push(found.or(other))?;
        left = others;
    }
    Ok(all)
}

/// The message of a set for each schema, by names.
#[tactic(auto, unfolding(crate::specs::Named::named_of))]
pub(crate) fn named_of(
    alloc: Global,
    messages: &Messages<'_>,
    renames: &[Rename<'_>],
) -> Result<Vec<Option<usize>>, SchemaError>
    requires { HasKeys messages.now }
    ensures { FindsNamed (named_of messages.now.set.now renames.now) result }
{
    let renamed = by_renames(alloc, messages, renames)?;
    let all = filled(alloc, messages, &renamed, message_names())?;
    Ok(all)
}

/// The message of a set for each name. If it has one suspension, it is that of each version. One that was found before
/// may be there.
#[tactic(auto, using(crate::proofs::Steps::drop_item))]
fn suspended(
    alloc: Global,
    names: &[&str],
    named: &[Option<usize>],
) -> Result<Vec<Option<usize>>, AllocError>
    ensures { IfOk result (λ own. own.items ≡ suspended None (texts names.now) named.now) }
{
    let mut own = Vec::new(alloc);
    let mut suspension = None;
    let mut left = named;
    for name in names {
        let Some((found, others)) = left.split_first() else {
            return Ok(own);
        };
        suspension = suspension_after(suspension, name, *found);
        let message = own_of(suspension, name, *found);
        own.push(message)?;
        left = others;
    }
    Ok(own)
}

/// The message of the later suspension, if it is found by this name or was before.
fn suspension_after(before: Option<usize>, name: &str, found: Option<usize>) -> Option<usize>
    ensures { result ≡ suspension_after before name.now found }
{
    if is_same(name, "SuspensionMessage") {
        found
    } else {
        before
    }
}

/// The message for a name: for the earlier suspension the later one, if there is no own one.
fn own_of(suspension: Option<usize>, name: &str, found: Option<usize>) -> Option<usize>
    ensures { result ≡ own_of suspension name.now found }
{
    match found {
        None if is_same(name, "SuspensionMessageV6") => suspension,
        _ => found,
    }
}

/// The message of a set for each schema. If it has one suspension, it is that of each version.
#[tactic(auto, unfolding(crate::specs::Named::with_suspensions))]
pub(crate) fn with_suspensions(
    alloc: Global,
    named: &[Option<usize>],
) -> Result<Vec<Option<usize>>, AllocError>
    ensures { IfOk result (λ own. own.items ≡ with_suspensions named.now) }
{
    suspended(alloc, message_names(), named)
}
