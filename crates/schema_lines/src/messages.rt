//! Messages of a set by their names.

ghost use Rattle.std.specs.Prelude.{◌≡◌, IfOk, None};
ghost use Rattle.std.specs.List.{position};
ghost use Rattle.std.specs.Str.{bytes_eq};
ghost use Rattle.schema_lines.specs.Names.{plain};
ghost use Rattle.schema_lines.specs.Messages.{best_from, better, candidate, fit_of, found_in, full_index, HasKeys};
ghost use Rattle.schema_lines.specs.Messages.{key_of};
ghost use Rattle.schema_lines.specs.Messages.{is_better, is_empty_message, items_of, keys_of, search_of, their_index};

use crate::names::{depth, is_same, last_name, plain};
use descriptor_set::{DescriptorSet, MessageDescriptor};
use std::alloc::{AllocError, Global};

/// The messages of a set, with the plain forms of their last names.
#[derive(Clone, Copy)]
pub(crate) struct Messages<'a> {
    pub(crate) set: &'a DescriptorSet,
    pub(crate) keys: &'a [Vec<u8>],
}

/// A name that a message is looked for by.
#[derive(Clone, Copy)]
struct Wanted<'a> {
    name: &'a str,
    /// Its plain form.
    key: &'a [u8],
    /// The indices of the messages that are not found.
    taken: &'a [usize],
    /// The number of files.
    files: usize,
}

/// How well a message fits a name.
#[derive(Clone, Copy)]
struct Fit {
    /// The index of the message.
    index: usize,
    /// Its last name is another one of the same plain form.
    is_other: bool,
    /// The number of files from its own on.
    files_after: usize,
    /// How deep it is.
    depth: usize,
}

/// The plain forms of the last names of messages.
pub(crate) fn keys_of(
    alloc: Global,
    messages: &[MessageDescriptor],
) -> Result<Vec<Vec<u8>>, AllocError>
    ensures { IfOk result (λ keys. items_of keys.items ≡ keys_of messages.now) }
{
    let mut keys = Vec::new(alloc);
    let mut rest = messages;
    while let Some((message, after)) = rest.split_first() {
        let key = plain(alloc, last_name(message.name.as_str()))?;
        keys.push(key)?;
        rest = after;
    }
    Ok(keys)
}

/// Whether a message of a set is protobuf's without fields, and the name is that of the protocol's.
fn is_empty_message(name: &str, message: &MessageDescriptor) -> bool
    ensures { result ≡ is_empty_message name.now message.now }
{
    is_same(name, "Void")
        && is_same(last_name(message.name.as_str()), "Empty")
        && message.fields.is_empty()
}

/// How well a message fits a name.
#[tactic(auto, unfolding(crate::specs::Messages::fit_of))]
fn fit_of(wanted: &Wanted<'_>, index: usize, message: &MessageDescriptor) -> Fit
    ensures { result ≡ fit_of (search_of wanted.now) index message.now }
{
    let is_same = is_same(last_name(message.name.as_str()), wanted.name);
    Fit {
        index,
        is_other: !is_same,
        files_after: wanted.files.saturating_sub(message.file),
        depth: depth(message.name.as_str()),
    }
}

/// How well a message fits a name, if it has that in some form and is not taken.
#[tactic(auto, unfolding(crate::specs::Messages::candidate))]
fn candidate(
    wanted: &Wanted<'_>,
    index: usize,
    message: &MessageDescriptor,
    key: &[u8],
) -> Option<Fit>
    requires wanted_key { wanted.now.key.now ≡ plain wanted.now.name.now }
    requires own_key { key.now ≡ key_of message.now }
    ensures { result ≡ candidate (search_of wanted.now) index message.now }
{
    if key != wanted.key && !is_empty_message(wanted.name, message) {
        return None;
    }
    if wanted.taken.contains(&index) {
        return None;
    }
    Some(fit_of(wanted, index, message))
}

/// Whether a message fits better than an earlier one: its last name is the same, or else its file is a later one, since
/// what a file imports comes before it, or else it is less deep.
fn is_better(one: &Fit, earlier: &Fit) -> bool
    ensures { result ≡ is_better one.now earlier.now }
{
    match (one.is_other, earlier.is_other) {
        (true, false) => false,
        (false, true) => true,
        _ if one.files_after == earlier.files_after => one.depth < earlier.depth,
        _ => one.files_after < earlier.files_after,
    }
}

/// The one of two that fits better, if there is one; the first one if neither does.
fn better(earlier: Option<Fit>, one: Option<Fit>) -> Option<Fit>
    ensures { result ≡ better earlier one }
{
    match (earlier, one) {
        (Some(earlier), Some(one)) => {
            if is_better(&one, &earlier) {
                Some(one)
            } else {
                Some(earlier)
            }
        }
        (Some(earlier), None) => Some(earlier),
        (None, one) => one,
    }
}

/// The message that fits a name best.
fn best_of(wanted: &Wanted<'_>, messages: &[MessageDescriptor], keys: &[Vec<u8>]) -> Option<Fit>
    requires wanted_key { wanted.now.key.now ≡ plain wanted.now.name.now }
    requires own_keys { items_of keys.now ≡ keys_of messages.now }
    ensures { result ≡ best_from (search_of wanted.now) 0 None messages.now }
{
    let mut best = None;
    let mut rest = messages;
    let mut left = keys;
    let mut index: usize = 0;
    while let Some((message, after)) = rest.split_first() {
        let Some((key, others)) = left.split_first() else {
            return best;
        };
        let one = candidate(wanted, index, message, key.as_slice());
        best = better(best, one);
        rest = after;
        left = others;
        index += 1;
    }
    best
}

/// The index of the message of a set with a last name: of those of the same name, or else of the same plain one, it is
/// of the last file, since what a file imports comes before it, and the least deep there. Those that are taken are not
/// found.
#[tactic(auto, unfolding(crate::specs::Messages::found_in))]
pub(crate) fn find(
    alloc: Global,
    messages: &Messages<'_>,
    taken: &[usize],
    name: &str,
) -> Result<Option<usize>, AllocError>
    requires { HasKeys messages.now }
    ensures { IfOk result (λ found. found ≡ found_in messages.now.set.now taken.now name.now) }
{
    let key = plain(alloc, name)?;
    let wanted = Wanted {
        name,
        key: key.as_slice(),
        taken,
        files: messages.set.files.len(),
    };
    match best_of(&wanted, messages.set.messages.as_slice(), messages.keys) {
        Some(fit) => Ok(Some(fit.index)),
        None => Ok(None),
    }
}

/// The index of the message of a full name.
fn full_index(messages: &[MessageDescriptor], name: &str) -> Option<usize>
    ensures { result ≡ full_index messages.now name.now }
{
    messages
        .iter()
        .position(|message| is_same(message.name.as_str(), name))
}

/// The index of the message of a set of a full name, or else of a last name.
#[tactic(auto, unfolding(crate::specs::Messages::their_index))]
pub(crate) fn their_index(
    alloc: Global,
    messages: &Messages<'_>,
    name: &str,
) -> Result<Option<usize>, AllocError>
    requires { HasKeys messages.now }
    ensures { IfOk result (λ found. found ≡ their_index messages.now.set.now name.now) }
{
    match full_index(messages.set.messages.as_slice(), name) {
        Some(index) => Ok(Some(index)),
        None => find(alloc, messages, &[], name),
    }
}
