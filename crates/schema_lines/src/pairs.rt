//! Which messages of a set are the protocol's: by their last names, whatever they are within.

ghost use Rattle.std.specs.Prelude.{◌≡◌, IfOk, map};
ghost use Rattle.schema_lines.specs.Named.{FindsNamed, named_of};
ghost use Rattle.schema_lines.specs.Pairs.{FindsPairs, found_at, schema_of, schemas_in};

use crate::codes::{choices, sayings_of};
use crate::error::SchemaError;
use crate::message_names::message_codes;
use crate::messages::{Messages, keys_of};
use crate::named::{named_of, with_suspensions};
use crate::renames::Rename;
use descriptor_set::DescriptorSet;
use std::alloc::{AllocError, Global};

/// The messages of the protocol with those of a set.
#[derive(Drop)]
pub(crate) struct Pairs {
    /// The index of the set's message of each schema, by its name.
    pub(crate) named: Vec<Option<usize>>,
    /// The same, where a set's one suspension is that of each version.
    pub(crate) own: Vec<Option<usize>>,
    /// The index of the set's message that payloads of each schema are read by: also by the codes that comments say.
    pub(crate) read: Vec<Option<usize>>,
}

impl Pairs {
    /// Those of a set, in which messages may have other names. Error: `Rename`.
    #[tactic(auto, unfolding(crate::specs::Pairs::read_of))]
    pub(crate) fn of(
        alloc: Global,
        set: &DescriptorSet,
        renames: &[Rename<'_>],
    ) -> Result<Pairs, SchemaError>
        ensures { FindsPairs set.now (named_of set.now renames.now) result }
    {
        let keys = keys_of(alloc, set.messages.as_slice())?;
        let messages = Messages {
            set,
            keys: keys.as_slice(),
        };
        let named = named_of(alloc, &messages, renames)?;
        let own = with_suspensions(alloc, named.as_slice())?;
        let sayings = sayings_of(alloc, set.messages.as_slice(), own.as_slice())?;
        let read = choices(alloc, sayings.as_slice(), message_codes(), own.as_slice())?;
        Ok(Pairs { named, own, read })
    }

    /// The index of the set's message of a schema, by its name.
    pub(crate) fn theirs(&self, schema: u32) -> Option<usize>
        ensures { result ≡ found_at self.now.named.items schema }
    {
        found_at(self.named.as_slice(), schema)
    }

    /// The same, where a set's one suspension is that of each version.
    pub(crate) fn own(&self, schema: u32) -> Option<usize>
        ensures { result ≡ found_at self.now.own.items schema }
    {
        found_at(self.own.as_slice(), schema)
    }

    /// These of all schemas.
    pub(crate) fn all_own(&self) -> &[Option<usize>]
        ensures { result.now ≡ self.now.own.items }
    {
        self.own.as_slice()
    }

    /// The index of the set's message that payloads of a schema are read by.
    pub(crate) fn read_by(&self, schema: u32) -> Option<usize>
        ensures { result ≡ found_at self.now.read.items schema }
    {
        found_at(self.read.as_slice(), schema)
    }

    /// These of all schemas.
    pub(crate) fn all_read(&self) -> &[Option<usize>]
        ensures { result.now ≡ self.now.read.items }
    {
        self.read.as_slice()
    }

    /// Whether a message of the set has the name of one of the protocol's.
    pub(crate) fn has(&self, index: usize) -> bool {
        self.named.contains(&Some(index))
    }
}

/// The message for a schema, if there is one.
fn found_at(found: &[Option<usize>], schema: u32) -> Option<usize>
    ensures { result ≡ found_at found.now schema }
{
    match found.get(schema as usize) {
        Some(found) => *found,
        None => None,
    }
}

/// The index of a message as one of a schema.
fn schema_of(found: Option<usize>) -> Option<u32>
    ensures { result ≡ schema_of found }
{
    match found {
        Some(index) if index < 0x1_0000_0000 => Some(index as u32),
        _ => None,
    }
}

/// The indices of messages as those of schemas.
fn numbers_of(alloc: Global, read: &[Option<usize>]) -> Result<Vec<Option<u32>>, AllocError>
    ensures { IfOk result (λ numbers. numbers.items ≡ map schema_of read.now) }
{
    let mut numbers = Vec::new(alloc);
    let mut rest = read;
    while let Some((found, after)) = rest.split_first() {
        let number = schema_of(*found);
        numbers.push(number)?;
        rest = after;
    }
    Ok(numbers)
}

/// For each schema of the protocol the index of the message of a set by which its payloads are read: the one of its
/// name, as `write_schema` finds it, unless comments of the set say another code for that; otherwise the first one that
/// says the code of its type. If a set has one suspension, it is that of each version. Error: `Rename`.
pub fn schemas_of(
    alloc: Global,
    set: &DescriptorSet,
    renames: &[Rename<'_>],
) -> Result<Vec<Option<u32>>, SchemaError>
    ensures { FindsNamed (schemas_in set.now (named_of set.now renames.now)) result }
{
    let pairs = Pairs::of(alloc, set, renames)?;
    let schemas = numbers_of(alloc, pairs.read.as_slice())?;
    Ok(schemas)
}
