//! What is read of a set, in the order of names.

ghost use Rattle.std.specs.Prelude.{◌≡◌, IfErr, IfOk, OnOk, is_some};
ghost use Rattle.descriptor_set.specs.Reading.{BlamesOrder, IsSortedOf};
ghost use Rattle.descriptor_set.specs.Sets.{AreInOrder, enum_less, has_equal_neighbours, message_less};

use crate::error::DescriptorError;
use crate::read::place_in;
use crate::reading::Reading;
use crate::set::{DescriptorSet, EnumDescriptor, MessageDescriptor};
use std::alloc::AllocError;

/// The set, in the order of names.
pub(crate) fn sorted(read: Reading) -> Result<DescriptorSet, DescriptorError>
    ensures sorted { IfOk result (λ set. IsSortedOf read set) }
    ensures blamed { IfErr result (λ error. BlamesOrder error read.messages.items) }
{
    let mut messages = read.messages;
    sort_messages(&mut messages)?;
    let mut enums = read.enums;
    sort_enums(&mut enums)?;
    if let Some(twice) = first_twice(messages.as_slice()) {
        let place = place_in(
            read.alloc,
            read.files.as_slice(),
            twice.file,
            twice.name.as_str(),
        )?;
        return Err(DescriptorError::MessageTwice(place));
    }
    Ok(DescriptorSet {
        files: read.files,
        messages,
        enums,
    })
}

fn sort_messages(messages: &mut Vec<MessageDescriptor>) -> Result<(), AllocError>
    ensures { OnOk result (AreInOrder message_less messages.old.items messages.new.items) }
{
    messages.sort_by(|one, other| one.name.cmp(&other.name))
}

fn sort_enums(enums: &mut Vec<EnumDescriptor>) -> Result<(), AllocError>
    ensures { OnOk result (AreInOrder enum_less enums.old.items enums.new.items) }
{
    enums.sort_by(|one, other| one.name.cmp(&other.name))
}

/// The first of some sorted messages that has the name of the one before it.
fn first_twice(messages: &[MessageDescriptor]) -> Option<&MessageDescriptor>
    ensures { is_some result ≡ has_equal_neighbours messages.now }
{
    let mut rest = messages;
    while let Some((first, after)) = rest.split_first() {
        if let Some(next) = after.first() {
            if first.name == next.name {
                return Some(next);
            }
        }
        rest = after;
    }
    None
}
