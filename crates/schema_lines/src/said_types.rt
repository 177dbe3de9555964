//! The types that only a set has.

use crate::codes::sayings_of;
use crate::error::SchemaError;
use crate::message_names::MESSAGE_CODES;
use crate::pairs::Pairs;
use crate::renames::Rename;
use descriptor_set::DescriptorSet;
use std::alloc::Global;

/// A type that the protocol does not have: the code that a message of a set says.
#[derive(Clone, Copy, Debug, PartialEq, Eq, Drop)]
pub struct OtherType {
    /// The code of the type.
    pub code: u16,
    /// The index of the message.
    pub message: usize,
}

/// The types that only a set has, by the codes which comments of its messages say, in the order of the messages. Those
/// of messages with a name of the protocol are not among them. Error: `Rename`.
pub fn other_types(
    alloc: Global,
    set: &DescriptorSet,
    renames: &[Rename<'_>],
) -> Result<Vec<OtherType>, SchemaError> {
    let pairs = Pairs::of(alloc, set, renames)?;
    let sayings = sayings_of(alloc, set.messages.as_slice(), pairs.all_own())?;
    let mut types = Vec::new(alloc);
    for saying in &sayings {
        let Ok(code) = u16::try_from(saying.code) else {
            continue;
        };
        if !MESSAGE_CODES.contains(&Some(saying.code)) && !pairs.has(saying.message) {
            types.push(OtherType {
                code,
                message: saying.message,
            })?;
        }
    }
    Ok(types)
}
