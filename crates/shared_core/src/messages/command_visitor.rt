//! The record of a command's type, found at run time.

ghost use Rattle.std.specs.Prelude.{◌≡◌, ℕ, Some};
ghost use Rattle.shared_core_base.specs.declared.header.MessageType.{MessageType as AnyType};
ghost use Rattle.shared_core_message.specs.Messages.{message_schema};

use crate::messages::{
    CommandMessageHeaderDiff, CommandMessageHeaderEq, NamedCommandMessage, RestateEncodableMessage,
};
use std::fmt::Debug;

/// The record of a command: a message that is written, has a name, and is compared with what was recorded.
pub trait CommandMessage: RestateEncodableMessage
    + NamedCommandMessage
    + CommandMessageHeaderEq
    + CommandMessageHeaderDiff
    + Debug {}

impl<M> CommandMessage for M
where
    M: RestateEncodableMessage
        + NamedCommandMessage
        + CommandMessageHeaderEq
        + CommandMessageHeaderDiff
        + Debug,
{}

/// What is done with the record of a command's type.
pub trait CommandVisitor: Sized + Drop {
    /// The result.
    type Output;

    /// Whether it may be called for a type: for every type, unless an impl says otherwise.
    ghost may_visit: { Self → AnyType → Type 0 } = { λ visitor ty. Unit {0} };

    /// What it returns for a type whose payloads have this schema: anything, unless an impl says otherwise.
    ghost results: { Self → AnyType → ℕ → Self.Output → Type 0 } = { λ visitor ty schema output. Unit {0} };

    /// Visits the record of this type.
    fn visit<M: CommandMessage>(self) -> Self::Output
        requires allowed { may_visit self M.message_type }
        // its payloads have the record's schema
        requires own { message_schema M.message_type ≡ Some M.schema }
        ensures { results self M.message_type M.schema result };
}
