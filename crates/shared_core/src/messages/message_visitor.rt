//! The record of a message's type, found at run time.
//!
//! A visitor is code that is written once for any record. What it promises is said for any type and schema, so that a
//! call by a type that is known only at run time carries the same promise.

ghost use Rattle.std.specs.Prelude.{◌≡◌, ℕ, Some};
ghost use Rattle.shared_core_base.specs.declared.header.MessageType.{MessageType as AnyType};
ghost use Rattle.shared_core_base.specs.declared.version.Version.{Version as AnyVersion};
ghost use Rattle.shared_core_message.specs.Messages.{message_schema};
ghost use Rattle.shared_core.specs.Visiting.{written_form};

use crate::messages::RestateEncodableMessage;
use std::fmt::Debug;

/// What is done with the record of a message's type.
pub trait MessageVisitor: Sized + Drop {
    /// The result.
    type Output;

    /// Whether it may be called for a type: for every type, unless an impl says otherwise.
    ghost may_visit: { Self → AnyType → Type 0 } = { λ visitor ty. Unit {0} };

    /// What it returns for a type whose payloads have this schema: anything, unless an impl says otherwise.
    ghost results: { Self → AnyType → ℕ → Self.Output → Type 0 } = { λ visitor ty schema output. Unit {0} };

    /// Visits the record of this type.
    fn visit<M: RestateEncodableMessage + Debug>(self) -> Self::Output
        requires allowed { may_visit self M.message_type }
        // its payloads have the record's schema
        requires own { message_schema M.message_type ≡ Some M.schema }
        // what the record is written as follows from the type
        requires form { (message : M) (version : AnyVersion)
            → M.wire_form message version ≡ written_form M.message_type M.schema version (M.parts message) }
        ensures { results self M.message_type M.schema result };
}
