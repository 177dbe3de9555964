//! The trait of the records that are messages: `RestateMessage`, for the type. How they are written is said in
//! `shared_core_frames`, which needs more of a record than this.

ghost use Rattle.std.specs.Prelude.{◌≡◌};
ghost use Rattle.shared_core_base.specs.declared.header.MessageType.{MessageType as AnyType};
ghost use Rattle.shared_core_base.specs.MessageType.{IsNamed};
ghost use Rattle.shared_core_message.specs.Messages.{IsSchemaOf};

use shared_core_base::header::MessageType;
use shared_core_codec::record::WireRecord;

/// A record that is the payload of messages of a type.
pub trait RestateMessage: WireRecord {
    /// The type of its messages.
    ghost message_type: { AnyType };

    /// The type of its messages.
    fn ty() -> MessageType
        ensures { result ≡ message_type };

    /// The type has a name.
    ghost named: { IsNamed message_type };

    /// The record's schema is that of the payloads of the type.
    ghost own_schema: { IsSchemaOf message_type Self.schema };
}
