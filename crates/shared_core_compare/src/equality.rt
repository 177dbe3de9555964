//! Whether two commands are equal, apart from what a replay may change.
//!
//! The helpers state their results on values, so that the chains of `&&` in the commands need no proof file. Payloads
//! are compared last, since they are the longest.

ghost use Rattle.std.specs.Prelude.{◌≡◌, ◌↔◌, IsTrue};
ghost use Rattle.shared_core_codec.specs.FieldParts.{elements_part, message_part, option_part};
ghost use Rattle.shared_core_compare.specs.Erasure.{erased};

use shared_core_codec::oneof::OneOf;
use shared_core_codec::record::WireRecord;

/// Commands that are compared with recorded ones.
///
/// A replay may change some fields, which are never compared: all of `InputCommandMessage`, the time and the completion
/// id of `SleepCommandMessage`, the time of `OneWayCallCommandMessage`. Payloads are what user code passes as bytes:
/// the parameters of calls, the value of `SetStateCommandMessage`, and the value (no failure) that
/// `OutputCommandMessage`, `GetEagerStateCommandMessage`, `CompletePromiseCommandMessage` and
/// `CompleteAwakeableCommandMessage` hold. What a signal carries is not a payload. (This project's own, as in the Rust
/// crate; the table is `commands`.)
pub trait CommandMessageHeaderEq: WireRecord {
    /// Whether the two are equal, apart from the fields that are never compared and, if payloads are ignored, the bytes
    /// of payloads. Whether an optional payload is present is always compared. Does not allocate, and stops at the
    /// first field that differs.
    fn header_eq(&self, other: &Self, ignore_payload_equality: bool) -> bool
        ensures { IsTrue result ↔ (erased Self.schema ignore_payload_equality (Self.parts self.now)
            ≡ erased Self.schema ignore_payload_equality (Self.parts other.now)) };
}

/// Whether two records are equal.
pub(crate) fn same_record<M: WireRecord>(message: &M, other: &M) -> bool
    ensures { IsTrue result ↔ (M.parts message.now ≡ M.parts other.now) }
{
    message == other
}

/// Whether two optional messages are equal.
pub(crate) fn same_message<M: WireRecord>(message: &Option<M>, other: &Option<M>) -> bool
    ensures { IsTrue result ↔ (option_part (message_part M.parts) message.now
        ≡ option_part (message_part M.parts) other.now) }
{
    message == other
}

/// Whether two lists of messages are equal.
pub(crate) fn same_messages<M: WireRecord>(messages: &Vec<M>, others: &Vec<M>) -> bool
    ensures { IsTrue result ↔ (elements_part (message_part M.parts) messages.now.items
        ≡ elements_part (message_part M.parts) others.now.items) }
{
    messages == others
}

/// Whether two oneofs are equal.
pub(crate) fn same_oneof<T: OneOf>(oneof: &Option<T>, other: &Option<T>) -> bool
    ensures { IsTrue result ↔ (option_part T.part oneof.now ≡ option_part T.part other.now) }
{
    oneof == other
}
