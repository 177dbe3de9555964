//! `Display` of the contents of fields, as a difference prints them.

ghost use Rattle.std.specs.Fmt.{WritesOnOk};
ghost use Rattle.shared_core_compare.specs.Differences.{member_text, message_text};

use shared_core_codec::oneof::OneOf;
use shared_core_codec::record::WireRecord;
use shared_core_parts::failure::Failure;
use shared_core_parts::idempotent_request_target::IdempotentRequestTarget;
use shared_core_parts::state_keys::StateKeys;
use shared_core_parts::texts::StateKeysText;
use shared_core_parts::value::Value;
use shared_core_parts::void::Void;
use shared_core_parts::workflow_target::WorkflowTarget;
use std::fmt;
use std::fmt::Formatter;

/// A nested message, as a difference prints it.
pub(crate) trait PrintedMessage: WireRecord {
    /// Writes what the message prints.
    fn write_message<W: fmt::Write>(&self, f: &mut Formatter<W>) -> fmt::Result
        ensures { WritesOnOk W.write_str_gives f.old result (message_text Self.schema (Self.parts self.now)) f.new };
}

/// A oneof, as a difference prints it.
pub(crate) trait PrintedOneOf: OneOf {
    /// Writes what the member prints.
    fn write_member<W: fmt::Write>(&self, f: &mut Formatter<W>) -> fmt::Result
        ensures { WritesOnOk W.write_str_gives f.old result (member_text Self.members (Self.part self.now)) f.new };
}

impl PrintedMessage for Void {
    fn write_message<W: fmt::Write>(&self, f: &mut Formatter<W>) -> fmt::Result {
        f.write_str("void")
    }
}

impl PrintedMessage for Value {
    fn write_message<W: fmt::Write>(&self, f: &mut Formatter<W>) -> fmt::Result {
        write!(f, "{self}")
    }
}

impl PrintedMessage for Failure {
    fn write_message<W: fmt::Write>(&self, f: &mut Formatter<W>) -> fmt::Result {
        write!(f, "{self}")
    }
}

#[tactic(auto, using(crate::proofs::Elements::byte_strings))]
impl PrintedMessage for StateKeys {
    fn write_message<W: fmt::Write>(&self, f: &mut Formatter<W>) -> fmt::Result {
        let keys = StateKeysText(self);
        write!(f, "{keys}")
    }
}

impl PrintedMessage for IdempotentRequestTarget {
    fn write_message<W: fmt::Write>(&self, f: &mut Formatter<W>) -> fmt::Result {
        f.write_str("IdempotentRequestTarget")
    }
}

impl PrintedMessage for WorkflowTarget {
    fn write_message<W: fmt::Write>(&self, f: &mut Formatter<W>) -> fmt::Result {
        f.write_str("WorkflowTarget")
    }
}
