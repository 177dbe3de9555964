//! What may be wrong with a stream.

ghost use Rattle.std.specs.Prelude.{◌≡◌};
ghost use Rattle.replay_bench.specs.Survey.{fault_at, is_malformed as found_malformed};

use shared_core::encoding::Item;
use shared_core::header::MessageType;
use shared_core::version::Version;
use shared_core_message::well_formed::is_well_formed_at;
use std::fmt;

/// Something that is wrong with a stream, and where.
#[derive(Clone, Copy, Debug, PartialEq, Eq, Drop)]
pub struct Fault {
    /// The offset in the stream, in bytes, of the item, or of the bytes that are in none.
    pub offset: u128,
    /// What is wrong.
    pub reason: FaultReason,
}

/// What is wrong with an item, or after the last one.
#[derive(Clone, Copy, Debug, PartialEq, Eq, Drop)]
pub enum FaultReason {
    /// The code of a header is unassigned, at a version before V9.
    UnknownHeader(u16),
    /// The payload of a message of this type is not well-formed for the type.
    Malformed(MessageType),
    /// This many bytes after the last complete item are in none.
    Rest(u64),
}

impl fmt::Display for FaultReason {
    ghost use Rattle.std.specs.Prelude.{Some};
    ghost use Rattle.replay_bench.specs.FaultTexts.{reason_text};

    ghost output = { λ reason. Some (reason_text reason) };

    fn fmt<W: fmt::Write>(&self, f: &mut fmt::Formatter<W>) -> fmt::Result {
        match self {
            FaultReason::UnknownHeader(code) => write!(f, "unknown header 0x{code:x}"),
            FaultReason::Malformed(ty) => write!(f, "malformed payload of {}", ty.debug_name()),
            FaultReason::Rest(1) => f.write_str("1 byte after the last whole item"),
            FaultReason::Rest(count) => write!(f, "{count} bytes after the last whole item"),
        }
    }
}

impl fmt::Display for Fault {
    ghost use Rattle.std.specs.Prelude.{Some};
    ghost use Rattle.replay_bench.specs.FaultTexts.{fault_text};

    ghost output = { λ fault. Some (fault_text fault) };

    fn fmt<W: fmt::Write>(&self, f: &mut fmt::Formatter<W>) -> fmt::Result {
        let offset = self.offset;
        let reason = self.reason;
        write!(f, "offset {offset}: {reason}")
    }
}

/// What is wrong with the item at an offset, which is malformed or not.
pub(crate) fn fault_at(offset: u128, is_malformed: bool, item: &Item) -> Option<Fault>
    ensures { result ≡ fault_at offset is_malformed item.now }
{
    let reason = match item {
        Item::Message(message) if is_malformed => FaultReason::Malformed(message.ty()),
        Item::Unknown(code) => FaultReason::UnknownHeader(*code),
        _ => return None,
    };
    Some(Fault { offset, reason })
}

/// Whether an item is a message whose payload is not well-formed, if that is looked for.
pub(crate) fn is_malformed(version: Version, is_strict: bool, item: &Item) -> bool
    ensures { result ≡ found_malformed version is_strict item.now }
{
    let Item::Message(message) = item else {
        return false;
    };
    is_strict && !is_well_formed_at(version, message.ty(), message.payload().as_slice())
}
