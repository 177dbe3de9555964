//! Why a payload is not well-formed.

ghost use Rattle.std.specs.Prelude.{◌≡◌};
ghost use Rattle.shared_core_codec.specs.ProgramRows.{kind_view};
ghost use Rattle.explain_lines.specs.Reasons.{kind_text, kind_wire};

use shared_core_codec::rows::Kind;
use std::fmt;

/// Why a payload is not well-formed at the offset where its explanation ends.
#[derive(Clone, Copy)]
pub enum Reason {
    /// A varint goes on after the last byte.
    CutVarint,
    /// A varint is longer than ten bytes, or its number than 64 bits.
    LongVarint,
    /// A key has more than 32 bits.
    LongKey,
    /// A key has the field number 0.
    NoNumber,
    /// A key has a wire type that does not exist.
    NoWireType(u8),
    /// A group of this number ends that did not begin.
    NoGroup(u32),
    /// A group of this number does not end, or its content is malformed.
    OpenGroup(u32),
    /// A value has this number of bytes, and fewer are left.
    Beyond(u64),
    /// A field of this kind has another wire type.
    WireType(Kind),
    /// A text is not UTF-8.
    NotUtf8,
    /// A message or a group is nested too deep.
    TooDeep,
}

impl fmt::Display for Reason {
    ghost use Rattle.std.specs.Prelude.{Some};
    ghost use Rattle.explain_lines.specs.Reasons.{reason_text};

    ghost output = { λ reason. Some (reason_text reason) };

    #[tactic(auto, unfolding(crate::specs::Reasons::misplaced_text))]
    fn fmt<W: fmt::Write>(&self, f: &mut fmt::Formatter<W>) -> fmt::Result {
        match self {
            Reason::CutVarint => f.write_str("the varint goes on after the last byte"),
            Reason::LongVarint => f.write_str("the varint has more than 64 bits"),
            Reason::LongKey => f.write_str("the key has more than 32 bits"),
            Reason::NoNumber => f.write_str("the key has the field number 0"),
            Reason::NoWireType(wire) => write!(f, "there is no wire type {wire}"),
            Reason::NoGroup(number) => write!(f, "group {number} ends and did not begin"),
            Reason::OpenGroup(number) => {
                write!(f, "group {number} does not end, or is malformed")
            }
            Reason::Beyond(size) => write!(f, "the value has {size} bytes, and fewer are left"),
            Reason::WireType(kind) => {
                let name = name_of_kind(*kind);
                let wire = wire_type_of(*kind);
                write!(f, "the field is {name}, which has wire type {wire}")
            }
            Reason::NotUtf8 => f.write_str("the text is not UTF-8"),
            Reason::TooDeep => f.write_str("messages are nested more than 100 levels deep"),
        }
    }
}

/// What a field of a kind is, in words.
fn name_of_kind(kind: Kind) -> &'static str
    ensures { result.now ≡ kind_text (kind_view kind) }
{
    match kind {
        Kind::U32 => "a uint32",
        Kind::U64 => "a uint64",
        Kind::Boolean => "a bool",
        Kind::Enumeration => "an enum",
        Kind::Text => "a text",
        Kind::ByteString => "bytes",
        Kind::Message(_) => "a message",
    }
}

/// The wire type of a field of a kind.
fn wire_type_of(kind: Kind) -> u8
    ensures { result ≡ kind_wire (kind_view kind) }
{
    match kind {
        Kind::Text | Kind::ByteString | Kind::Message(_) => 2,
        _ => 0,
    }
}
