//! The laws of redaction. Each is the contract of a function that does nothing.

ghost use Rattle.std.specs.Prelude.{◌≡◌, ℕ, List, length, map, true};
ghost use Rattle.std.specs.Str.{is_utf8};
ghost use Rattle.shared_core_base.specs.declared.header.MessageType.{MessageType};
ghost use Rattle.shared_core_base.specs.declared.version.Version.{Version};
ghost use Rattle.shared_core_wire.specs.Grammar.{FieldRecord, IsRecordListWithin};
ghost use Rattle.shared_core_wire.specs.Schema.{Row};
ghost use Rattle.shared_core_message.specs.Schemas.{is_well_formed_at};
ghost use Rattle.shared_core_stream.specs.Items.{SplitsInto};
ghost use Rattle.shared_core_stream.specs.declared.encoding.item.Item.{Item as AnyItem};
ghost use Rattle.stream_redaction.specs.declared.key.Key.{Key as AnyKey};
ghost use Rattle.stream_redaction.specs.Redaction.{redacted_nested, redacted_payload, redacted_record};
ghost use Rattle.stream_redaction.specs.Redaction.{redacted_records};
ghost use Rattle.stream_redaction.specs.Replacement.{replacement};
ghost use Rattle.stream_redaction.specs.Streams.{AreBytes, IsAlike, item_redacted, redacted_rest, stream_redacted};

/// What a content is replaced by has as many bytes, and is a text.
pub fn replacements_fit()
    ensures long { (key : AnyKey) (content : List ℕ) → length (replacement key content) ≡ length content }
    ensures text { (key : AnyKey) (content : List ℕ) → is_utf8 (replacement key content) ≡ true }
{}

/// A redacted payload encodes the records that the payload does, each of them redacted: with the same field number, and
/// if its value is a number or of four or eight bytes, the same value.
pub fn redacted_payloads_have_the_records()
    ensures { (key : AnyKey) (left : ℕ) (rows : List Row) (payload : List ℕ) (rs : List FieldRecord)
        → IsRecordListWithin left payload rs
        → IsRecordListWithin left (redacted_records key left rows payload)
        (map (redacted_record key (redacted_nested key left) rows) rs) }
{}

/// A redacted payload is as long as the payload, and well-formed for its type if and only if the payload is.
pub fn redacted_payloads_are_alike()
    ensures long { (key : AnyKey) (version : Version) (ty : MessageType) (payload : List ℕ)
        → length (redacted_payload key version ty payload) ≡ length payload }
    ensures well_formed { (key : AnyKey) (version : Version) (ty : MessageType) (payload : List ℕ)
        → is_well_formed_at version ty (redacted_payload key version ty payload)
        ≡ is_well_formed_at version ty payload }
{}

/// What is written for a whole stream splits, at the same version, into as many items, in the same order: each has the
/// kind, the type or code, the flags and the length that it had, and its payload redacted. The trailing bytes are those
/// that no item begins with either. (A slice is of bytes.)
pub fn redacted_streams_split_alike()
    ensures split { (key : AnyKey) (version : Version) (stream rest : List ℕ) (items : List AnyItem)
        → AreBytes stream → SplitsInto version stream items rest
        → SplitsInto version (stream_redacted key version stream items rest)
        (map (item_redacted key version) items) (redacted_rest rest) }
    ensures alike { (key : AnyKey) (version : Version) (item : AnyItem)
        → IsAlike item (item_redacted key version item) }
{}
