//! Laws of frames, and of what they decode to. Each law is the contract of a function that does nothing. Those of
//! streams are in `shared_core_stream::laws`.

ghost use Rattle.std.specs.Prelude.{◌≡◌, ◌≢◌, ◌≤◌, ◌<◌, ◌^◌, ℕ, ◌++◌, List, None, Some, true};
ghost use Rattle.shared_core_base.specs.declared.version.Version.{Version};
ghost use Rattle.shared_core.specs.Items.{IsItemsThen};
ghost use Rattle.shared_core.specs.Written.{AreFrames, items_written, joined_frames};
ghost use Rattle.shared_core.specs.Decoded.{DecodesTo, FrameEncodes, requested_ack_of};
ghost use Rattle.shared_core_base.specs.declared.header.MessageType.{MessageType as AnyType};
ghost use Rattle.shared_core_base.specs.declared.header.MessageType.TheVariants.{ProposeRunCompletion, Suspension};
ghost use Rattle.shared_core_base.specs.MessageType.{IsNamed, code_of};
ghost use Rattle.shared_core_wire.specs.Canonical.{levels};
ghost use Rattle.shared_core_wire.specs.Fitting.{Fits};
ghost use Rattle.shared_core_wire.specs.Value.{Parts};
ghost use Rattle.shared_core_wire.specs.Template.{is_within_template};
ghost use Rattle.shared_core_codec.specs.Table.{notification_template, table};
ghost use Rattle.shared_core_message.specs.Messages.{message_schema};
ghost use Rattle.shared_core_codec.specs.Table as tables;
ghost use Rattle.shared_core_message.specs.Frames.{WireForm, wire_size};
ghost use Rattle.shared_core_runtime.specs.Flattening.{flattened};
ghost use Rattle.shared_core_base.specs.Version.{has_flat_suspensions, requests_acknowledgement};
ghost use Rattle.shared_core_runtime.specs.Versions.{proposal_form, suspension_form};

/// Frames written one after the other are items in this order, whatever follows them: each is a message of its type
/// with the payload that was written. So `decode_pieces` returns them first, however the stream is split.
pub fn frames_are_read_in_order()
    ensures { (version : Version) (messages : List (AnyType × WireForm)) (rest : List ℕ) → AreFrames messages
        → IsItemsThen version (joined_frames messages ++ rest) (items_written messages) rest }
{}

/// The frame of a wire form whose value fits its schema and is at most one hundred levels deep encodes an item that
/// decodes to this value.
pub fn written_frames_decode_to_their_values()
    ensures { (version : Version) (ty : AnyType) (form : WireForm) → IsNamed ty → wire_size form < 2 ^ 32
        → Fits table form.parts (table form.schema) → levels form.parts ≤ 100
        → FrameEncodes version ty form (DecodesTo ty form.schema form.parts) }
{}

/// A suspension that is written before V7 decodes to its three lists, however deep its tree is. They are those of the
/// futures in preorder, with duplicates, and empty if nothing is awaited.
pub fn flat_suspensions_decode_to_their_lists()
    ensures { (version : Version) (suspension : Parts) → has_flat_suspensions version ≡ true
        → Fits table suspension (table tables.suspension) → wire_size (suspension_form suspension version) < 2 ^ 32
        → FrameEncodes version Suspension (suspension_form suspension version)
        (DecodesTo Suspension tables.suspension_v6 (flattened suspension)) }
{}

/// Each named type has a schema, and the rows of each named notification's schema are rows of the notification
/// template.
pub fn notifications_are_within_the_template()
    ensures named { (ty : AnyType) → IsNamed ty → (s : ℕ) × (message_schema ty ≡ Some s) }
    ensures within { (ty : AnyType) (s : ℕ) → 0x8000 ≤ code_of ty → code_of ty < 0xFC00 → message_schema ty ≡ Some s
        → is_within_template (table notification_template) (table s) ≡ true }
{}

/// A requested acknowledgement is decoded as it was encoded. The header of a proposal of a run's result requests one
/// from V7 on and not before, and the header of every other message has no such flag.
pub fn acknowledgement_requests_are_read_back()
    ensures proposals { (version : Version) (proposal : Parts) → wire_size (proposal_form proposal version) < 2 ^ 32
        → FrameEncodes version ProposeRunCompletion (proposal_form proposal version)
        (λ item. requested_ack_of item ≡ Some (requests_acknowledgement version)) }
    ensures others { (version : Version) (ty : AnyType) (form : WireForm) → IsNamed ty → ty ≢ ProposeRunCompletion
        → wire_size form < 2 ^ 32 → FrameEncodes version ty form (λ item. requested_ack_of item ≡ None) }
{}
