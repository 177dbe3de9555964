//! What items hold.

ghost use Rattle.std.specs.Prelude.{◌≡◌, IfErr, IfOk};
ghost use Rattle.dump_lines.specs.Canonical.{IsLongFor};
ghost use Rattle.shared_core_message.specs.Schemas.{schema_at};
ghost use Rattle.std.specs.Option.{option_map};
ghost use Rattle.show_lines.specs.Contents.{held_view, item_held, payload_held};
ghost use Rattle.show_lines.specs.Showing.{IsLong};
ghost use Rattle.stream_lines.specs.Printing.{IsLack};

use bytes::Bytes;
use dump_lines::{Canonicalizer, TypedPayload};
use shared_core_base::header::MessageType;
use shared_core_base::version::Version;
use shared_core_fields::fields::CanonicalPayload;
use shared_core_json::JsonError;
use shared_core_message::schemas::schema_at;
use shared_core_stream::encoding::Item;
use std::alloc::Global;
use stream_lines::PrintError;

/// What an item holds.
#[derive(Clone, Copy)]
pub enum Held<'a> {
    /// Bytes whose meaning is not known: those of a custom entry, or of a message that is skipped.
    Opaque(&'a [u8]),
    /// A payload that is not well-formed.
    Malformed(&'a [u8]),
    /// Fields: those of the canonical payload of what the payload means.
    Fields(CanonicalPayload<'a>),
}

/// Reads the payloads of a stream.
#[derive(Drop)]
pub struct Payloads<'a, C> {
    pub alloc: Global,
    pub version: Version,
    pub canonicalizer: &'a C,
}

impl<'a, C: Canonicalizer> Payloads<'a, C> {
    /// What an item holds, unless that is nothing. `canonical` is a buffer that may be overwritten.
    pub fn held_of<'p>(
        &self,
        item: &'p Item,
        canonical: &'p mut Vec<u8>,
    ) -> Result<Option<Held<'p>>, PrintError>
        ensures held { IfOk result (λ held. option_map held_view held ≡ item_held self.now.version item.now) }
        ensures lack { IfErr result (IsLack (IsLong self.now.version item.now)) }
    {
        match item {
            Item::Message(message) => {
                let held = self.held_by(message.ty(), message.payload(), canonical)?;
                Ok(Some(held))
            }
            Item::Unknown(_) => Ok(None),
            Item::Skipped(_, payload) => Ok(Some(Held::Opaque(payload.as_slice()))),
        }
    }

    /// What a message of a type holds. `canonical` is overwritten with the canonical payload, if the payload itself is
    /// not canonical.
    pub fn held_by<'p>(
        &self,
        ty: MessageType,
        payload: &'p Bytes,
        canonical: &'p mut Vec<u8>,
    ) -> Result<Held<'p>, PrintError>
        ensures held { IfOk result (λ held. held_view held ≡ payload_held (schema_at self.now.version ty) payload.now) }
        ensures lack { IfErr result (IsLack (IsLongFor (schema_at self.now.version ty) payload.now)) }
    {
        let Some(schema) = schema_at(self.version, ty) else {
            return Ok(Held::Opaque(payload.as_slice()));
        };
        if let Some(checked) = CanonicalPayload::check(schema, payload.as_slice()) {
            return Ok(Held::Fields(checked));
        }
        let typed = TypedPayload {
            version: self.version,
            ty,
            bytes: payload,
        };
        let canonicalizer = self.canonicalizer;
        match canonicalizer.canonical_of(self.alloc, typed, canonical) {
            Ok(Some(schema)) => Ok(Held::Fields(CanonicalPayload::known(
                schema,
                canonical.as_slice(),
            ))),
            Ok(None) => Ok(Held::Opaque(payload.as_slice())),
            Err(JsonError::Malformed) => Ok(Held::Malformed(payload.as_slice())),
            Err(JsonError::TooLong) => Err(PrintError::TooLong),
            Err(JsonError::OutOfMemory) => Err(PrintError::OutOfMemory),
        }
    }
}
