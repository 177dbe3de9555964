//! The bytes of one message, a whole payload or a nested one, as a sequence of occurrences for the fields to merge.

ghost use Rattle.std.specs.Prelude.{◌≡◌, ◌+◌, IfSome, IfNone, false};
ghost use Rattle.shared_core_wire.specs.Grammar.{Length};
ghost use Rattle.shared_core_wire.specs.Places.{EndsAt, LiesBefore};
ghost use Rattle.shared_core_wire.specs.View.{value_of};
ghost use Rattle.shared_core_codec.specs.Occurrences.{record_in, value_in, holds_message};

use crate::occurrence::Occurrence;
use bytes::Bytes;
use shared_core_wire::record::WireValue;
use shared_core_wire::records::{LEVELS, Record};
use std::alloc::Global;

/// The bytes of a message: a whole payload, or the content of a message field in it, which is not copied.
#[derive(Clone, Copy)]
pub struct MessageBytes<'a> {
    /// The bytes.
    pub bytes: &'a [u8],
    /// The offset in the payload where they end.
    pub end: usize,
    /// The whole payload, from which bytes fields are sliced.
    pub payload: &'a Bytes,
    /// How deep messages may still be nested in their records.
    pub left: u32,
    /// The allocator of texts and lists.
    pub alloc: Global,
    ghost lies: { EndsAt payload.now end bytes.now },
}

impl<'a> MessageBytes<'a> {
    /// A whole payload: its records are at nesting depth 0, and depth 100 is the greatest.
    #[inline]
    pub fn whole(alloc: Global, payload: &'a Bytes) -> MessageBytes<'a>
        ensures bytes { result.bytes.now ≡ payload.now }
        ensures left { result.left ≡ 100 }
    {
        MessageBytes {
            bytes: payload.as_slice(),
            end: payload.len(),
            payload,
            left: LEVELS,
            alloc,
        }
    }

    /// The occurrence that a record is.
    #[inline]
    #[tactic(auto, using(crate::proofs::Positions::lies_within))]
    pub fn occurrence(&self, found: &Record<'a>) -> Occurrence<'a>
        requires lies { LiesBefore self.now.bytes.now found.now.span.1 (value_of found.now.value) }
        ensures same { record_in result ≡ record { number = found.now.number; value = value_of found.now.value } }
        ensures left { result.left ≡ self.now.left }
    {
        Occurrence {
            number: found.number,
            value: found.value,
            end: self.end - self.bytes.len() + found.span.1,
            payload: self.payload,
            left: self.left,
            alloc: self.alloc,
        }
    }
}

impl<'a> Occurrence<'a> {
    /// The content as a message, whose records are one level deeper, or None if the occurrence holds none: it has
    /// another wire type, or no level of nesting is left.
    #[inline]
    pub fn nested(&self) -> Option<MessageBytes<'a>>
        ensures bytes { IfSome result (λ m. value_in self.now ≡ Length m.bytes.now) }
        ensures left { IfSome result (λ m. m.left + 1 ≡ self.now.left) }
        ensures none { IfNone result (holds_message self.now ≡ false) }
    {
        let WireValue::Length(content) = self.value else {
            return None;
        };
        // the message's records would exceed the nesting depth
        if self.left == 0 {
            return None;
        }
        Some(MessageBytes {
            bytes: content,
            end: self.end,
            payload: self.payload,
            left: self.left - 1,
            alloc: self.alloc,
        })
    }
}
