//! Benchmark work: decoding messages to their records.

ghost use Rattle.std.specs.Prelude.{◌≡◌};

use journal_c_api::outcome::CallError;
use shared_core::encoding::{DecodeMessage, RawMessage};
use shared_core::messages::{MessageVisitor, RestateEncodableMessage, visit_message};
use std::alloc::Global;
use std::fmt::Debug;

/// Decodes a message to the record of its type, and returns how many records that are: none for a custom entry.
pub fn decode(alloc: Global, message: &RawMessage) -> Result<usize, CallError> {
    match visit_message(message.ty(), Decoding { alloc, message }) {
        Some(outcome) => outcome,
        None => Ok(0),
    }
}

/// Decodes a message to the record of its type, which counts as one.
#[derive(Drop)]
struct Decoding<'a> {
    alloc: Global,
    message: &'a RawMessage,
}

impl<'a> MessageVisitor for Decoding<'a> {
    type Output = Result<usize, CallError>;

    ghost may_visit = { λ self ty. self.message.now.header.ty ≡ ty };

    fn visit<M: RestateEncodableMessage + Debug>(self) -> Result<usize, CallError> {
        let _record = self.message.decode_as::<M>(self.alloc)?;
        Ok(1)
    }
}
