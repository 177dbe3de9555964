//! The payload of the item that a line describes.

ghost use Rattle.std.specs.Prelude.{◌≡◌, [], codes, Some, Ok, MatchResult};
ghost use Rattle.make_lines.specs.Lines.{bytes_said, bytes_name, message_said, nothing_said, line_payload};
ghost use Rattle.make_lines.specs.Making.{making};
ghost use Rattle.make_lines.specs.Members.{given};
ghost use Rattle.make_lines.specs.Places.{name_at};
ghost use Rattle.make_lines.specs.Appending.{RejectsAnywhere, RejectsItem};

use crate::code::Coded;
use crate::error::LineReason;
use crate::line_table::LineTable;
use crate::maker::Maker;
use crate::members::{BYTES, LINE, Line, MESSAGE, PAYLOAD, UNKNOWN};
use crate::reject::{Fault, ItemFault};
use json_table::Node;
use shared_core_json_reader::readable::TableSchema;
use shared_core_json_reader::{Reason, payload_into_in, read_bytes};
use std::alloc::Global;

/// The bytes that a value is, in base64.
pub fn bytes_of(alloc: Global, value: &Node<'_, '_>, place: u8) -> Result<Vec<u8>, Fault>
    ensures { MatchResult result (λ bytes. bytes_said (name_at place) value.now ≡ Ok bytes.items)
        (RejectsAnywhere (bytes_said (name_at place) value.now)) }
{
    match read_bytes(alloc, value) {
        Ok(bytes) => Ok(bytes),
        Err(reason) => Err(Fault::at(place, LineReason::Json(reason))),
    }
}

/// The place of the member that gives bytes.
pub fn bytes_place(line: &Line<'_, '_>) -> u8
    ensures { name_at result ≡ bytes_name line.now }
{
    match line.given(BYTES) {
        Some(_) => BYTES,
        None => PAYLOAD,
    }
}

/// Checks that an item may be only a header: that its member says so, and that its code is unassigned.
fn check_alone(coded: Coded, value: &Node<'_, '_>) -> Result<(), Fault>
    ensures { MatchResult result (λ _. nothing_said coded.code value.now ≡ Ok [])
        (RejectsAnywhere (nothing_said coded.code value.now)) }
{
    let Some(true) = value.as_bool() else {
        return Err(Fault::at(UNKNOWN, LineReason::Json(Reason::WrongKind)));
    };
    match coded.ty {
        Some(_) => Err(Fault::at(UNKNOWN, LineReason::CodeOfType)),
        None => Ok(()),
    }
}

impl<'a, M: LineTable> Maker<'a, M> {
    /// Puts the payload of the message of a line into a buffer.
    fn message_of(
        &self,
        coded: Coded,
        line: &Line<'_, '_>,
        message: &Node<'_, '_>,
        payload: &mut Vec<u8>,
    ) -> Result<(), ItemFault>
        requires { given (codes "message") line.now ≡ Some message.now }
        ensures { MatchResult result (λ _. message_said (making (M.messages self.now.messages.now) self.now.version)
            coded.code message.now ≡ Ok payload.new.items)
            (RejectsItem (M.messages self.now.messages.now).format line.now
            (message_said (making (M.messages self.now.messages.now) self.now.version) coded.code message.now)) }
    {
        let Some(schema) = coded.schema(self.version, self.messages) else {
            return Err(ItemFault::Line(Fault::at(MESSAGE, LineReason::NoSchema)));
        };
        let of = TableSchema {
            schemas: self.messages.table(),
            schema,
        };
        match payload_into_in(self.alloc, of, message, payload) {
            Ok(()) => Ok(()),
            Err(reason) => Err(ItemFault::Message(schema, reason)),
        }
    }

    /// Puts the payload of a line into a buffer, in place of what is there.
    pub(crate) fn payload_of(
        &self,
        coded: Coded,
        line: &Line<'_, '_>,
        payload: &mut Vec<u8>,
    ) -> Result<(), ItemFault>
        ensures { MatchResult result (λ _. line_payload (making (M.messages self.now.messages.now) self.now.version)
            coded.code line.now ≡ Ok payload.new.items)
            (RejectsItem (M.messages self.now.messages.now).format line.now
            (line_payload (making (M.messages self.now.messages.now) self.now.version) coded.code line.now)) }
    {
        let message = line.given(MESSAGE);
        let bytes = line.given_either(BYTES, PAYLOAD);
        let unknown = line.given(UNKNOWN);
        match (message, bytes, unknown) {
            (Some(message), None, None) => self.message_of(coded, line, &message, payload),
            (None, Some(bytes), None) => {
                *payload = bytes_of(self.alloc, &bytes, bytes_place(line))?;
                Ok(())
            }
            (None, None, Some(unknown)) => {
                check_alone(coded, &unknown)?;
                payload.clear();
                Ok(())
            }
            (None, None, None) => Err(ItemFault::Line(Fault::at(LINE, LineReason::NoPayload))),
            _ => Err(ItemFault::Line(Fault::at(LINE, LineReason::SeveralPayloads))),
        }
    }
}
