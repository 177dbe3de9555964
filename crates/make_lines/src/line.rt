//! The bytes that a line means: the header and the payload of an item, or the bytes after the last one.

ghost use Rattle.std.specs.Prelude.{◌≡◌, Ok, MatchResult, false};
ghost use Rattle.make_lines.specs.Lines.{item_said, says_no_item, rest_said, line_said, is_blank};
ghost use Rattle.make_lines.specs.Making.{making};
ghost use Rattle.make_lines.specs.Members.{pairs_fault, shape_fault};
ghost use Rattle.make_lines.specs.Appending.{RejectsAnywhere, Appends, AppendsOf, AppendsItem, AppendsLine};

use crate::error::{LineError, LineReason};
use crate::header::{append, head_of};
use crate::line_table::LineTable;
use crate::maker::Maker;
use crate::members::{
    ACK, BYTES, CODE, HEADER, Line, MESSAGE, PAYLOAD, PLACES, REQUESTED_ACK, REST, TYPE, UNKNOWN,
    find_places, first_fault,
};
use crate::payload::{bytes_of, bytes_place};
use crate::reject::{Fault, ItemFault, item_error, out_of_memory, reject, reject_text};
use crate::text::is_blank;
use json::Scratch;
use json_table::{Node, Place, Shape};
use shared_core_json_reader::{Reason, read_u64, short_table, table_of_text};
use std::alloc::Global;

/// Whether a line has none of the members that say what an item is.
fn says_no_item(line: &Line<'_, '_>) -> bool
    ensures { result ≡ says_no_item line.now }
{
    line.given(TYPE).is_none()
        && line.given(CODE).is_none()
        && line.given(MESSAGE).is_none()
        && line.given(UNKNOWN).is_none()
        && line.given(HEADER).is_none()
        && line.given_either(REQUESTED_ACK, ACK).is_none()
}

/// The bytes after the last item.
#[tactic(auto, unfolding(crate::specs::Lines::rest_said))]
fn rest_of(alloc: Global, rest: &Node<'_, '_>, line: &Line<'_, '_>) -> Result<Vec<u8>, Fault>
    ensures { MatchResult result (λ bytes. rest_said rest.now line.now ≡ Ok bytes.items)
        (RejectsAnywhere (rest_said rest.now line.now)) }
{
    if !says_no_item(line) {
        return Err(Fault::at(REST, LineReason::ItemInRest));
    }
    if let Some(bytes) = line.given_either(BYTES, PAYLOAD) {
        return bytes_of(alloc, &bytes, bytes_place(line));
    }
    match read_u64(rest) {
        Ok(0) => Ok(Vec::new(alloc)),
        Ok(_) => Err(Fault::at(REST, LineReason::NoBytes)),
        Err(reason) => Err(Fault::at(REST, LineReason::Json(reason))),
    }
}

/// Appends the bytes after the last item.
fn append_rest(
    alloc: Global,
    rest: &Node<'_, '_>,
    line: &Line<'_, '_>,
    out: &mut Vec<u8>,
) -> Result<(), Fault>
    ensures { AppendsOf line.now result (rest_said rest.now line.now) out.old.items out.new.items }
{
    let bytes = rest_of(alloc, rest, line)?;
    append(bytes.as_slice(), out)
}

/// What is kept from line to line: the buffers for reading JSON, and that of a payload.
#[derive(Drop)]
pub struct Buffers {
    scratch: Scratch,
    payload: Vec<u8>,
}

impl Buffers {
    /// Buffers without room.
    pub fn new(alloc: Global) -> Buffers {
        Buffers {
            scratch: Scratch::new(alloc),
            payload: Vec::new(alloc),
        }
    }
}

impl<'a, M: LineTable> Maker<'a, M> {
    /// Appends the bytes of an item. Its payload is in a buffer before.
    #[tactic(auto, unfolding(crate::specs::Lines::item_said))]
    fn append_item(
        &self,
        line: &Line<'_, '_>,
        payload: &mut Vec<u8>,
        out: &mut Vec<u8>,
    ) -> Result<(), ItemFault>
        ensures { AppendsItem (M.messages self.now.messages.now).format line.now result
            (item_said (making (M.messages self.now.messages.now) self.now.version) line.now) out.old.items
            out.new.items }
    {
        let head = head_of(self.alloc, self.version, line)?;
        self.payload_of(head.coded, line, payload)?;
        head.append_framed(self.alloc, payload.as_slice(), line, out)?;
        Ok(())
    }

    /// Appends the bytes of a line that has no other members than a line may have.
    #[tactic(auto, unfolding(crate::specs::Lines::line_said, crate::specs::Members::shape_fault))]
    fn append_members(
        &self,
        line: &Line<'_, '_>,
        payload: &mut Vec<u8>,
        out: &mut Vec<u8>,
    ) -> Result<(), ItemFault>
        requires { shape_fault line.now ≡ pairs_fault line.now }
        ensures { AppendsItem (M.messages self.now.messages.now).format line.now result
            (line_said (making (M.messages self.now.messages.now) self.now.version) line.now) out.old.items
            out.new.items }
    {
        if let Some(fault) = line.pairs_fault() {
            return Err(ItemFault::Line(fault));
        }
        let Some(rest) = line.given(REST) else {
            return self.append_item(line, payload, out);
        };
        append_rest(self.alloc, &rest, line, out)?;
        Ok(())
    }

    /// Appends the bytes that the value of a line means.
    #[tactic(auto, unfolding(crate::specs::Lines::line_said, crate::specs::Members::shape_fault))]
    fn append_said(
        &self,
        value: &Node<'_, '_>,
        payload: &mut Vec<u8>,
        out: &mut Vec<u8>,
    ) -> Result<(), LineError>
        ensures { Appends result (line_said (making (M.messages self.now.messages.now) self.now.version) value.now)
            out.old.items out.new.items }
    {
        let Shape::Object(members) = value.shape() else {
            return Err(reject(self.alloc, LineReason::Json(Reason::WrongKind), ""));
        };
        let mut places = [Place::Absent; PLACES];
        if !find_places(&members, &mut places) {
            return Err(first_fault(self.alloc, &members));
        }
        let line = Line::new(members, &places);
        match self.append_members(&line, payload, out) {
            Ok(()) => Ok(()),
            Err(fault) => Err(item_error(self.alloc, self.messages.table(), &line, fault)),
        }
    }

    /// Appends the bytes that a line means that is not blank, which may be long or nested deep.
    #[inline(never)]
    #[tactic(auto, unfolding(crate::specs::Lines::line_made))]
    fn append_long(
        &self,
        line: &[u8],
        buffers: &mut Buffers,
        out: &mut Vec<u8>,
    ) -> Result<(), LineError>
        requires { is_blank line.now ≡ false }
        ensures { AppendsLine (making (M.messages self.now.messages.now) self.now.version) line.now result
            out.old.items out.new.items }
    {
        let error = match table_of_text(self.alloc, line, &mut buffers.scratch) {
            Ok(table) => {
                return self.append_said(&table.root(), &mut buffers.payload, out);
            }
            Err(error) => error,
        };
        match (error.reason, error.offset) {
            (Reason::NotJson, Some(offset)) => Err(reject_text(self.alloc, line, offset)),
            _ => Err(out_of_memory(self.alloc)),
        }
    }

    /// Appends the bytes that a line means, without its newline; none for a blank one. After an error nothing is
    /// appended, unless an allocation failed.
    #[tactic(auto, unfolding(crate::specs::Lines::line_made))]
    pub(crate) fn append_line(
        &self,
        line: &[u8],
        buffers: &mut Buffers,
        out: &mut Vec<u8>,
    ) -> Result<(), LineError>
        ensures { AppendsLine (making (M.messages self.now.messages.now) self.now.version) line.now result
            out.old.items out.new.items }
    {
        if is_blank(line) {
            return Ok(());
        }
        if let Some(table) = short_table(self.alloc, line, &mut buffers.scratch) {
            return self.append_said(&table.root(), &mut buffers.payload, out);
        }
        self.append_long(line, buffers, out)
    }
}
