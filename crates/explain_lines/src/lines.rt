//! The lines of an explanation: each has the bytes after those of the line before.

ghost use Rattle.std.specs.Prelude.{◌≡◌, ◌+◌, ◌-◌, ◌^◌, ◌∷◌, ◌++◌, [], length, min, take, codes, OnOk, Ok};
ghost use Rattle.std.specs.String.{string_bytes};
ghost use Rattle.explain_lines.specs.Explanation.{fault, fault_text};
ghost use Rattle.explain_lines.specs.Lines.{counted, line_front, offset_at};
ghost use Rattle.explain_lines.specs.Reasons.{reason_text};
ghost use Rattle.explain_lines.specs.State.{told, Adds, Explains};
ghost use Rattle.explain_lines.specs.Texts.{path_text, piece_text};

use crate::columns::push_front;
use crate::piece::{FieldAt, Piece, push_name, push_piece};
use crate::reason::Reason;
use std::alloc::{AllocError, Global};

/// Lines in the making.
#[derive(Drop)]
pub struct Lines {
    alloc: Global,
    /// The lines so far.
    pub text: Vec<u8>,
    /// The offset at which the bytes of these lines begin.
    from: u128,
    /// How many bytes they have.
    pub count: u128,
    /// The fields that these bytes are within.
    path: Vec<FieldAt>,
    /// A buffer for what a line says.
    line: String,
}

impl Lines {
    /// No line.
    pub fn new(alloc: Global) -> Lines {
        Lines {
            alloc,
            text: Vec::new(alloc),
            from: 0,
            count: 0,
            path: Vec::new(alloc),
            line: String::new(alloc),
        }
    }

    /// Begins the lines of bytes at an offset, which are within no field.
    pub fn begin(&mut self, from: u128)
        ensures told { told self.new ≡ record { text = []; from = from; count = 0 } }
        ensures path { self.new.path.items ≡ [] }
    {
        self.text.clear();
        self.from = from;
        self.count = 0;
        self.path.clear();
    }

    /// Adds the line of the next bytes.
    #[tactic(auto, using(crate::proofs::Shown::appended))]
    pub fn add(&mut self, bytes: &[u8], piece: Piece<'_>) -> Result<(), AllocError>
        ensures { Adds self.old self.new result (record {
          path = self.old.path.items;
          bytes = bytes.now;
          says = piece_text piece.entry;
        } ∷ []) }
    {
        self.push_front(bytes)?;
        self.line.clear();
        push_piece(self.alloc, &mut self.line, piece)?;
        self.end_line(bytes.len())
    }

    /// Adds the line of a fault at the next byte.
    #[tactic(auto, using(crate::proofs::Shown::appended))]
    pub fn add_fault(&mut self, reason: Reason) -> Result<bool, AllocError>
        ensures { Explains self.old self.new result (fault self.old.path.items (reason_text reason)) }
    {
        self.push_front(&[])?;
        self.line.clear();
        push_fault(&mut self.line, self.path.as_slice(), reason)?;
        self.end_line(0)?;
        Ok(true)
    }

    /// Goes into a field.
    pub fn enter(&mut self, field: FieldAt) -> Result<(), AllocError>
        ensures told { OnOk result (told self.new ≡ told self.old) }
        ensures path { OnOk result (self.new.path.items ≡ self.old.path.items ++ field ∷ []) }
    {
        self.path.push(field)?;
        Ok(())
    }

    /// Goes out of the field that it went into last.
    pub fn leave(&mut self)
        ensures told { told self.new ≡ told self.old }
        ensures path { self.new.path.items ≡ take (length self.old.path.items - 1) self.old.path.items }
    {
        let size = self.path.len().saturating_sub(1);
        self.path.truncate(size);
    }

    /// Appends what a line begins with: the offset, the first of its bytes, and an indentation.
    fn push_front(&mut self, bytes: &[u8]) -> Result<(), AllocError>
        ensures text { OnOk result (self.new.text.items ≡ self.old.text.items
            ++ line_front (offset_at self.old.from self.old.count) self.old.path.items bytes.now) }
        ensures from { OnOk result (self.new.from ≡ self.old.from) }
        ensures count { OnOk result (self.new.count ≡ self.old.count) }
        ensures path { OnOk result (self.new.path ≡ self.old.path) }
    {
        let at = self.from.saturating_add(self.count);
        push_front(&mut self.text, at, self.path.as_slice(), bytes)
    }

    /// Appends what a line says, and ends the line, which has this number of bytes.
    fn end_line(&mut self, size: usize) -> Result<(), AllocError>
        ensures text { OnOk result (self.new.text.items
            ≡ self.old.text.items ++ (string_bytes self.old.line ++ codes "\n")) }
        ensures from { OnOk result (self.new.from ≡ self.old.from) }
        ensures count { OnOk result (self.new.count ≡ counted self.old.count size) }
        ensures path { OnOk result (self.new.path ≡ self.old.path) }
    {
        self.text.extend_from_slice(self.line.as_bytes())?;
        self.text.extend_from_slice(b"\n")?;
        self.count = self.count.saturating_add(size as u128);
        Ok(())
    }
}

/// Appends what the line of a fault within some fields says.
#[tactic(auto, unfolding(crate::specs::Explanation::fault_text), using(crate::proofs::Shown::appended))]
fn push_fault(text: &mut String, path: &[FieldAt], reason: Reason) -> Result<(), AllocError>
    ensures { OnOk result (string_bytes text.new ≡ string_bytes text.old ++ fault_text path.now (reason_text reason)) }
{
    text.push_str("malformed: ")?;
    push_path(text, path)?;
    write!(text, "{reason}")
}

/// Appends the names of fields, each with a colon after it.
fn push_path(text: &mut String, path: &[FieldAt]) -> Result<(), AllocError>
    ensures { OnOk result (string_bytes text.new ≡ string_bytes text.old
        ++ path_text path.now) }
{
    for field in path {
        push_name(text, *field)?;
        text.push_str(": ")?;
    }
    Ok(())
}
