//! What is written of two commands that differ in fields which only a descriptor set has: as a text, or a line of JSON.

use crate::diff::theirs::{TheirDifference, TheirField};
use json::Writer;
use std::alloc::{AllocError, Global};
use terminal_text::{Escapes, Style, paint, push_escaped};

/// How a text is shown.
#[derive(Clone, Copy, Drop)]
pub struct Shown {
    pub alloc: Global,
    /// Whether what comes from the set and the journals is escaped, as for a terminal.
    pub is_escaped: bool,
    /// Whether it has colors: what is recorded is red, and what is replayed green.
    pub is_colored: bool,
}

impl Shown {
    /// Appends a part, in this style if there are colors.
    fn push(self, text: &mut Vec<u8>, style: Style, part: &str) -> Result<(), AllocError> {
        paint(
            text,
            if self.is_colored { style } else { Style::Plain },
            part.as_bytes(),
        )
    }

    /// Appends what comes from the set or a journal, in this style if there are colors.
    fn push_other(self, text: &mut Vec<u8>, style: Style, part: &str) -> Result<(), AllocError> {
        if !self.is_escaped {
            return self.push(text, style, part);
        }
        let mut escaped = String::new(self.alloc);
        push_escaped(&mut escaped, Escapes::Text, part)?;
        self.push(text, style, escaped.as_str())
    }

    /// Appends what differs, with a line of each field.
    fn push_found(self, text: &mut Vec<u8>, found: &TheirDifference) -> Result<(), AllocError> {
        let name = found.ty.debug_name();
        let head = format!(in self.alloc; "{name} differs in what the protocol has no field for:")?;
        self.push(text, Style::Plain, head.as_str())?;
        for field in &found.fields {
            self.push_field(text, field)?;
        }
        Ok(())
    }

    /// Appends the line of a field, after a line feed.
    fn push_field(self, text: &mut Vec<u8>, field: &TheirField) -> Result<(), AllocError> {
        self.push(text, Style::Plain, "\n   ")?;
        self.push_other(text, Style::Plain, field.path.as_str())?;
        self.push(text, Style::Plain, ": ")?;
        self.push_other(text, Style::Red, value_of(&field.recorded))?;
        self.push(text, Style::Plain, " != ")?;
        self.push_other(text, Style::Green, value_of(&field.replayed))
    }
}

/// A value in a text.
fn value_of(value: &Option<String>) -> &str {
    match value {
        Some(value) => value.as_str(),
        None => "none",
    }
}

/// The text of a difference, with a line feed at its end.
pub fn their_text(shown: Shown, found: &TheirDifference) -> Result<Vec<u8>, AllocError> {
    let mut text = Vec::new(shown.alloc);
    let index = found.index;
    let head = format!(in shown.alloc; "command {index}")?;
    shown.push(&mut text, Style::Bold, head.as_str())?;
    shown.push(&mut text, Style::Plain, ": ")?;
    shown.push_found(&mut text, found)?;
    text.extend_from_slice(b"\n")?;
    Ok(text)
}

/// The line of JSON of a difference.
pub fn their_json(alloc: Global, found: &TheirDifference) -> Result<Vec<u8>, AllocError> {
    let plain = Shown {
        alloc,
        is_escaped: false,
        is_colored: false,
    };
    let mut text = Vec::new(alloc);
    plain.push_found(&mut text, found)?;
    let text = str::from_utf8(text.as_slice()).unwrap_or("");
    let mut out = Writer::new(Vec::new(alloc));
    write_difference(&mut out, found, text)?;
    let mut line = out.into_inner();
    line.extend_from_slice(b"\n")?;
    Ok(line)
}

/// Writes the object of a difference, which has this text.
fn write_difference(
    out: &mut Writer,
    found: &TheirDifference,
    text: &str,
) -> Result<(), AllocError> {
    out.begin_object()?;
    out.key("verdict")?;
    out.string("schemaMismatch")?;
    out.key("index")?;
    out.u64(found.index)?;
    out.key("recordedAt")?;
    out.u64(found.recorded_at)?;
    out.key("replayedAt")?;
    out.u64(found.replayed_at)?;
    out.key("text")?;
    out.string(text)?;
    out.key("fields")?;
    out.begin_array()?;
    for field in &found.fields {
        write_field(out, field)?;
    }
    out.end_array()?;
    out.end_object()
}

/// Writes the object of a field.
fn write_field(out: &mut Writer, field: &TheirField) -> Result<(), AllocError> {
    out.begin_object()?;
    out.key("name")?;
    out.string(field.path.as_str())?;
    write_value(out, "recorded", &field.recorded)?;
    write_value(out, "replayed", &field.replayed)?;
    out.end_object()
}

/// Writes a value as a member, if it is there.
fn write_value(out: &mut Writer, key: &str, value: &Option<String>) -> Result<(), AllocError> {
    match value {
        Some(value) => {
            out.key(key)?;
            out.string(value.as_str())
        }
        None => Ok(()),
    }
}
