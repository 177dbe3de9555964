//! The line of a verdict as a text, made of what was found.

ghost use Rattle.std.specs.Prelude.{◌≡◌, ◌++◌, IfOk, OnOk};
ghost use Rattle.std.specs.String.{string_bytes};
ghost use Rattle.shared_core_errors.specs.Mismatch.{mismatch_head};
ghost use Rattle.diff_lines.specs.VerdictLines.{difference_text, ended_text, index_text, shown_verdict, text_line};
ghost use Rattle.diff_lines.specs.VerdictLines.{type_text, types_text};

use crate::field_lines::push_fields;
use crate::look::Pen;
use crate::sentence::same_sentence;
use replay_bench::{Comparison, Verdict};
use shared_core_base::header::MessageType;
use std::alloc::{AllocError, Global};
use terminal_text::Style;

/// The line of a comparison, in the look of this pen. A mismatch's text has lines of its own.
pub(crate) fn text_line(pen: Pen, found: &Comparison) -> Result<Vec<u8>, AllocError>
    ensures { IfOk result (λ line. line.items ≡ text_line pen.look found.now) }
{
    let mut line = Vec::new(pen.alloc);
    push_verdict(pen, &mut line, found)?;
    line.extend_from_slice(b"\n")?;
    Ok(line)
}

/// Appends a verdict.
fn push_verdict(pen: Pen, line: &mut Vec<u8>, found: &Comparison) -> Result<(), AllocError>
    ensures { OnOk result (line.new.items ≡ line.old.items ++ shown_verdict pen.look found.now.verdict
        found.now.recorded_type found.now.replayed_type found.now.fields.items) }
{
    match &found.verdict {
        Verdict::Same(count) => {
            let text = same_sentence(pen.alloc, *count as u128)?;
            pen.push(line, Style::Green, text.as_str())
        }
        Verdict::RecordedEnded(index) => push_ended(pen, line, "recorded", *index),
        Verdict::ReplayedEnded(index) => push_ended(pen, line, "replayed", *index),
        Verdict::TypeMismatch { index, .. } => push_types(pen, line, *index, found),
        Verdict::HeaderMismatch { index, .. } => push_difference(pen, line, *index, found),
    }
}

/// Appends that the journal of this name ends.
fn push_ended(pen: Pen, line: &mut Vec<u8>, name: &str, index: u64) -> Result<(), AllocError>
    ensures { OnOk result (line.new.items ≡ line.old.items ++ ended_text pen.look.is_colored name.now index) }
{
    let text = format!(in pen.alloc; "{name} ends at command {index}")?;
    pen.push(line, Style::Bold, text.as_str())
}

/// Appends the index of the commands that differ, and the beginning of the text of each mismatch.
fn push_index(pen: Pen, line: &mut Vec<u8>, index: u64) -> Result<(), AllocError>
    ensures { OnOk result (line.new.items ≡ line.old.items ++ index_text pen.look.is_colored index) }
{
    let text = format!(in pen.alloc; "command {index}")?;
    pen.push(line, Style::Bold, text.as_str())?;
    line.extend_from_slice(b": ")?;
    line.extend_from_slice(mismatch_head().as_bytes())?;
    Ok(())
}

/// The beginning of the text of each mismatch.
fn mismatch_head() -> &'static str
    ensures { result.now ≡ mismatch_head }
{
    "Found a mismatch between the code paths taken during the previous execution and the paths taken during this execution.\nThis typically happens when some parts of the code are non-deterministic.\n"
}

/// Appends the mismatch of the types of two commands.
fn push_types(
    pen: Pen,
    line: &mut Vec<u8>,
    index: u64,
    found: &Comparison,
) -> Result<(), AllocError>
    ensures { OnOk result (line.new.items ≡ line.old.items ++ types_text pen.look.is_colored index
        found.now.recorded_type found.now.replayed_type) }
{
    let recorded = type_name(pen.alloc, found.recorded_type)?;
    let recorded = format!(in pen.alloc; "'{recorded}' (index '{index}')")?;
    let replayed = type_name(pen.alloc, found.replayed_type)?;
    let replayed = format!(in pen.alloc; "'{replayed}'")?;
    push_index(pen, line, index)?;
    line.extend_from_slice(b" - The previous execution ran and recorded the following: ")?;
    pen.push(line, Style::Red, recorded.as_str())?;
    line.extend_from_slice(b"\n - The current execution attempts to perform the following: ")?;
    pen.push(line, Style::Green, replayed.as_str())
}

/// Appends the mismatch of two commands of one type, with one line per field in which they differ.
fn push_difference(
    pen: Pen,
    line: &mut Vec<u8>,
    index: u64,
    found: &Comparison,
) -> Result<(), AllocError>
    ensures { OnOk result (line.new.items ≡ line.old.items ++ difference_text pen.look index found.now.recorded_type
        found.now.fields.items) }
{
    let ty = type_name(pen.alloc, found.recorded_type)?;
    let head = format!(in pen.alloc;
        "- The mismatch happened while executing '{ty}' (index '{index}')\n- Difference:"
    )?;
    push_index(pen, line, index)?;
    line.extend_from_slice(head.as_bytes())?;
    push_fields(pen, line, found.fields.as_slice())
}

/// The name of a type in the text of a mismatch, if there is a type.
fn type_name(alloc: Global, ty: Option<MessageType>) -> Result<String, AllocError>
    ensures { IfOk result (λ name. string_bytes name ≡ type_text ty) }
{
    match ty {
        Some(ty) => ty.to_string(alloc),
        None => Ok(String::new(alloc)),
    }
}
