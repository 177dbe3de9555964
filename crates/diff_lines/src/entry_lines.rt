//! The text of two journals that were aligned.

ghost use Rattle.std.specs.Prelude.{◌≡◌, ◌++◌, IfOk, OnOk};
ghost use Rattle.std.specs.String.{string_bytes};
ghost use Rattle.diff_lines.specs.EntryLines.{entry_line, entry_text, head_text, IsEntryText, IsText};
ghost use Rattle.diff_lines.specs.EntryLines.{place_text, recorded_label, replayed_label, style_of};
ghost use Rattle.diff_lines.specs.Headings.{heading_text};
ghost use Rattle.diff_lines.specs.Verdicts.{is_same};

use crate::entries::{Entry, EntryKind, entries, entry_type, offset_at, stopped_index};
use crate::entry_fields::{listed_fields, verdict_fields};
use crate::field_lines::push_fields;
use crate::heading::push_heading;
use crate::journals::{DiffOptions, is_same};
use crate::look::Pen;
use crate::sentence::{push_name, sentence};
use edit_script::{Change, Difference};
use replay_bench::{AlignedComparison, FieldDifference, Ignored};
use std::alloc::AllocError;
use terminal_text::Style;

/// The names of two journals that were aligned, if they are given and the journals differ, their sentence, and one line
/// per entry. An entry is a run of commands that are the same, or a command that was inserted, removed or changed, with
/// one line per field in which it was. All of it is in the look of this pen.
pub(crate) fn aligned_text(
    pen: Pen,
    found: &AlignedComparison,
    options: &DiffOptions<'_>,
    limit: u32,
) -> Result<Vec<u8>, AllocError>
    ensures { IfOk result (λ text. IsText options.now.comparison.ignored pen.look limit
        (heading_text (is_same found.now.comparison.verdict) pen.look options.now.names) found.now text.items) }
{
    let ignore = options.comparison.ignored;
    let sentence = sentence(pen.alloc, found, limit, pen.look.is_escaped)?;
    let mut text = Vec::new(pen.alloc);
    let is_same = is_same(&found.comparison.verdict);
    push_heading(pen, &mut text, is_same, &options.names)?;
    let style = style_of(
        found.alignment.is_least,
        found.alignment.differences.as_slice(),
    );
    pen.push(&mut text, style, sentence.as_str())?;
    text.extend_from_slice(b"\n")?;
    let entries = entries(pen.alloc, found)?;
    let mut left = entries.as_slice();
    while let [entry, rest @ ..] = left {
        push_entry(pen, &mut text, found, entry, ignore)?;
        left = rest;
    }
    Ok(text)
}

/// The style of the sentence on these differences. Either there are no fewer, or there may be fewer.
fn style_of(is_least: bool, differences: &[Difference]) -> Style
    ensures { result ≡ style_of is_least differences.now }
{
    if !is_least {
        return Style::Bold;
    }
    let [_first, ..] = differences else {
        return Style::Green;
    };
    Style::Bold
}

/// Appends the line of an entry, and the lines of its fields.
fn push_entry(
    pen: Pen,
    text: &mut Vec<u8>,
    found: &AlignedComparison,
    entry: &Entry,
    ignore: Ignored,
) -> Result<(), AllocError>
    ensures { OnOk result (IsEntryText ignore pen.look found.now entry.now text.old.items text.new.items) }
{
    if let Some(fields) = verdict_fields(found, entry) {
        return push_with_fields(pen, text, found, entry, fields);
    }
    let fields = listed_fields(pen.alloc, found, entry, ignore)?;
    push_with_fields(pen, text, found, entry, fields.as_slice())
}

/// Appends the line of an entry, and the lines of these fields.
fn push_with_fields(
    pen: Pen,
    text: &mut Vec<u8>,
    found: &AlignedComparison,
    entry: &Entry,
    fields: &[FieldDifference],
) -> Result<(), AllocError>
    ensures { OnOk result (text.new.items ≡ text.old.items ++ entry_text pen.look found.now entry.now fields.now) }
{
    let mut line = String::new(pen.alloc);
    push_line(&mut line, found, entry)?;
    text.extend_from_slice(line.as_bytes())?;
    push_fields(pen, text, fields)?;
    text.extend_from_slice(b"\n")
}

/// Appends the line of an entry without its end.
fn push_line(text: &mut String, found: &AlignedComparison, entry: &Entry) -> Result<(), AllocError>
    ensures { OnOk result (string_bytes text.new ≡ string_bytes text.old ++ entry_line found.now entry.now) }
{
    let start = stopped_index(&found.comparison.verdict);
    push_head(text, entry.kind)?;
    push_name(text, entry_type(found, entry))?;
    let recorded_at = offset_at(&found.recorded, start, entry.recorded);
    push_place(
        text,
        recorded_label(entry.kind),
        entry.recorded,
        recorded_at,
    )?;
    let replayed_at = offset_at(&found.replayed, start, entry.replayed);
    push_place(
        text,
        replayed_label(entry.kind),
        entry.replayed,
        replayed_at,
    )
}

/// Appends what an entry is.
fn push_head(text: &mut String, kind: EntryKind) -> Result<(), AllocError>
    ensures { OnOk result (string_bytes text.new ≡ string_bytes text.old ++ head_text kind) }
{
    match kind {
        EntryKind::Same(count) => write!(text, "  {count} the same"),
        EntryKind::Differs(Change::Inserted) => text.push_str("+ inserted"),
        EntryKind::Differs(Change::Removed) => text.push_str("- removed"),
        EntryKind::Differs(Change::Changed) => text.push_str("! changed"),
    }
}

/// What comes before the recorded index of an entry: what was inserted is before the command there.
fn recorded_label(kind: EntryKind) -> &'static str
    ensures { result.now ≡ recorded_label kind }
{
    match kind {
        EntryKind::Differs(Change::Inserted) => ", before recorded ",
        EntryKind::Same(_)
        | EntryKind::Differs(Change::Removed)
        | EntryKind::Differs(Change::Changed) => ", recorded ",
    }
}

/// What comes before the replayed index of an entry: what was removed is before the command there.
fn replayed_label(kind: EntryKind) -> &'static str
    ensures { result.now ≡ replayed_label kind }
{
    match kind {
        EntryKind::Differs(Change::Removed) => ", before replayed ",
        EntryKind::Same(_)
        | EntryKind::Differs(Change::Inserted)
        | EntryKind::Differs(Change::Changed) => ", replayed ",
    }
}

/// Appends the index of a command, and its offset, if it is known.
fn push_place(
    text: &mut String,
    label: &str,
    index: u128,
    offset: Option<u128>,
) -> Result<(), AllocError>
    ensures { OnOk result (string_bytes text.new ≡ string_bytes text.old ++ place_text label.now index offset) }
{
    write!(text, "{label}{index}")?;
    match offset {
        Some(offset) => write!(text, " at offset {offset}"),
        None => Ok(()),
    }
}
