//! The lines of JSON of two journals that were aligned.

ghost use Rattle.std.specs.Prelude.{◌≡◌, ◌∷◌, ◌++◌, [], decimal, IfOk, OnOk};
ghost use Rattle.json.specs.Json.{Members};
ghost use Rattle.json.specs.Token.{end_object, key};
ghost use Rattle.json.specs.Token as token;
ghost use Rattle.json.specs.Tree.{json_tokens, members_tokens};
ghost use Rattle.diff_lines.specs.MovedJson.{change_word, changed_members, count_tokens, counts_members, entry_json};
ghost use Rattle.diff_lines.specs.MovedJson.{entry_member, IsEntryJson, IsJsonText, IsWholeLine, line_of};
ghost use Rattle.diff_lines.specs.MovedJson.{place_tokens, said_member, type_tokens, whole_json};

use crate::entries::{
    Entry, EntryKind, count_of, entries, entry_type, offset_at, same_count, stopped_index,
};
use crate::entry_fields::{listed_fields, verdict_fields};
use crate::json_line::{write_fields, write_number, write_offset, write_text, write_wide};
use crate::sentence::sentence;
use edit_script::Change;
use json::Writer;
use replay_bench::{AlignedComparison, FieldDifference, Ignored};
use shared_core_base::header::MessageType;
use std::alloc::{AllocError, Global};

/// A line for the whole alignment, and then one for each entry.
pub(crate) fn aligned_json(
    alloc: Global,
    found: &AlignedComparison,
    ignore: Ignored,
    limit: u32,
) -> Result<Vec<u8>, AllocError>
    ensures { IfOk result (λ text. IsJsonText ignore limit found.now text.items) }
{
    let mut lines = whole_line(alloc, found, limit)?;
    let entries = entries(alloc, found)?;
    let mut left = entries.as_slice();
    while let [entry, rest @ ..] = left {
        let line = entry_line(alloc, found, entry, ignore)?;
        lines.extend_from_slice(line.as_slice())?;
        left = rest;
    }
    Ok(lines)
}

/// The line of the whole alignment.
fn whole_line(alloc: Global, found: &AlignedComparison, limit: u32) -> Result<Vec<u8>, AllocError>
    ensures { IfOk result (λ line. IsWholeLine limit found.now line.items) }
{
    let sentence = sentence(alloc, found, limit, false)?;
    let mut out = Writer::new(Vec::new(alloc));
    write_whole_alignment(alloc, found, sentence.as_str(), &mut out)?;
    let mut line = out.into_inner();
    line.extend_from_slice(b"\n")?;
    Ok(line)
}

/// Writes the object of the whole alignment, with its sentence.
fn write_whole_alignment(
    alloc: Global,
    found: &AlignedComparison,
    sentence: &str,
    out: &mut Writer,
) -> Result<(), AllocError>
    ensures tokens { OnOk result (out.new.tokens ≡ out.old.tokens ++ json_tokens (whole_json found.now sentence.now)) }
    ensures before { out.new.before ≡ out.old.before }
{
    out.begin_object()?;
    write_said(found, sentence, out)?;
    write_counts(alloc, found, out)?;
    out.end_object()
}

/// Writes the sentence, and whether there are no fewer differences.
fn write_said(found: &AlignedComparison, sentence: &str, out: &mut Writer) -> Result<(), AllocError>
    ensures tokens { OnOk result ((others : Members) → out.new.tokens ++ members_tokens others ≡ out.old.tokens
        ++ members_tokens (said_member found.now sentence.now others)) }
    ensures before { out.new.before ≡ out.old.before }
{
    write_text(out, "sentence", sentence)?;
    write_boolean(out, "isLeast", found.alignment.is_least)
}

/// Writes a boolean as a member.
fn write_boolean(out: &mut Writer, name: &str, value: bool) -> Result<(), AllocError>
    ensures tokens { OnOk result (out.new.tokens ≡ out.old.tokens ++ (key name.now ∷ token.boolean value ∷ [])) }
    ensures before { out.new.before ≡ out.old.before }
{
    out.key(name)?;
    out.boolean(value)
}

/// Writes how many commands are the same, and how many differences there are of each kind.
fn write_counts(
    alloc: Global,
    found: &AlignedComparison,
    out: &mut Writer,
) -> Result<(), AllocError>
    ensures tokens { OnOk result (out.new.tokens ++ end_object ∷ [] ≡ out.old.tokens
        ++ members_tokens (counts_members found.now)) }
    ensures before { out.new.before ≡ out.old.before }
{
    let differences = found.alignment.differences.as_slice();
    write_wide_member(alloc, out, "same", same_count(found))?;
    write_number(
        out,
        "inserted",
        count_of(differences, Change::Inserted) as u64,
    )?;
    write_number(
        out,
        "removed",
        count_of(differences, Change::Removed) as u64,
    )?;
    write_number(
        out,
        "changed",
        count_of(differences, Change::Changed) as u64,
    )
}

/// Writes a number of 128 bits as a member.
fn write_wide_member(
    alloc: Global,
    out: &mut Writer,
    name: &str,
    number: u128,
) -> Result<(), AllocError>
    ensures tokens { OnOk result (out.new.tokens ≡ out.old.tokens
        ++ (key name.now ∷ token.number (decimal number) ∷ [])) }
    ensures before { out.new.before ≡ out.old.before }
{
    out.key(name)?;
    write_wide(alloc, out, number)
}

/// The line of an entry.
fn entry_line(
    alloc: Global,
    found: &AlignedComparison,
    entry: &Entry,
    ignore: Ignored,
) -> Result<Vec<u8>, AllocError>
    ensures { IfOk result (λ line. IsEntryJson ignore found.now entry.now line.items) }
{
    if let Some(fields) = verdict_fields(found, entry) {
        return line_of(alloc, found, entry, fields);
    }
    let fields = listed_fields(alloc, found, entry, ignore)?;
    line_of(alloc, found, entry, fields.as_slice())
}

/// The line of an entry with these fields.
fn line_of(
    alloc: Global,
    found: &AlignedComparison,
    entry: &Entry,
    fields: &[FieldDifference],
) -> Result<Vec<u8>, AllocError>
    ensures { IfOk result (λ line. line.items ≡ line_of (entry_json found.now entry.now fields.now)) }
{
    let mut out = Writer::new(Vec::new(alloc));
    write_entry(alloc, found, entry, fields, &mut out)?;
    let mut line = out.into_inner();
    line.extend_from_slice(b"\n")?;
    Ok(line)
}

/// Writes the object of an entry, with the fields in which its commands differ.
fn write_entry(
    alloc: Global,
    found: &AlignedComparison,
    entry: &Entry,
    fields: &[FieldDifference],
    out: &mut Writer,
) -> Result<(), AllocError>
    ensures tokens { OnOk result (out.new.tokens ≡ out.old.tokens
        ++ json_tokens (entry_json found.now entry.now fields.now)) }
    ensures before { out.new.before ≡ out.old.before }
{
    out.begin_object()?;
    write_members(alloc, found, entry, out)?;
    write_changed(entry.kind, fields, out)?;
    out.end_object()
}

/// Writes what an entry is, its command's type, and where it is in both journals.
fn write_members(
    alloc: Global,
    found: &AlignedComparison,
    entry: &Entry,
    out: &mut Writer,
) -> Result<(), AllocError>
    ensures tokens { OnOk result ((others : Members) → out.new.tokens ++ members_tokens others ≡ out.old.tokens
        ++ members_tokens (entry_member found.now entry.now others)) }
    ensures before { out.new.before ≡ out.old.before }
{
    let start = stopped_index(&found.comparison.verdict);
    let recorded_at = offset_at(&found.recorded, start, entry.recorded);
    let replayed_at = offset_at(&found.replayed, start, entry.replayed);
    write_text(out, "change", change_word(entry.kind))?;
    write_count(alloc, entry.kind, out)?;
    write_type(alloc, entry_type(found, entry), out)?;
    write_place(
        alloc,
        "recorded",
        entry.recorded,
        "recordedAt",
        recorded_at,
        out,
    )?;
    write_place(
        alloc,
        "replayed",
        entry.replayed,
        "replayedAt",
        replayed_at,
        out,
    )
}

/// What an entry is.
fn change_word(kind: EntryKind) -> &'static str
    ensures { result.now ≡ change_word kind }
{
    match kind {
        EntryKind::Same(_) => "same",
        EntryKind::Differs(Change::Inserted) => "inserted",
        EntryKind::Differs(Change::Removed) => "removed",
        EntryKind::Differs(Change::Changed) => "changed",
    }
}

/// Writes the number of commands of an entry, if they are the same.
fn write_count(alloc: Global, kind: EntryKind, out: &mut Writer) -> Result<(), AllocError>
    ensures tokens { OnOk result (out.new.tokens ≡ out.old.tokens ++ count_tokens kind) }
    ensures before { out.new.before ≡ out.old.before }
{
    match kind {
        EntryKind::Same(count) => {
            out.key("count")?;
            write_wide(alloc, out, count)
        }
        EntryKind::Differs(_) => Ok(()),
    }
}

/// Writes a type, if there is one.
fn write_type(alloc: Global, ty: Option<MessageType>, out: &mut Writer) -> Result<(), AllocError>
    ensures tokens { OnOk result (out.new.tokens ≡ out.old.tokens ++ type_tokens ty) }
    ensures before { out.new.before ≡ out.old.before }
{
    let Some(ty) = ty else {
        return Ok(());
    };
    let name = ty.debug_name();
    let text = format!(in alloc; "{name}")?;
    write_text(out, "type", text.as_str())
}

/// Writes the index of a command, and its offset, if it is known.
fn write_place(
    alloc: Global,
    name: &str,
    index: u128,
    offset_name: &str,
    offset: Option<u128>,
    out: &mut Writer,
) -> Result<(), AllocError>
    ensures tokens { OnOk result (out.new.tokens ≡ out.old.tokens
        ++ place_tokens name.now index offset_name.now offset) }
    ensures before { out.new.before ≡ out.old.before }
{
    out.key(name)?;
    write_wide(alloc, out, index)?;
    write_offset(alloc, out, offset_name, offset)
}

/// Writes the fields in which the commands of an entry differ, if it is a change.
fn write_changed(
    kind: EntryKind,
    fields: &[FieldDifference],
    out: &mut Writer,
) -> Result<(), AllocError>
    ensures tokens { OnOk result (out.new.tokens ++ end_object ∷ [] ≡ out.old.tokens
        ++ members_tokens (changed_members kind fields.now)) }
    ensures before { out.new.before ≡ out.old.before }
{
    match kind {
        EntryKind::Differs(Change::Changed) => write_fields(fields, out),
        EntryKind::Same(_)
        | EntryKind::Differs(Change::Inserted)
        | EntryKind::Differs(Change::Removed) => Ok(()),
    }
}
