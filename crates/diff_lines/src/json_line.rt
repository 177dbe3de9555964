//! The line of JSON of a comparison.

ghost use Rattle.std.specs.Prelude.{◌≡◌, ◌∷◌, ◌++◌, [], codes, decimal, IfOk, OnOk};
ghost use Rattle.json.specs.Json.{Members};
ghost use Rattle.json.specs.Token.{key, end_object};
ghost use Rattle.json.specs.Token as token;
ghost use Rattle.json.specs.Tree.{json_tokens, members_tokens};
ghost use Rattle.diff_lines.specs.Json.{ended_members, field_json, field_members, fields_members};
ghost use Rattle.diff_lines.specs.Json.{found_json, json_line, mismatch_members};
ghost use Rattle.diff_lines.specs.Json.{offset_tokens, verdict_members};

use json::Writer;
use replay_bench::{Comparison, FieldDifference, Verdict};
use std::alloc::{AllocError, Global};

/// The line of a comparison.
pub fn json_line(alloc: Global, found: &Comparison) -> Result<Vec<u8>, AllocError>
    ensures { IfOk result (λ line. line.items ≡ json_line found.now) }
{
    let mut out = Writer::new(Vec::new(alloc));
    write_found(alloc, found, &mut out)?;
    let mut line = out.into_inner();
    line.extend_from_slice(b"\n")?;
    Ok(line)
}

/// Writes the object of a comparison.
fn write_found(alloc: Global, found: &Comparison, out: &mut Writer) -> Result<(), AllocError>
    ensures tokens { OnOk result (out.new.tokens ≡ out.old.tokens ++ json_tokens (found_json found.now)) }
    ensures before { out.new.before ≡ out.old.before }
{
    out.begin_object()?;
    write_members(alloc, found, out)?;
    out.end_object()
}

/// Writes the members of a comparison.
fn write_members(alloc: Global, found: &Comparison, out: &mut Writer) -> Result<(), AllocError>
    ensures tokens { OnOk result (out.new.tokens ++ end_object ∷ [] ≡ out.old.tokens
        ++ members_tokens (verdict_members found.now.verdict found.now.recorded_at found.now.replayed_at
        found.now.fields.items)) }
    ensures before { out.new.before ≡ out.old.before }
{
    match &found.verdict {
        Verdict::Same(count) => {
            write_kind(out, "same")?;
            write_number(out, "commands", *count)
        }
        Verdict::RecordedEnded(index) => {
            write_ended(
                alloc,
                "recordedEnded",
                *index,
                "replayedAt",
                found.replayed_at,
                out,
            )
        }
        Verdict::ReplayedEnded(index) => {
            write_ended(
                alloc,
                "replayedEnded",
                *index,
                "recordedAt",
                found.recorded_at,
                out,
            )
        }
        Verdict::TypeMismatch { index, text } => {
            write_mismatch(alloc, "typeMismatch", found, *index, text.as_str(), out)
        }
        Verdict::HeaderMismatch { index, text } => {
            write_mismatch(alloc, "headerMismatch", found, *index, text.as_str(), out)?;
            write_fields(found.fields.as_slice(), out)
        }
    }
}

/// Writes the members where one journal has ended: of this kind, with the offset of the other one's command.
fn write_ended(
    alloc: Global,
    kind: &str,
    index: u64,
    name: &str,
    offset: Option<u128>,
    out: &mut Writer,
) -> Result<(), AllocError>
    ensures tokens { OnOk result (out.new.tokens ++ end_object ∷ [] ≡ out.old.tokens
        ++ members_tokens (ended_members kind.now index name.now offset)) }
    ensures before { out.new.before ≡ out.old.before }
{
    write_kind(out, kind)?;
    write_number(out, "index", index)?;
    write_offset(alloc, out, name, offset)
}

/// Writes the members of a mismatch of this kind, up to its text.
fn write_mismatch(
    alloc: Global,
    kind: &str,
    found: &Comparison,
    index: u64,
    text: &str,
    out: &mut Writer,
) -> Result<(), AllocError>
    ensures tokens { OnOk result ((others : Members) → out.new.tokens ++ members_tokens others ≡ out.old.tokens
        ++ members_tokens (mismatch_members kind.now index found.now.recorded_at found.now.replayed_at text.now
        others)) }
    ensures before { out.new.before ≡ out.old.before }
{
    write_kind(out, kind)?;
    write_number(out, "index", index)?;
    write_offset(alloc, out, "recordedAt", found.recorded_at)?;
    write_offset(alloc, out, "replayedAt", found.replayed_at)?;
    write_text(out, "text", text)
}

/// Writes the fields in which two commands differ, as a member.
pub(crate) fn write_fields(fields: &[FieldDifference], out: &mut Writer) -> Result<(), AllocError>
    ensures tokens { OnOk result (out.new.tokens ++ end_object ∷ [] ≡ out.old.tokens
        ++ members_tokens (fields_members fields.now)) }
    ensures before { out.new.before ≡ out.old.before }
{
    out.key("fields")?;
    out.begin_array()?;
    let mut left = fields;
    while let [field, rest @ ..] = left {
        write_field(field, out)?;
        left = rest;
    }
    out.end_array()
}

/// Writes the object of a field.
fn write_field(field: &FieldDifference, out: &mut Writer) -> Result<(), AllocError>
    ensures tokens { OnOk result (out.new.tokens ≡ out.old.tokens ++ json_tokens (field_json field.now)) }
    ensures before { out.new.before ≡ out.old.before }
{
    out.begin_object()?;
    write_field_members(field, out)?;
    out.end_object()
}

/// Writes the members of a field.
fn write_field_members(field: &FieldDifference, out: &mut Writer) -> Result<(), AllocError>
    ensures tokens { OnOk result (out.new.tokens ++ end_object ∷ [] ≡ out.old.tokens
        ++ members_tokens (field_members field.now)) }
    ensures before { out.new.before ≡ out.old.before }
{
    write_text(out, "name", field.name)?;
    write_text(out, "recorded", field.recorded.as_str())?;
    write_text(out, "replayed", field.replayed.as_str())
}

/// Writes what a verdict says.
fn write_kind(out: &mut Writer, kind: &str) -> Result<(), AllocError>
    ensures tokens { OnOk result (out.new.tokens ≡ out.old.tokens
        ++ (key (codes "verdict") ∷ token.string kind.now ∷ [])) }
    ensures before { out.new.before ≡ out.old.before }
{
    write_text(out, "verdict", kind)
}

/// Writes a text as a member.
pub(crate) fn write_text(out: &mut Writer, name: &str, text: &str) -> Result<(), AllocError>
    ensures tokens { OnOk result (out.new.tokens ≡ out.old.tokens
        ++ (key name.now ∷ token.string text.now ∷ [])) }
    ensures before { out.new.before ≡ out.old.before }
{
    out.key(name)?;
    out.string(text)
}

/// Writes a number as a member.
pub(crate) fn write_number(out: &mut Writer, name: &str, number: u64) -> Result<(), AllocError>
    ensures tokens { OnOk result (out.new.tokens ≡ out.old.tokens
        ++ (key name.now ∷ token.number (decimal number) ∷ [])) }
    ensures before { out.new.before ≡ out.old.before }
{
    out.key(name)?;
    out.u64(number)
}

/// Writes an offset as a member, if there is one.
pub(crate) fn write_offset(
    alloc: Global,
    out: &mut Writer,
    name: &str,
    offset: Option<u128>,
) -> Result<(), AllocError>
    ensures tokens { OnOk result (out.new.tokens ≡ out.old.tokens ++ offset_tokens name.now offset) }
    ensures before { out.new.before ≡ out.old.before }
{
    match offset {
        Some(offset) => {
            out.key(name)?;
            write_wide(alloc, out, offset)
        }
        None => Ok(()),
    }
}

/// Writes a number of 128 bits.
#[tactic(auto, using(json_table::proofs::Decimals::wide_is_number))]
pub(crate) fn write_wide(alloc: Global, out: &mut Writer, number: u128) -> Result<(), AllocError>
    ensures tokens { OnOk result (out.new.tokens ≡ out.old.tokens ++ token.number (decimal number) ∷ []) }
    ensures before { out.new.before ≡ out.old.before }
{
    match u64::try_from(number) {
        Ok(number) => out.u64(number),
        Err(_) => {
            let text = format!(in alloc; "{number}")?;
            out.number(text.as_str())
        }
    }
}
