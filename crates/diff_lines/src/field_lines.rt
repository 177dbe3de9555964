//! The lines of the fields in which two commands differ.

ghost use Rattle.std.specs.Prelude.{◌≡◌, ◌++◌, codes, flat_map, OnOk};
ghost use Rattle.std.specs.String.{string_bytes};
ghost use Rattle.diff_lines.specs.FieldLines.{field_line, has_colors, has_unequal, is_shortened, short_line};
ghost use Rattle.diff_lines.specs.FieldLines.{whole_line};
ghost use Rattle.diff_lines.specs.Shown.{shown_part};
ghost use Rattle.terminal_text.specs.declared.colors.Style.TheVariants.{Red, Green};

use crate::excerpts::{excerpt, is_long, position};
use crate::look::{Look, Pen, push_part};
use crate::parted::part_texts;
use replay_bench::FieldDifference;
use std::alloc::AllocError;
use terminal_text::Style;

/// Appends the lines of fields, each after a line feed.
pub fn push_fields(
    pen: Pen,
    text: &mut Vec<u8>,
    fields: &[FieldDifference],
) -> Result<(), AllocError>
    ensures { OnOk result (text.new.items ≡ text.old.items ++ flat_map (field_line pen.look) fields.now) }
{
    let mut left = fields;
    while let [field, rest @ ..] = left {
        push_field(pen, text, field)?;
        left = rest;
    }
    Ok(())
}

/// Appends a line feed, three spaces, the name of a field, and what it prints in each command.
fn push_field(pen: Pen, text: &mut Vec<u8>, field: &FieldDifference) -> Result<(), AllocError>
    ensures { OnOk result (text.new.items ≡ text.old.items ++ field_line pen.look field.now) }
{
    if is_shortened(pen.look, field) {
        return push_short(pen, text, field);
    }
    push_whole(pen, text, field)
}

/// Appends the line of a field whose values are shown whole.
fn push_whole(pen: Pen, text: &mut Vec<u8>, field: &FieldDifference) -> Result<(), AllocError>
    ensures { OnOk result (text.new.items ≡ text.old.items
        ++ whole_line (has_colors pen.look field.now) pen.look.is_escaped field.now.name.now
        (string_bytes field.now.recorded) (string_bytes field.now.replayed)) }
{
    let is_colored = has_colors(pen.look, field);
    let recorded = pen.shown_value(field.recorded.as_str())?;
    let replayed = pen.shown_value(field.replayed.as_str())?;
    text.extend_from_slice(b"\n   ")?;
    text.extend_from_slice(field.name.as_bytes())?;
    push_values(text, is_colored, recorded.as_bytes(), replayed.as_bytes())
}

/// Appends the line of a field whose values are shown around their difference.
fn push_short(pen: Pen, text: &mut Vec<u8>, field: &FieldDifference) -> Result<(), AllocError>
    ensures { OnOk result (text.new.items ≡ text.old.items
        ++ short_line (has_colors pen.look field.now) pen.look.is_escaped field.now.name.now
        (string_bytes field.now.recorded) (string_bytes field.now.replayed)) }
{
    let is_colored = has_colors(pen.look, field);
    let recorded = field.recorded.as_bytes();
    let replayed = field.replayed.as_bytes();
    let parted = part_texts(recorded, replayed);
    let position = position(pen.alloc, &parted, recorded.len(), replayed.len())?;
    let recorded = excerpt(pen, &parted, parted.recorded)?;
    let replayed = excerpt(pen, &parted, parted.replayed)?;
    text.extend_from_slice(b"\n   ")?;
    text.extend_from_slice(field.name.as_bytes())?;
    text.extend_from_slice(position.as_bytes())?;
    push_values(text, is_colored, recorded.as_slice(), replayed.as_slice())
}

/// Appends two values as they are shown, after a colon and with ` != ` between them.
fn push_values(
    text: &mut Vec<u8>,
    is_colored: bool,
    recorded: &[u8],
    replayed: &[u8],
) -> Result<(), AllocError>
    ensures { OnOk result (text.new.items ≡ text.old.items ++ (codes ": "
        ++ (shown_part is_colored Red recorded.now ++ (codes " != " ++ shown_part is_colored Green replayed.now)))) }
{
    text.extend_from_slice(b": ")?;
    push_part(text, is_colored, Style::Red, recorded)?;
    text.extend_from_slice(b" != ")?;
    push_part(text, is_colored, Style::Green, replayed)
}

/// Whether a field is shown around its difference: if that is wanted, and a value of it is long.
fn is_shortened(look: Look, field: &FieldDifference) -> bool
    ensures { result ≡ is_shortened look field.now }
{
    look.is_short && is_long(field.recorded.as_str(), field.replayed.as_str())
}

/// Whether the values of a field have colors. If one of them has ` != ` itself, neither has.
fn has_colors(look: Look, field: &FieldDifference) -> bool
    ensures { result ≡ has_colors look field.now }
{
    if !look.is_colored || has_unequal(field.recorded.as_bytes()) {
        return false;
    }
    !has_unequal(field.replayed.as_bytes())
}

/// Whether a text has ` != `.
fn has_unequal(text: &[u8]) -> bool
    ensures { result ≡ has_unequal text.now }
{
    let mut left = text;
    while let [_first, rest @ ..] = left {
        if left.starts_with(b" != ") {
            return true;
        }
        left = rest;
    }
    false
}
