//! The names of two journals, above what moved between them.

ghost use Rattle.std.specs.Prelude.{◌≡◌, ◌++◌, OnOk};
ghost use Rattle.diff_lines.specs.Headings.{heading_text, shown_line};

use crate::look::Pen;
use std::alloc::AllocError;
use terminal_text::Style;

/// The names of two journals, as of their files.
#[derive(Debug, Clone, Copy, PartialEq, Eq, Drop)]
pub struct Names<'a> {
    /// That of the recorded journal.
    pub recorded: &'a str,
    /// That of the replayed one.
    pub replayed: &'a str,
}

/// Appends one line per name, if they are given and the journals are not the same.
pub(crate) fn push_heading(
    pen: Pen,
    text: &mut Vec<u8>,
    is_same: bool,
    names: &Option<Names<'_>>,
) -> Result<(), AllocError>
    ensures { OnOk result (text.new.items ≡ text.old.items ++ heading_text is_same pen.look names.now) }
{
    if is_same {
        return Ok(());
    }
    let Some(names) = names else {
        return Ok(());
    };
    let recorded = pen.shown_value(names.recorded)?;
    let recorded = format!(in pen.alloc; "--- recorded: {recorded}")?;
    push_line(pen, text, Style::Red, recorded.as_str())?;
    let replayed = pen.shown_value(names.replayed)?;
    let replayed = format!(in pen.alloc; "+++ replayed: {replayed}")?;
    push_line(pen, text, Style::Green, replayed.as_str())
}

/// Appends a line, in this style if there are colors.
fn push_line(pen: Pen, text: &mut Vec<u8>, style: Style, line: &str) -> Result<(), AllocError>
    ensures { OnOk result (text.new.items ≡ text.old.items ++ shown_line pen.look.is_colored style line.now) }
{
    pen.push(text, style, line)?;
    text.extend_from_slice(b"\n")
}
