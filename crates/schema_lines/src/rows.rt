//! The rows of the table.

use std::alloc::{AllocError, Global};
use terminal_text::{Escapes, push_escaped};

/// What is said of a message or a field.
#[derive(Clone, Copy, Debug, PartialEq, Eq)]
pub(crate) enum Said {
    Same,
    Renumbered,
    OnlyThere,
    OnlyHere,
    AnotherKind,
}

impl Said {
    /// The words.
    pub(crate) fn words(self) -> &'static str {
        match self {
            Said::Same => "the same",
            Said::Renumbered => "renumbered",
            Said::OnlyThere => "only there",
            Said::OnlyHere => "only here",
            Said::AnotherKind => "another kind",
        }
    }
}

/// A row: the name, what it is here and there, and what is said of it.
#[derive(Drop)]
pub(crate) struct Row {
    pub(crate) name: String,
    pub(crate) here: String,
    pub(crate) there: String,
    pub(crate) said: Said,
}

impl Row {
    /// A row of nothing yet but what is said.
    pub(crate) fn new(alloc: Global, said: Said) -> Row {
        Row {
            name: String::new(alloc),
            here: String::new(alloc),
            there: String::new(alloc),
            said,
        }
    }

    /// Appends to the name; characters that a terminal may take as commands are escaped.
    pub(crate) fn push_name(&mut self, text: &str) -> Result<(), AllocError> {
        push_escaped(&mut self.name, Escapes::Text, text)
    }
}

/// The widths of the columns, in bytes.
#[derive(Clone, Copy)]
struct Widths {
    name: usize,
    here: usize,
    there: usize,
}

/// The greatest widths of the rows and of the heads.
fn widths_of(rows: &[Row]) -> Widths {
    let mut widths = Widths {
        name: 4,
        here: 4,
        there: 5,
    };
    for row in rows {
        widths.name = widths.name.max(row.name.len());
        widths.here = widths.here.max(row.here.len());
        widths.there = widths.there.max(row.there.len());
    }
    widths
}

/// Appends a cell, filled with spaces to its width and two more.
fn append_cell(text: &mut String, cell: &str, width: usize) -> Result<(), AllocError> {
    text.push_str(cell)?;
    for _ in cell.len()..width {
        text.push(' ')?;
    }
    text.push_str("  ")
}

/// Appends the rows below the heads.
pub(crate) fn append_rows(text: &mut String, rows: &[Row]) -> Result<(), AllocError> {
    let widths = widths_of(rows);
    append_cell(text, "NAME", widths.name)?;
    append_cell(text, "HERE", widths.here)?;
    append_cell(text, "THERE", widths.there)?;
    text.push_str("WHAT\n")?;
    for row in rows {
        append_cell(text, row.name.as_str(), widths.name)?;
        append_cell(text, row.here.as_str(), widths.here)?;
        append_cell(text, row.there.as_str(), widths.there)?;
        text.push_str(row.said.words())?;
        text.push('\n')?;
    }
    Ok(())
}

/// How many rows say this.
fn count_of(rows: &[Row], said: Said) -> usize {
    rows.iter().filter(|row| row.said == said).count()
}

/// Appends how many rows say what.
pub(crate) fn append_counts(text: &mut String, rows: &[Row]) -> Result<(), AllocError> {
    let same = count_of(rows, Said::Same);
    let renumbered = count_of(rows, Said::Renumbered);
    let there = count_of(rows, Said::OnlyThere);
    let here = count_of(rows, Said::OnlyHere);
    let kind = count_of(rows, Said::AnotherKind);
    write!(
        text,
        "\n{same} the same, {renumbered} renumbered, {there} only there, {here} only here, {kind} of another kind\n",
    )
}
