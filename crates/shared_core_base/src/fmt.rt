//! The lines that a difference of two messages prints.

ghost use Rattle.std.specs.Prelude.{◌≡◌, ℕ, List, Some, MatchOption, true, false};
ghost use Rattle.std.specs.Str.{is_utf8};
ghost use Rattle.std.specs.Fmt.{WritesOnOk, DisplaysOnOk, decimal, comma_space};
ghost use Rattle.std.specs.List.{join_by};
ghost use Rattle.shared_core_base.specs.Differences.{bytes_text, diff_line, diff_output};

use std::fmt::{Display, Formatter, Write};
use std::{fmt, str};

/// Writes the lines of a difference, one a field, to a formatter.
#[derive(Drop)]
pub struct DiffFormatter<'a, W> {
    /// Where the lines go.
    pub fmt: &'a mut Formatter<W>,
    /// What each line begins with.
    pub indentation: &'a str,
}

impl<'a, W: Write> DiffFormatter<'a, W> {
    /// Writes to the formatter, each line after the indentation.
    pub fn new(fmt: &'a mut Formatter<W>, indentation: &'static str) -> DiffFormatter<'a, W>
        ensures same_reference { result.fmt.ghost_name ≡ fmt.entry.ghost_name }
        ensures target { result.fmt.now ≡ fmt.old }
        ensures indentation { result.indentation.now ≡ indentation.now }
    {
        DiffFormatter { fmt, indentation }
    }

    /// Writes the line of a field: a line feed, the indentation and `field: actual != expected`. It fails where the
    /// writer fails.
    pub fn write_diff<A: Display + Drop, E: Display + Drop>(
        &mut self,
        field: &'static str,
        actual: A,
        expected: E,
    ) -> fmt::Result
        ensures same_reference { self.new.fmt.ghost_name ≡ self.old.fmt.ghost_name }
        ensures indentation { self.new.indentation.now ≡ self.old.indentation.now }
        ensures writes { DisplaysOnOk W.write_str_gives self.old.fmt.now result
            (diff_output self.old.indentation.now field.now (A.output actual) (E.output expected)) self.new.fmt.now }
    {
        let indentation = self.indentation;
        write!(self.fmt, "\n{indentation}{field}: {actual} != {expected}")
    }

    /// Writes the line of a field of bytes, each side as `BytesText` prints it. It fails where the writer fails.
    pub fn write_bytes_diff(
        &mut self,
        field: &'static str,
        actual: &[u8],
        expected: &[u8],
    ) -> fmt::Result
        ensures same_reference { self.new.fmt.ghost_name ≡ self.old.fmt.ghost_name }
        ensures indentation { self.new.indentation.now ≡ self.old.indentation.now }
        ensures writes { WritesOnOk W.write_str_gives self.old.fmt.now result
            (diff_line self.old.indentation.now field.now (bytes_text actual.now) (bytes_text expected.now))
            self.new.fmt.now }
    {
        self.write_diff(field, BytesText(actual), BytesText(expected))
    }
}

/// The bytes as a text, where they are UTF-8.
pub fn as_utf8(bytes: &[u8]) -> Option<&str>
    ensures { MatchOption result (is_utf8 bytes.now ≡ false) (λ text. (text.now ≡ bytes.now)
        × (is_utf8 bytes.now ≡ true)) }
{
    match str::from_utf8(bytes) {
        Ok(text) => Some(text),
        Err(_) => None,
    }
}

/// Prints bytes as they are in a line: `'text'` where they are UTF-8, otherwise the decimal list, as `[255, 1]`.
#[derive(Clone, Copy)]
pub struct BytesText<'a>(pub &'a [u8]);

impl<'a> Display for BytesText<'a> {
    ghost output = { λ bytes. Some (bytes_text bytes.0.now) };

    fn fmt<W: Write>(&self, f: &mut Formatter<W>) -> fmt::Result {
        match as_utf8(self.0) {
            Some(text) => write!(f, "'{text}'"),
            None => {
                f.write_str("[")?;
                write_joined(f, self.0)?;
                f.write_str("]")
            }
        }
    }
}

/// What is in a list that prints, with one text each.
pub trait ListItem {
    /// The text of an item.
    ghost text: { Self → List ℕ };

    /// Writes the item's text. It fails where the writer fails.
    fn write_item<W: Write>(&self, f: &mut Formatter<W>) -> fmt::Result
        ensures { WritesOnOk W.write_str_gives f.old result (text self.now) f.new };
}

impl ListItem for u8 {
    ghost text = { decimal };

    fn write_item<W: Write>(&self, f: &mut Formatter<W>) -> fmt::Result {
        let number = *self;
        write!(f, "{number}")
    }
}

/// Writes the texts of the items in order, joined by `, `; nothing where there are none. It fails where the writer
/// fails.
pub fn write_joined<T: ListItem, W: Write>(f: &mut Formatter<W>, items: &[T]) -> fmt::Result
    ensures { WritesOnOk W.write_str_gives f.old result (join_by T.text comma_space items.now) f.new }
{
    match items {
        [] => Ok(()),
        [first, rest @ ..] => {
            first.write_item(f)?;
            for item in rest {
                f.write_str(", ")?;
                item.write_item(f)?;
            }
            Ok(())
        }
    }
}
