//! Human-readable differences of two commands, and the helpers that write their lines.
//!
//! A field is written by a helper for its kind, which takes the form and what is written to, for lines a formatter, and
//! not a `DiffFormatter`: of a value that holds a reference, a chain of calls would have to say that it is the same
//! before and after each. `write_diff` takes the `DiffFormatter` apart once.

ghost use Rattle.std.specs.Prelude.{◌≡◌, true, IsOk, IsSome, Some, [], ◌∷◌, unwrap_or, if◌then◌else◌};
ghost use Rattle.std.specs.Fmt.{HasWritten, IsPlainFormatter, WritesOnOk};
ghost use Rattle.shared_core_wire.specs.Schema.{ByteString, Message, Text, U32};
ghost use Rattle.shared_core_wire.specs.Value.{Bytes as Content, Number};
ghost use Rattle.shared_core_codec.specs.FieldParts.{elements_part, message_part, option_part, text_part};
ghost use Rattle.shared_core_codec.specs.Table as schema;
ghost use Rattle.shared_core_compare.specs.Differences.{FieldTexts, WritesFields};
ghost use Rattle.shared_core_compare.specs.Differences.{differing_fields, difference, field_difference, field_line};
ghost use Rattle.shared_core_compare.specs.Differences.{elements_text, field_texts, is_printed_whole, kind_text};
ghost use Rattle.shared_core_compare.specs.Differences.{member_text, present_text};

use crate::equality::{same_message, same_messages, same_oneof};
use crate::printed::{PrintedMessage, PrintedOneOf};
use bytes::Bytes;
use shared_core_base::fmt::{BytesText, DiffFormatter};
use shared_core_codec::oneof::OneOf;
use shared_core_codec::record::WireRecord;
use shared_core_parts::header::Header;
use shared_core_parts::texts::HeadersText;
use std::fmt;
use std::fmt::{Display, Formatter};

/// A form of differences: how the printed fields in which two commands differ are written to a `T`.
pub trait DifferenceForm<T> {
    /// How a field is written: what there was before, the field, and what there is then.
    ghost writes: { Self → T → FieldTexts → T → Type 0 };

    /// Writes the field of this name, with what it prints in the actual command and in the expected one.
    fn write_field<A: Display + Drop, E: Display + Drop>(
        &self,
        out: &mut T,
        field: &'static str,
        actual: A,
        expected: E,
    ) -> fmt::Result
        requires actual { IsSome (A.output actual) }
        requires expected { IsSome (E.output expected) }
        ensures { IsOk result → writes self.now out.old
            (field_texts field.now (unwrap_or (A.output actual) []) (unwrap_or (E.output expected) [])) out.new };
}

/// The form of lines: a line feed, this indentation and `field: actual != expected`.
#[derive(Clone, Copy)]
struct Lines<'a>(&'a str);

impl<'a, W: fmt::Write> DifferenceForm<Formatter<W>> for Lines<'a> {
    ghost writes = { λ lines old field new. IsPlainFormatter old
        → HasWritten W.write_str_gives old (field_line lines.0.now field) new };

    fn write_field<A: Display + Drop, E: Display + Drop>(
        &self,
        f: &mut Formatter<W>,
        field: &'static str,
        actual: A,
        expected: E,
    ) -> fmt::Result {
        let indentation = self.0;
        write!(f, "\n{indentation}{field}: {actual} != {expected}")
    }
}

/// Commands whose difference can be printed: one line per printed field in which the two differ. The fields, their
/// order and their names are this project's own table, as in the Rust crate (`commands`); it does not know about
/// ignored payloads.
pub trait CommandMessageHeaderDiff: WireRecord {
    /// Writes each printed field in which this command, the actual one, differs from the expected one, in order. Fails
    /// if the form fails.
    fn write_fields<T, F: DifferenceForm<T>>(
        &self,
        expected: &Self,
        form: &F,
        out: &mut T,
    ) -> fmt::Result
        ensures { WritesFields (F.writes form.now) out.old result
            (differing_fields Self.schema (Self.parts self.now) (Self.parts expected.now)) out.new };

    /// Each compared field is printed, or is the name.
    ghost printed_whole: { is_printed_whole Self.schema ≡ true };

    /// Writes the fields as lines, each after the indentation. Fails if the writer fails.
    final fn write_lines<W: fmt::Write>(
        &self,
        expected: &Self,
        f: &mut Formatter<W>,
        indentation: &str,
    ) -> fmt::Result
        ensures { WritesOnOk W.write_str_gives f.old result
            (difference Self.schema indentation.now (Self.parts self.now) (Self.parts expected.now)) f.new }
    {
        self.write_fields(expected, &Lines(indentation), f)
    }

    /// Writes one line per printed field in which this command, the actual one, differs from the expected one: a line
    /// feed, the formatter's indentation and `field: actual != expected`. Fails only if the writer fails, which tests
    /// show.
    final fn write_diff<W: fmt::Write>(
        &self,
        expected: &Self,
        f: DiffFormatter<'_, W>,
    ) -> fmt::Result
        ensures { WritesOnOk W.write_str_gives f.entry.fmt.now result
            (difference Self.schema f.entry.indentation.now (Self.parts self.now) (Self.parts expected.now))
            f.exit.0.now }
    {
        let DiffFormatter { fmt, indentation } = f;
        self.write_lines(expected, fmt, indentation)
    }
}

/// Writes a field, unless the two are equal.
pub(crate) fn write_unless<T, F: DifferenceForm<T>, A: Display + Drop, E: Display + Drop>(
    form: &F,
    out: &mut T,
    same: bool,
    field: &'static str,
    actual: A,
    expected: E,
) -> fmt::Result
    requires actual { IsSome (A.output actual) }
    requires expected { IsSome (E.output expected) }
    ensures { WritesFields (F.writes form.now) out.old result
        (if same then [] else (field_texts field.now (unwrap_or (A.output actual) [])
        (unwrap_or (E.output expected) []) ∷ [])) out.new }
{
    if same {
        Ok(())
    } else {
        form.write_field(out, field, actual, expected)
    }
}

/// Writes a number, unless the two are equal.
#[tactic(auto, unfolding(crate::specs::Differences::field_difference))]
pub(crate) fn write_number<T, F: DifferenceForm<T>>(
    form: &F,
    out: &mut T,
    field: &'static str,
    actual: u32,
    expected: u32,
) -> fmt::Result
    ensures { WritesFields (F.writes form.now) out.old result
        (field_difference field.now (kind_text U32) (Number actual) (Number expected)) out.new }
{
    write_unless(form, out, actual == expected, field, actual, expected)
}

/// Writes a text, unless the two are equal.
#[tactic(auto, unfolding(crate::specs::Differences::field_difference))]
pub(crate) fn write_text<T, F: DifferenceForm<T>>(
    form: &F,
    out: &mut T,
    field: &'static str,
    actual: &String,
    expected: &String,
) -> fmt::Result
    ensures { WritesFields (F.writes form.now) out.old result
        (field_difference field.now (kind_text Text) (text_part actual.now) (text_part expected.now)) out.new }
{
    write_unless(form, out, actual == expected, field, actual, expected)
}

/// Writes bytes, unless the two are equal.
#[tactic(auto, unfolding(crate::specs::Differences::field_difference))]
pub(crate) fn write_bytes<T, F: DifferenceForm<T>>(
    form: &F,
    out: &mut T,
    field: &'static str,
    actual: &Bytes,
    expected: &Bytes,
) -> fmt::Result
    ensures { WritesFields (F.writes form.now) out.old result
        (field_difference field.now (kind_text ByteString) (Content actual.now) (Content expected.now))
        out.new }
{
    write_unless(
        form,
        out,
        actual == expected,
        field,
        BytesText(actual),
        BytesText(expected),
    )
}

/// An optional text, as it prints in a line.
#[derive(Clone, Copy)]
struct OptionalText<'a>(&'a Option<String>);

/// An optional message, as it prints in a line.
#[derive(Clone, Copy)]
struct OptionalMessage<'a, M>(&'a Option<M>);

/// An optional oneof, as it prints in a line.
#[derive(Clone, Copy)]
struct OptionalOneOf<'a, T>(&'a Option<T>);

impl<'a> Display for OptionalText<'a> {
    ghost output = { λ text. Some (present_text (kind_text Text) (option_part text_part text.0.now)) };

    fn fmt<W: fmt::Write>(&self, f: &mut Formatter<W>) -> fmt::Result {
        match self.0 {
            None => f.write_str("<empty>"),
            Some(text) => write!(f, "{text}"),
        }
    }
}

impl<'a, M: PrintedMessage> Display for OptionalMessage<'a, M> {
    ghost output = { λ message. Some (present_text (kind_text (Message M.schema))
        (option_part (message_part M.parts) message.0.now)) };

    fn fmt<W: fmt::Write>(&self, f: &mut Formatter<W>) -> fmt::Result {
        match self.0 {
            None => f.write_str("<empty>"),
            Some(message) => message.write_message(f),
        }
    }
}

impl<'a, T: PrintedOneOf> Display for OptionalOneOf<'a, T> {
    ghost output = { λ oneof. Some (present_text (member_text T.members) (option_part T.part oneof.0.now)) };

    fn fmt<W: fmt::Write>(&self, f: &mut Formatter<W>) -> fmt::Result {
        match self.0 {
            None => f.write_str("<empty>"),
            Some(member) => member.write_member(f),
        }
    }
}

/// Writes an optional text, unless the two are equal.
#[tactic(auto, unfolding(crate::specs::Differences::field_difference))]
pub(crate) fn write_optional_text<T, F: DifferenceForm<T>>(
    form: &F,
    out: &mut T,
    field: &'static str,
    actual: &Option<String>,
    expected: &Option<String>,
) -> fmt::Result
    ensures { WritesFields (F.writes form.now) out.old result
        (field_difference field.now (present_text (kind_text Text)) (option_part text_part actual.now)
        (option_part text_part expected.now)) out.new }
{
    write_unless(
        form,
        out,
        actual == expected,
        field,
        OptionalText(actual),
        OptionalText(expected),
    )
}

/// Writes a message, unless the two are equal.
#[tactic(auto, unfolding(crate::specs::Differences::field_difference))]
pub(crate) fn write_message<T, F: DifferenceForm<T>, M: PrintedMessage>(
    form: &F,
    out: &mut T,
    field: &'static str,
    actual: &Option<M>,
    expected: &Option<M>,
) -> fmt::Result
    ensures { WritesFields (F.writes form.now) out.old result
        (field_difference field.now (present_text (kind_text (Message M.schema)))
        (option_part (message_part M.parts) actual.now) (option_part (message_part M.parts) expected.now)) out.new }
{
    write_unless(
        form,
        out,
        same_message(actual, expected),
        field,
        OptionalMessage(actual),
        OptionalMessage(expected),
    )
}

/// Writes a oneof, unless the two are equal.
#[tactic(auto, unfolding(crate::specs::Differences::field_difference))]
pub(crate) fn write_oneof<T, F: DifferenceForm<T>, O: PrintedOneOf>(
    form: &F,
    out: &mut T,
    field: &'static str,
    actual: &Option<O>,
    expected: &Option<O>,
) -> fmt::Result
    ensures { WritesFields (F.writes form.now) out.old result
        (field_difference field.now (present_text (member_text O.members)) (option_part O.part actual.now)
        (option_part O.part expected.now)) out.new }
{
    write_unless(
        form,
        out,
        same_oneof(actual, expected),
        field,
        OptionalOneOf(actual),
        OptionalOneOf(expected),
    )
}

/// Writes headers, unless the two are equal.
#[tactic(auto, unfolding(crate::specs::Differences::field_difference))]
pub(crate) fn write_headers<T, F: DifferenceForm<T>>(
    form: &F,
    out: &mut T,
    field: &'static str,
    actual: &Vec<Header>,
    expected: &Vec<Header>,
) -> fmt::Result
    ensures { WritesFields (F.writes form.now) out.old result
        (field_difference field.now (elements_text (kind_text (Message schema.header)))
        (elements_part (message_part ⟦<Header as WireRecord>⟧.parts) actual.now.items)
        (elements_part (message_part ⟦<Header as WireRecord>⟧.parts) expected.now.items)) out.new }
{
    write_unless(
        form,
        out,
        same_messages(actual, expected),
        field,
        HeadersText(actual),
        HeadersText(expected),
    )
}
