//! Fields of any kind, as a difference prints them: plain, optional and repeated ones.

ghost use Rattle.std.specs.Prelude.{◌≡◌, ◌↔◌, IsTrue, Some};
ghost use Rattle.std.specs.Fmt.{WritesOnOk, comma_space};
ghost use Rattle.std.specs.List.{join_by};
ghost use Rattle.shared_core_codec.specs.Equality.{DecidesEquality};
ghost use Rattle.shared_core_codec.specs.FieldParts.{elements_part, enum_number, option_part};
ghost use Rattle.shared_core_compare.specs.Differences.{WritesFields};
ghost use Rattle.shared_core_compare.specs.Differences.{elements_text, field_difference, kind_text, present_text};

use crate::difference::{DifferenceForm, write_unless};
use bytes::Bytes;
use shared_core_base::fmt::BytesText;
use shared_core_codec::kind::FieldKind;
use std::fmt;
use std::fmt::{Display, Formatter};

/// A value of a kind, as a difference prints it.
pub(crate) trait PrintedValue: FieldKind + PartialEq {
    /// Writes what the value prints.
    fn write_text<W: fmt::Write>(&self, f: &mut Formatter<W>) -> fmt::Result
        ensures { WritesOnOk W.write_str_gives f.old result (kind_text Self.kind (Self.part self.now)) f.new };

    /// Two values are equal if and only if their parts are.
    ghost same: { (a b : Self) → DecidesEquality (Self.eq a b) (Self.part a) (Self.part b) };
}

impl PrintedValue for u32 {
    ghost use Rattle.shared_core_codec.specs.EqualityRules.{equal_numbers};

    fn write_text<W: fmt::Write>(&self, f: &mut Formatter<W>) -> fmt::Result {
        let number = *self;
        write!(f, "{number}")
    }

    ghost same = { equal_numbers };
}

impl PrintedValue for u64 {
    ghost use Rattle.shared_core_codec.specs.EqualityRules.{equal_numbers};

    fn write_text<W: fmt::Write>(&self, f: &mut Formatter<W>) -> fmt::Result {
        let number = *self;
        write!(f, "{number}")
    }

    ghost same = { equal_numbers };
}

impl PrintedValue for bool {
    ghost use Rattle.shared_core_codec.specs.EqualityRules.{equal_booleans};

    fn write_text<W: fmt::Write>(&self, f: &mut Formatter<W>) -> fmt::Result {
        if *self {
            f.write_str("true")
        } else {
            f.write_str("false")
        }
    }

    ghost same = { equal_booleans };
}

/// An enum prints its number; a negative one its low 32 bits.
impl PrintedValue for i32 {
    ghost use Rattle.shared_core_codec.specs.EqualityRules.{equal_enums};

    fn write_text<W: fmt::Write>(&self, f: &mut Formatter<W>) -> fmt::Result {
        let number = low_bits(*self);
        write!(f, "{number}")
    }

    ghost same = { equal_enums };
}

impl PrintedValue for String {
    ghost use Rattle.shared_core_codec.specs.EqualityRules.{equal_texts};

    fn write_text<W: fmt::Write>(&self, f: &mut Formatter<W>) -> fmt::Result {
        write!(f, "{self}")
    }

    ghost same = { equal_texts };
}

impl PrintedValue for Bytes {
    ghost use Rattle.shared_core_codec.specs.EqualityRules.{equal_bytes};

    fn write_text<W: fmt::Write>(&self, f: &mut Formatter<W>) -> fmt::Result {
        let text = BytesText(self);
        write!(f, "{text}")
    }

    ghost same = { equal_bytes };
}

/// Whether two lists of values are equal.
pub(crate) fn same_list<K: PrintedValue>(values: &Vec<K>, others: &Vec<K>) -> bool
    ensures { IsTrue result ↔ (elements_part K.part values.now.items ≡ elements_part K.part others.now.items) }
{
    values == others
}

/// The low 32 bits of an enum's number.
fn low_bits(value: i32) -> u32
    ensures { result ≡ enum_number value }
{
    value.cast_unsigned()
}

/// A value, as it prints in a line.
#[derive(Clone, Copy)]
struct ValueText<'a, K>(&'a K);

/// An optional value, as it prints in a line.
#[derive(Clone, Copy)]
struct OptionalText<'a, K>(&'a Option<K>);

/// A list of values, as it prints in a line.
#[derive(Clone, Copy)]
struct ListText<'a, K>(&'a [K]);

impl<'a, K: PrintedValue> Display for ValueText<'a, K> {
    ghost output = { λ value. Some (kind_text K.kind (K.part value.0.now)) };

    fn fmt<W: fmt::Write>(&self, f: &mut Formatter<W>) -> fmt::Result {
        self.0.write_text(f)
    }
}

impl<'a, K: PrintedValue> Display for OptionalText<'a, K> {
    ghost output = { λ value. Some (present_text (kind_text K.kind) (option_part K.part value.0.now)) };

    fn fmt<W: fmt::Write>(&self, f: &mut Formatter<W>) -> fmt::Result {
        match self.0 {
            None => f.write_str("<empty>"),
            Some(value) => value.write_text(f),
        }
    }
}

impl<'a, K: PrintedValue> Display for ListText<'a, K> {
    ghost output = { λ values. Some (join_by (λ value. kind_text K.kind (K.part value)) comma_space values.0.now) };

    fn fmt<W: fmt::Write>(&self, f: &mut Formatter<W>) -> fmt::Result {
        write_texts(f, self.0)
    }
}

/// Writes the texts of the values in order, joined by `, `; nothing where there are none.
fn write_texts<K: PrintedValue, W: fmt::Write>(f: &mut Formatter<W>, values: &[K]) -> fmt::Result
    ensures { WritesOnOk W.write_str_gives f.old result
        (join_by (λ value. kind_text K.kind (K.part value)) comma_space values.now) f.new }
{
    match values {
        [] => Ok(()),
        [first, rest @ ..] => {
            first.write_text(f)?;
            for value in rest {
                f.write_str(", ")?;
                value.write_text(f)?;
            }
            Ok(())
        }
    }
}

/// Writes a plain field, unless the two are equal.
pub(crate) fn write_value<T, F: DifferenceForm<T>, K: PrintedValue>(
    form: &F,
    out: &mut T,
    field: &'static str,
    actual: &K,
    expected: &K,
) -> fmt::Result
    ensures { WritesFields (F.writes form.now) out.old result
        (field_difference field.now (kind_text K.kind) (K.part actual.now) (K.part expected.now)) out.new }
{
    write_unless(
        form,
        out,
        actual == expected,
        field,
        ValueText(actual),
        ValueText(expected),
    )
}

/// Writes an optional field, unless the two are equal.
pub(crate) fn write_optional<T, F: DifferenceForm<T>, K: PrintedValue>(
    form: &F,
    out: &mut T,
    field: &'static str,
    actual: &Option<K>,
    expected: &Option<K>,
) -> fmt::Result
    ensures { WritesFields (F.writes form.now) out.old result
        (field_difference field.now (present_text (kind_text K.kind)) (option_part K.part actual.now)
        (option_part K.part expected.now)) out.new }
{
    write_unless(
        form,
        out,
        actual == expected,
        field,
        OptionalText(actual),
        OptionalText(expected),
    )
}

/// Writes a repeated field, unless the two are equal.
pub(crate) fn write_list<T, F: DifferenceForm<T>, K: PrintedValue>(
    form: &F,
    out: &mut T,
    field: &'static str,
    actual: &Vec<K>,
    expected: &Vec<K>,
) -> fmt::Result
    ensures { WritesFields (F.writes form.now) out.old result
        (field_difference field.now (elements_text (kind_text K.kind)) (elements_part K.part actual.now.items)
        (elements_part K.part expected.now.items)) out.new }
{
    write_unless(
        form,
        out,
        actual == expected,
        field,
        ListText(actual),
        ListText(expected),
    )
}
