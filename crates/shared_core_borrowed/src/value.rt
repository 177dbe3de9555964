//! The values of fields, by the types that a caller in C gives them as: measuring and writing one.

ghost use Rattle.std.specs.Prelude.{◌≡◌, ◌&&◌, ◌+◌, ◌≤◌, ◌++◌, length, drop, true};
ghost use Rattle.shared_core_wire.specs.Schema as schema;
ghost use Rattle.shared_core_wire.specs.Value.{Part, Number, Bytes};
ghost use Rattle.shared_core_codec.specs.Equality.{is_present};
ghost use Rattle.shared_core_wire.specs.Canonical.{is_default};
ghost use Rattle.shared_core_codec.specs.FieldParts.{boolean_part, enum_part};
ghost use Rattle.shared_core_codec.specs.RowEncoding.{capped, value_bytes, unpacked};
ghost use Rattle.shared_core_borrowed.specs.Fit.{value_fits};

use crate::measure::Measure;
use shared_core_codec::kind::{FieldKind, Scalar};
use shared_core_codec::utf8::is_text;
use shared_core_codec::write::write_length_record;

/// Bytes of a caller.
#[repr(C)]
#[derive(Clone, Copy, Drop)]
pub struct Content<'a> {
    /// The bytes.
    pub bytes: &'a [u8],
}

/// A text of a caller, which may not be UTF-8.
#[repr(C)]
#[derive(Clone, Copy, Drop)]
pub struct Text<'a> {
    /// Its bytes.
    pub bytes: &'a [u8],
}

/// A value of a field.
pub trait FieldValue: Sized + Drop {
    /// The kind of the field, as schemas name it.
    ghost kind: { schema.Kind };

    /// The part of a value.
    ghost part: { Self → Part };

    /// Adds the size of a record of this number, even if it holds the default, and notes whether the field may have it.
    fn measure_value(&self, measure: &mut Measure, number: u32)
        ensures sum { measure.new.size ≡ capped (measure.old.size
            + length (value_bytes number kind (part self.now))) }
        ensures fit { measure.new.fits ≡ (measure.old.fits && value_fits kind (part self.now)) };

    /// Writes a record of this number before `end`, even if it holds the default, and returns where it begins.
    fn write_value(&self, out: &mut [u8], end: usize, number: u32) -> usize
        requires within { end ≤ length out.old }
        requires room { length (value_bytes number kind (part self.now)) ≤ end }
        ensures start { result + length (value_bytes number kind (part self.now)) ≡ end }
        ensures written { drop result out.new ≡ value_bytes number kind (part self.now) ++ drop end out.old };

    /// A value is not absent.
    ghost present: { (value : Self) → is_present (part value) ≡ true };
}

/// A value that a plain field may have, which is not written if it is the default: any but a record.
pub trait PlainValue: FieldValue {
    /// Whether the value is the default of its kind: 0, false or empty.
    fn is_default(&self) -> bool
        ensures default { result ≡ is_default (Self.part self.now) }
        // the default is one of the kind
        ensures fit { result ≡ true → value_fits Self.kind (Self.part self.now) ≡ true };
}

/// A value that is written as an element of a list by itself, which is any but a uint32.
pub trait Element: FieldValue {
    /// It is not packed.
    ghost one_by_one: { unpacked Self.kind ≡ true };
}

impl<'a> FieldValue for Content<'a> {
    ghost use Rattle.std.specs.Prelude.{refl};

    ghost kind = { schema.ByteString };

    ghost part = { λ content. Bytes content.bytes.now };

    #[inline(always)]
    #[tactic(auto, using(shared_core_codec::proofs::Measuring::count_any, crate::proofs::Fitting::content_fits))]
    fn measure_value(&self, measure: &mut Measure, number: u32) {
        measure.size.add_length_record(number, self.bytes);
    }

    #[inline(always)]
    #[tactic(auto, using(shared_core_codec::proofs::Backwards::any_before, shared_core_codec::proofs::Backwards::any_size))]
    fn write_value(&self, out: &mut [u8], end: usize, number: u32) -> usize {
        write_length_record(out, end, number, self.bytes)
    }

    ghost present = { λ _. refl };
}

impl<'a> PlainValue for Content<'a> {
    #[inline(always)]
    #[tactic(auto, using(crate::proofs::Fitting::content_fits))]
    fn is_default(&self) -> bool {
        self.bytes.is_empty()
    }
}

impl<'a> Element for Content<'a> {
    ghost use Rattle.std.specs.Prelude.{refl};

    ghost one_by_one = { refl };
}

impl<'a> FieldValue for Text<'a> {
    ghost use Rattle.std.specs.Prelude.{refl};

    ghost kind = { schema.Text };

    ghost part = { λ text. Bytes text.bytes.now };

    #[inline(always)]
    #[tactic(auto, using(shared_core_codec::proofs::Measuring::count_any, crate::proofs::Fitting::text_fits))]
    fn measure_value(&self, measure: &mut Measure, number: u32) {
        measure.size.add_length_record(number, self.bytes);
        measure.check(is_text(self.bytes));
    }

    #[inline(always)]
    #[tactic(auto, using(shared_core_codec::proofs::Backwards::any_before, shared_core_codec::proofs::Backwards::any_size))]
    fn write_value(&self, out: &mut [u8], end: usize, number: u32) -> usize {
        write_length_record(out, end, number, self.bytes)
    }

    ghost present = { λ _. refl };
}

impl<'a> PlainValue for Text<'a> {
    #[inline(always)]
    #[tactic(auto, using(crate::proofs::Fitting::no_text_fits))]
    fn is_default(&self) -> bool {
        self.bytes.is_empty()
    }
}

impl<'a> Element for Text<'a> {
    ghost use Rattle.std.specs.Prelude.{refl};

    ghost one_by_one = { refl };
}

impl FieldValue for u32 {
    ghost use Rattle.std.specs.Prelude.{refl};

    ghost kind = { schema.U32 };

    ghost part = { λ n. Number n };

    #[inline(always)]
    #[tactic(auto, using(crate::proofs::Fitting::fits_so))]
    fn measure_value(&self, measure: &mut Measure, number: u32) {
        FieldKind::measure_value(self, &mut measure.size, number);
    }

    #[inline(always)]
    fn write_value(&self, out: &mut [u8], end: usize, number: u32) -> usize {
        FieldKind::write_value(self, out, end, number)
    }

    ghost present = { λ _. refl };
}

impl PlainValue for u32 {
    #[inline(always)]
    #[tactic(auto, using(crate::proofs::Fitting::fits_so))]
    fn is_default(&self) -> bool {
        Scalar::is_default(self)
    }
}

impl FieldValue for u64 {
    ghost use Rattle.std.specs.Prelude.{refl};

    ghost kind = { schema.U64 };

    ghost part = { λ n. Number n };

    #[inline(always)]
    #[tactic(auto, using(crate::proofs::Fitting::fits_so))]
    fn measure_value(&self, measure: &mut Measure, number: u32) {
        FieldKind::measure_value(self, &mut measure.size, number);
    }

    #[inline(always)]
    fn write_value(&self, out: &mut [u8], end: usize, number: u32) -> usize {
        FieldKind::write_value(self, out, end, number)
    }

    ghost present = { λ _. refl };
}

impl PlainValue for u64 {
    #[inline(always)]
    #[tactic(auto, using(crate::proofs::Fitting::fits_so))]
    fn is_default(&self) -> bool {
        Scalar::is_default(self)
    }
}

impl FieldValue for bool {
    ghost use Rattle.std.specs.Prelude.{refl};

    ghost kind = { schema.Boolean };

    ghost part = { λ b. boolean_part b };

    #[inline(always)]
    #[tactic(auto, using(crate::proofs::Fitting::fits_so))]
    fn measure_value(&self, measure: &mut Measure, number: u32) {
        FieldKind::measure_value(self, &mut measure.size, number);
    }

    #[inline(always)]
    fn write_value(&self, out: &mut [u8], end: usize, number: u32) -> usize {
        FieldKind::write_value(self, out, end, number)
    }

    ghost present = { λ _. refl };
}

impl PlainValue for bool {
    #[inline(always)]
    #[tactic(auto, using(crate::proofs::Fitting::fits_so))]
    fn is_default(&self) -> bool {
        Scalar::is_default(self)
    }
}

impl FieldValue for i32 {
    ghost use Rattle.std.specs.Prelude.{refl};

    ghost kind = { schema.Enumeration };

    ghost part = { λ z. enum_part z };

    #[inline(always)]
    #[tactic(auto, using(crate::proofs::Fitting::fits_so))]
    fn measure_value(&self, measure: &mut Measure, number: u32) {
        FieldKind::measure_value(self, &mut measure.size, number);
    }

    #[inline(always)]
    fn write_value(&self, out: &mut [u8], end: usize, number: u32) -> usize {
        FieldKind::write_value(self, out, end, number)
    }

    ghost present = { λ _. refl };
}

impl PlainValue for i32 {
    #[inline(always)]
    #[tactic(auto, using(crate::proofs::Fitting::fits_so))]
    fn is_default(&self) -> bool {
        Scalar::is_default(self)
    }
}
