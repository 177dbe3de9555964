//! Optional fields and records in fields, which are written if they are there, even with the default.

ghost use Rattle.std.specs.Prelude.{◌≡◌, ◌+◌, ◌≤◌, length, drop};
ghost use Rattle.shared_core_wire.specs.Schema as schema;
ghost use Rattle.shared_core_codec.specs.RowEncoding.{before_row, measured_row, row_size};
ghost use Rattle.shared_core_borrowed.specs.Fit.{row_fits};
ghost use Rattle.shared_core_borrowed.specs.Views.{present_part};

use crate::measure::Measure;
use crate::value::FieldValue;

/// Adds the size if the field is there, and notes whether it may have the value.
#[inline(always)]
pub(crate) fn measure<V: FieldValue>(measure: &mut Measure, number: u32, is_there: bool, field: &V)
    ensures sum { measure.new.size ≡ measured_row (schema.Optional number V.kind)
        (present_part is_there (V.part field.now)) measure.old.size }
    ensures fit { measure.new.fits ≡ row_fits (schema.Optional number V.kind)
        (present_part is_there (V.part field.now)) measure.old.fits }
{
    if is_there {
        field.measure_value(measure, number);
    }
}

/// Writes the field before `end` if it is there, and returns where it begins.
#[inline(always)]
pub(crate) fn write<V: FieldValue>(
    out: &mut [u8],
    end: usize,
    number: u32,
    is_there: bool,
    field: &V,
) -> usize
    requires within { end ≤ length out.old }
    requires room { row_size (schema.Optional number V.kind) (present_part is_there (V.part field.now)) ≤ end }
    ensures start { result + row_size (schema.Optional number V.kind) (present_part is_there (V.part field.now))
        ≡ end }
    ensures written { drop result out.new ≡ before_row (schema.Optional number V.kind)
        (present_part is_there (V.part field.now)) (drop end out.old) }
{
    if !is_there {
        return end;
    }
    field.write_value(out, end, number)
}
