//! Fields without a label, which are not written if they hold the default: 0, false or empty.

ghost use Rattle.std.specs.Prelude.{◌≡◌, ◌+◌, ◌≤◌, length, drop};
ghost use Rattle.shared_core_wire.specs.Schema as schema;
ghost use Rattle.shared_core_codec.specs.RowEncoding.{before_row, measured_row, row_size};
ghost use Rattle.shared_core_borrowed.specs.Fit.{row_fits};

use crate::measure::Measure;
use crate::value::PlainValue;

/// Adds the size, and notes whether the field may have the value.
#[inline(always)]
#[tactic(auto, using(shared_core_codec::proofs::Measuring::count_default, shared_core_codec::proofs::Measuring::count_other, crate::proofs::Fitting::default_fits))]
pub(crate) fn measure<V: PlainValue>(measure: &mut Measure, number: u32, field: &V)
    ensures sum { measure.new.size ≡ measured_row (schema.Plain number V.kind) (V.part field.now) measure.old.size }
    ensures fit { measure.new.fits ≡ row_fits (schema.Plain number V.kind) (V.part field.now) measure.old.fits }
{
    let _ = measure.size.total();
    if !field.is_default() {
        field.measure_value(measure, number);
    }
}

/// Writes the field before `end`, and returns where it begins.
#[inline(always)]
#[tactic(auto, using(shared_core_codec::proofs::Backwards::default_before, shared_core_codec::proofs::Backwards::default_size, shared_core_codec::proofs::Backwards::other_before, shared_core_codec::proofs::Backwards::other_size))]
pub(crate) fn write<V: PlainValue>(out: &mut [u8], end: usize, number: u32, field: &V) -> usize
    requires within { end ≤ length out.old }
    requires room { row_size (schema.Plain number V.kind) (V.part field.now) ≤ end }
    ensures start { result + row_size (schema.Plain number V.kind) (V.part field.now) ≡ end }
    ensures written { drop result out.new ≡ before_row (schema.Plain number V.kind) (V.part field.now)
        (drop end out.old) }
{
    if field.is_default() {
        return end;
    }
    field.write_value(out, end, number)
}
