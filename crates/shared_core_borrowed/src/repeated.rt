//! Repeated fields whose elements are written one by one: texts, bytes and records.

ghost use Rattle.std.specs.Prelude.{◌≡◌, ◌+◌, ◌≤◌, length, drop};
ghost use Rattle.shared_core_wire.specs.Schema as schema;
ghost use Rattle.shared_core_codec.specs.FieldParts.{elements_part};
ghost use Rattle.shared_core_codec.specs.RowEncoding.{before_row, measured_row, row_size};
ghost use Rattle.shared_core_borrowed.specs.Fit.{row_fits};

use crate::measure::Measure;
use crate::value::Element;

/// Adds the size of each element, and notes whether the field may have it.
pub(crate) fn measure<V: Element>(measure: &mut Measure, number: u32, field: &[V])
    ensures sum { measure.new.size ≡ measured_row (schema.Repeated number V.kind) (elements_part V.part field.now)
        measure.old.size }
    ensures fit { measure.new.fits ≡ row_fits (schema.Repeated number V.kind) (elements_part V.part field.now)
        measure.old.fits }
{
    let _ = measure.size.total();
    for element in field {
        element.measure_value(measure, number);
    }
}

/// Writes the elements before `end`, the last one first, and returns where the first begins.
pub(crate) fn write<V: Element>(out: &mut [u8], end: usize, number: u32, field: &[V]) -> usize
    requires within { end ≤ length out.old }
    requires room { row_size (schema.Repeated number V.kind) (elements_part V.part field.now) ≤ end }
    ensures start { result + row_size (schema.Repeated number V.kind) (elements_part V.part field.now) ≡ end }
    ensures written { drop result out.new ≡ before_row (schema.Repeated number V.kind) (elements_part V.part field.now)
        (drop end out.old) }
{
    let mut start = end;
    for i in (0..field.len()).rev() {
        start = field[i].write_value(out, start, number);
    }
    start
}
