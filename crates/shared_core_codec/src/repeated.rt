//! Repeated fields whose elements are written one by one: texts, bytes and messages.

ghost use Rattle.std.specs.Prelude.{◌≡◌, ◌+◌, ◌≤◌, length, drop, OnOk, false};
ghost use Rattle.std.specs.Result.{IsErrOf};
ghost use Rattle.shared_core_wire.specs.Schema.{Repeated};
ghost use Rattle.shared_core_codec.specs.FieldParts.{elements_part, parts_of};
ghost use Rattle.shared_core_codec.specs.Occurrences.{repeated_accepts, FieldExtends};
ghost use Rattle.shared_core_codec.specs.Kept.{PartKept};
ghost use Rattle.shared_core_codec.specs.RowEncoding.{measured_row, before_row, row_size};
ghost use Rattle.shared_core_codec.specs.RowFitting.{FieldFits};
ghost use Rattle.shared_core_wire.specs.declared.error.WireError.TheVariants as error;

use crate::kind::Element;
use crate::occurrence::Occurrence;
use crate::size::Size;
use shared_core_wire::error::WireError;

/// Appends an element, the meaning only of the occurrence. It is read into its place in the list, and after an error it
/// may be there, after those that the list had.
pub fn merge<V: Element>(field: &mut Vec<V>, found: &Occurrence<'_>) -> Result<(), WireError>
    ensures ok { OnOk result (FieldExtends found.now V.kind (parts_of V.part field.old.items)
        (parts_of V.part field.new.items)) }
    ensures malformed { IsErrOf result error.Malformed → repeated_accepts found.now V.kind ≡ false }
    ensures kept { PartKept (elements_part V.part field.old.items) (elements_part V.part field.new.items) }
{
    let element = field.push_mut(V::empty_value(found.alloc))?;
    element.merge_value(found)
}

/// Adds the size of each element.
#[tactic(auto, using(crate::proofs::Measuring::count_next, crate::proofs::Measuring::count_from, crate::proofs::FittingRows::fit_next, crate::proofs::FittingRows::fit_end))]
pub fn measure<V: Element>(size: &mut Size, number: u32, field: &Vec<V>)
    ensures sum { size.new ≡ measured_row (Repeated number V.kind) (elements_part V.part field.now.items) size.old }
    ensures fit { FieldFits (Repeated number V.kind) (elements_part V.part field.now.items) }
{
    let _ = size.total();
    for element in field {
        element.measure_value(size, number);
    }
}

/// Writes the elements before `end`, the last one first, and returns where the first begins.
pub fn write<V: Element>(out: &mut [u8], end: usize, number: u32, field: &Vec<V>) -> usize
    requires within { end ≤ length out.old }
    requires room { row_size (Repeated number V.kind) (elements_part V.part field.now.items) ≤ end }
    ensures start { result + row_size (Repeated number V.kind) (elements_part V.part field.now.items) ≡ end }
    ensures written { drop result out.new ≡ before_row (Repeated number V.kind) (elements_part V.part field.now.items)
        (drop end out.old) }
{
    let mut start = end;
    for i in (0..field.len()).rev() {
        start = field[i].write_value(out, start, number);
    }
    start
}
