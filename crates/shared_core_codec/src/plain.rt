//! Fields without a label, which are not written if they hold the default: 0, false or empty.

ghost use Rattle.std.specs.Prelude.{◌≡◌, ◌+◌, ◌≤◌, length, drop, OnOk, is_ok, false};
ghost use Rattle.std.specs.Result.{IsErrOf};
ghost use Rattle.shared_core_wire.specs.Schema.{Plain};
ghost use Rattle.shared_core_codec.specs.Occurrences.{field_accepts, FieldBecomes};
ghost use Rattle.shared_core_codec.specs.Kept.{PartAfter};
ghost use Rattle.shared_core_codec.specs.RowEncoding.{measured_row, before_row, row_size};
ghost use Rattle.shared_core_codec.specs.RowFitting.{FieldFits};
ghost use Rattle.shared_core_wire.specs.declared.error.WireError.TheVariants as error;

use crate::kind::Scalar;
use crate::occurrence::Occurrence;
use crate::size::Size;
use shared_core_wire::error::WireError;

/// Replaces the value that is held by an occurrence's. After an error it is unchanged.
#[inline]
pub fn merge<V: Scalar>(field: &mut V, found: &Occurrence<'_>) -> Result<(), WireError>
    ensures ok { OnOk result (FieldBecomes found.now V.kind (V.part field.old) (V.part field.new)) }
    ensures malformed { IsErrOf result error.Malformed → field_accepts found.now V.kind ≡ false }
    ensures kept { PartAfter (V.part field.old) (V.part field.new) (is_ok result) }
{
    field.merge_value(found)
}

/// Adds the size.
#[inline]
#[tactic(auto, using(crate::proofs::Measuring::count_default, crate::proofs::Measuring::count_other))]
pub fn measure<V: Scalar>(size: &mut Size, number: u32, field: &V)
    ensures sum { size.new ≡ measured_row (Plain number V.kind) (V.part field.now) size.old }
    ensures fit { FieldFits (Plain number V.kind) (V.part field.now) }
{
    let _ = size.total();
    if !field.is_default() {
        field.measure_value(size, number);
    }
}

/// Writes the field before `end`, and returns where it begins.
#[inline(always)]
#[tactic(auto, using(crate::proofs::Backwards::default_before, crate::proofs::Backwards::default_size, crate::proofs::Backwards::other_before, crate::proofs::Backwards::other_size))]
pub fn write<V: Scalar>(out: &mut [u8], end: usize, number: u32, field: &V) -> usize
    requires within { end ≤ length out.old }
    requires room { row_size (Plain number V.kind) (V.part field.now) ≤ end }
    ensures start { result + row_size (Plain number V.kind) (V.part field.now) ≡ end }
    ensures written { drop result out.new ≡ before_row (Plain number V.kind) (V.part field.now) (drop end out.old) }
{
    if field.is_default() {
        return end;
    }
    field.write_value(out, end, number)
}
