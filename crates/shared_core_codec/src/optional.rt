//! Optional fields and message fields, which are written if they are present, even with the default.

ghost use Rattle.std.specs.Prelude.{◌≡◌, ◌+◌, ◌≤◌, length, drop, OnOk, is_ok, false};
ghost use Rattle.std.specs.Result.{IsErrOf};
ghost use Rattle.shared_core_wire.specs.Schema.{Optional};
ghost use Rattle.shared_core_codec.specs.FieldParts.{option_part};
ghost use Rattle.shared_core_codec.specs.Occurrences.{field_accepts, FieldBecomes};
ghost use Rattle.shared_core_codec.specs.Kept.{PartAfter};
ghost use Rattle.shared_core_codec.specs.RowEncoding.{measured_row, before_row, row_size};
ghost use Rattle.shared_core_codec.specs.RowFitting.{FieldFits};
ghost use Rattle.shared_core_wire.specs.declared.error.WireError.TheVariants as error;

use crate::kind::FieldKind;
use crate::occurrence::Occurrence;
use crate::size::Size;
use shared_core_wire::error::WireError;

/// Merges an occurrence into the value that is held, or into the empty one. After an error a value that was held is
/// unchanged, except for a message, which loses nothing; where none was held, one may be.
#[inline]
#[tactic(auto, using(crate::proofs::Keeping::absent_after))]
pub fn merge<V: FieldKind>(field: &mut Option<V>, found: &Occurrence<'_>) -> Result<(), WireError>
    ensures ok { OnOk result (FieldBecomes found.now V.kind (option_part V.part field.old)
        (option_part V.part field.new)) }
    ensures malformed { IsErrOf result error.Malformed → field_accepts found.now V.kind ≡ false }
    ensures kept { PartAfter (option_part V.part field.old) (option_part V.part field.new) (is_ok result) }
{
    match field {
        Some(value) => value.merge_value(found),
        None => field.insert(V::empty_value(found.alloc)).merge_value(found),
    }
}

/// Adds the size.
#[inline]
pub fn measure<V: FieldKind>(size: &mut Size, number: u32, field: &Option<V>)
    ensures sum { size.new ≡ measured_row (Optional number V.kind) (option_part V.part field.now) size.old }
    ensures fit { FieldFits (Optional number V.kind) (option_part V.part field.now) }
{
    if let Some(value) = field {
        value.measure_value(size, number);
    }
}

/// Writes the field before `end`, and returns where it begins.
#[inline(always)]
pub fn write<V: FieldKind>(out: &mut [u8], end: usize, number: u32, field: &Option<V>) -> usize
    requires within { end ≤ length out.old }
    requires room { row_size (Optional number V.kind) (option_part V.part field.now) ≤ end }
    ensures start { result + row_size (Optional number V.kind) (option_part V.part field.now) ≡ end }
    ensures written { drop result out.new ≡ before_row (Optional number V.kind) (option_part V.part field.now)
        (drop end out.old) }
{
    match field {
        Some(value) => value.write_value(out, end, number),
        None => end,
    }
}
