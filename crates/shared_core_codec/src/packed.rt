//! Repeated `uint32` fields, which are written as one packed run; single numbers are read as well (proto3).

ghost use Rattle.std.specs.Prelude.{◌≡◌, ◌+◌, ◌≤◌, ◌++◌, ℕ, length, drop, OnOk, false};
ghost use Rattle.std.specs.Result.{IsErrOf};
ghost use Rattle.shared_core_wire.specs.Schema.{Repeated, U32};
ghost use Rattle.shared_core_wire.specs.Value.{Number};
ghost use Rattle.shared_core_codec.specs.Computed.{IsComputed, packed_onto};
ghost use Rattle.shared_core_codec.specs.FieldParts.{elements_part, parts_of};
ghost use Rattle.shared_core_codec.specs.Occurrences.{repeated_accepts, FieldExtends};
ghost use Rattle.shared_core_codec.specs.Kept.{PartKept};
ghost use Rattle.shared_core_codec.specs.RowEncoding.{capped, measured_row, before_row, row_size, varints_of};
ghost use Rattle.shared_core_codec.specs.RowFitting.{FieldFits};
ghost use Rattle.shared_core_wire.specs.declared.error.WireError.TheVariants as error;

use crate::occurrence::Occurrence;
use crate::size::Size;
use crate::write::{write_length, write_varint};
use shared_core_wire::error::WireError;
use shared_core_wire::record::WireValue;
use shared_core_wire::varint::{low_32, read_varint};

/// Appends one number, or each of a packed run. After an error some numbers may have been appended,
/// after those that the list had.
pub fn merge(field: &mut Vec<u32>, found: &Occurrence<'_>) -> Result<(), WireError>
    ensures ok { OnOk result (FieldExtends found.now U32 (parts_of Number field.old.items)
        (parts_of Number field.new.items)) }
    ensures malformed { IsErrOf result error.Malformed → repeated_accepts found.now U32 ≡ false }
    ensures kept { PartKept (elements_part Number field.old.items) (elements_part Number field.new.items) }
{
    match found.value {
        WireValue::Varint(number) => {
            field.push(low_32(number))?;
            Ok(())
        }
        WireValue::Length(content) => merge_run(field, content),
        _ => Err(WireError::Malformed),
    }
}

/// Appends the low 32 bits of each number of a packed run. Returns `Malformed` if the bytes are not varints that fill
/// them exactly; some numbers may then have been appended.
fn merge_run(numbers: &mut Vec<u32>, run: &[u8]) -> Result<(), WireError>
    ensures computed { IsComputed (λ _. numbers.new.items) result (packed_onto numbers.old.items run.now) }
    ensures kept { PartKept (elements_part Number numbers.old.items) (elements_part Number numbers.new.items) }
{
    let mut rest = run;
    while !rest.is_empty() {
        let Some((number, after)) = read_varint(rest) else {
            return Err(WireError::Malformed);
        };
        numbers.push(low_32(number))?;
        rest = after;
    }
    Ok(())
}

/// Adds the size of the run, if there is an element.
#[tactic(auto, using(crate::proofs::Measuring::count_packed, crate::proofs::Measuring::count_no_packed))]
pub fn measure(size: &mut Size, number: u32, field: &Vec<u32>)
    ensures sum { size.new ≡ measured_row (Repeated number U32) (elements_part Number field.now.items) size.old }
    ensures fit { FieldFits (Repeated number U32) (elements_part Number field.now.items) }
{
    let _ = size.total();
    let mut run = Size::new();
    measure_run(&mut run, field);
    if !field.is_empty() {
        size.add_sized(number, &run);
    }
}

/// Adds the sizes of numbers as varints, without a key and a length.
#[tactic(auto, using(crate::proofs::Measuring::packed_count, crate::proofs::Measuring::packed_whole, crate::proofs::FittingRows::fit_next, crate::proofs::FittingRows::fit_end, crate::proofs::FittingRows::fit_u32))]
pub fn measure_run(size: &mut Size, numbers: &Vec<u32>)
    ensures sum { size.new ≡ capped (size.old + length (varints_of numbers.now.items)) }
    ensures fit { (n : ℕ) → FieldFits (Repeated n U32) (elements_part Number numbers.now.items) }
{
    let _ = size.total();
    for number in numbers {
        size.add_varint(u64::from(*number));
    }
}

/// Writes the run before `end`, if there is an element, and returns where it begins.
#[tactic(auto, using(crate::proofs::Backwards::packed_size, crate::proofs::Backwards::no_packed_size, crate::proofs::Backwards::packed_before, crate::proofs::Backwards::no_packed_before))]
pub fn write(out: &mut [u8], end: usize, number: u32, field: &Vec<u32>) -> usize
    requires within { end ≤ length out.old }
    requires room { row_size (Repeated number U32) (elements_part Number field.now.items) ≤ end }
    ensures start { result + row_size (Repeated number U32) (elements_part Number field.now.items) ≡ end }
    ensures written { drop result out.new ≡ before_row (Repeated number U32) (elements_part Number field.now.items)
        (drop end out.old) }
{
    if field.is_empty() {
        return end;
    }
    let start = write_run(out, end, field);
    write_length(out, start, number, end - start)
}

/// Writes the varints of numbers before `end`, without a key and a length, and returns where they begin.
pub fn write_run(out: &mut [u8], end: usize, numbers: &Vec<u32>) -> usize
    requires within { end ≤ length out.old }
    requires room { length (varints_of numbers.now.items) ≤ end }
    ensures start { result + length (varints_of numbers.now.items) ≡ end }
    ensures written { drop result out.new ≡ varints_of numbers.now.items ++ drop end out.old }
{
    let mut start = end;
    for i in (0..numbers.len()).rev() {
        start = write_varint(out, start, u64::from(numbers[i]));
    }
    start
}
