//! Repeated `uint32` fields, which are written as one packed run (proto3).

ghost use Rattle.std.specs.Prelude.{◌≡◌, ◌+◌, ◌≤◌, ◌++◌, ℕ, length, drop};
ghost use Rattle.shared_core_wire.specs.Schema as schema;
ghost use Rattle.shared_core_wire.specs.Value.{Number};
ghost use Rattle.shared_core_codec.specs.FieldParts.{elements_part};
ghost use Rattle.shared_core_codec.specs.RowEncoding.{before_row, capped, measured_row, row_size, varints_of};
ghost use Rattle.shared_core_codec.specs.RowFitting.{FieldFits};
ghost use Rattle.shared_core_borrowed.specs.Fit.{row_fits};

use crate::measure::Measure;
use shared_core_codec::size::Size;
use shared_core_codec::write::{write_length, write_varint};

/// Adds the size of the run, if there is a number.
#[tactic(auto, using(shared_core_codec::proofs::Measuring::count_packed, shared_core_codec::proofs::Measuring::count_no_packed, crate::proofs::Fitting::numbers_fit))]
pub(crate) fn measure(measure: &mut Measure, number: u32, field: &[u32])
    ensures sum { measure.new.size ≡ measured_row (schema.Repeated number schema.U32)
        (elements_part Number field.now) measure.old.size }
    ensures fit { measure.new.fits ≡ row_fits (schema.Repeated number schema.U32)
        (elements_part Number field.now) measure.old.fits }
{
    let _ = measure.size.total();
    let mut run = Size::new();
    measure_run(&mut run, field);
    if !field.is_empty() {
        measure.size.add_sized(number, &run);
    }
}

/// Adds the sizes of numbers as varints, without a key and a length.
#[tactic(auto, using(shared_core_codec::proofs::Measuring::packed_count, shared_core_codec::proofs::Measuring::packed_whole, shared_core_codec::proofs::FittingRows::fit_next, shared_core_codec::proofs::FittingRows::fit_end, shared_core_codec::proofs::FittingRows::fit_u32))]
fn measure_run(size: &mut Size, numbers: &[u32])
    ensures sum { size.new ≡ capped (size.old + length (varints_of numbers.now)) }
    ensures fit { (n : ℕ) → FieldFits (schema.Repeated n schema.U32) (elements_part Number numbers.now) }
{
    let _ = size.total();
    for number in numbers {
        size.add_varint(u64::from(*number));
    }
}

/// Writes the run before `end`, if there is a number, and returns where it begins.
#[tactic(auto, using(shared_core_codec::proofs::Backwards::packed_size, shared_core_codec::proofs::Backwards::no_packed_size, shared_core_codec::proofs::Backwards::no_packed_before))]
pub(crate) fn write(out: &mut [u8], end: usize, number: u32, field: &[u32]) -> usize
    requires within { end ≤ length out.old }
    requires room { row_size (schema.Repeated number schema.U32) (elements_part Number field.now) ≤ end }
    ensures start { result + row_size (schema.Repeated number schema.U32) (elements_part Number field.now) ≡ end }
    ensures written { drop result out.new ≡ before_row (schema.Repeated number schema.U32)
        (elements_part Number field.now) (drop end out.old) }
{
    if field.is_empty() {
        return end;
    }
    let start = write_run(out, end, field);
    write_length(out, start, number, end - start)
}

/// Writes the varints of numbers before `end`, and returns where they begin.
fn write_run(out: &mut [u8], end: usize, numbers: &[u32]) -> usize
    requires within { end ≤ length out.old }
    requires room { length (varints_of numbers.now) ≤ end }
    ensures start { result + length (varints_of numbers.now) ≡ end }
    ensures written { drop result out.new ≡ varints_of numbers.now ++ drop end out.old }
{
    let mut start = end;
    for i in (0..numbers.len()).rev() {
        start = write_varint(out, start, u64::from(numbers[i]));
    }
    start
}
