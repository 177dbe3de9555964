//! The trait of records that a caller in C has as structs, and the payload of one.

ghost use Rattle.std.specs.Prelude.{◌≡◌, ◌+◌, ◌<◌, ◌≤◌, ◌^◌, ℕ, IfOk, length, drop};
ghost use Rattle.shared_core_wire.specs.Schema as schema;
ghost use Rattle.shared_core_wire.specs.Value.{Parts};
ghost use Rattle.shared_core_wire.specs.Canonical.{canonical_payload, size};
ghost use Rattle.shared_core_wire.specs.Fitting.{Fits};
ghost use Rattle.shared_core_codec.specs.Table.{table};
ghost use Rattle.shared_core_codec.specs.FieldParts.{message_part};
ghost use Rattle.shared_core_codec.specs.RowEncoding.{before_rows, measured_rows, rows_size};
ghost use Rattle.shared_core_codec.specs.Payloads.{IsReadBack};
ghost use Rattle.std.specs.Prelude.{IsErrOf};
ghost use Rattle.shared_core_borrowed.specs.Fit.{rows_fit};
ghost use Rattle.shared_core_borrowed.specs.declared.record.RecordError.TheVariants as error;

use crate::measure::Measure;
use crate::value::{Element, FieldValue};
use shared_core_codec::write::write_length;

/// A record as a struct of slices.
pub trait Record: Sized + Drop {
    /// The index of its schema in the table.
    ghost schema: { ℕ };

    /// Its value: one part for each row of its schema.
    ghost parts: { Self → Parts };

    /// Adds the sizes of the fields, in the order of the schema, and notes whether each may have its value.
    fn measure(&self, measure: &mut Measure)
        ensures sum { measure.new.size ≡ measured_rows (table schema) (parts self.now) measure.old.size }
        ensures fit { measure.new.fits ≡ rows_fit (table schema) (parts self.now) measure.old.fits };

    /// Writes the fields before `end`, the last one first, and returns where the first begins.
    fn encode_back(&self, out: &mut [u8], end: usize) -> usize
        requires within { end ≤ length out.old }
        requires room { rows_size (table schema) (parts self.now) ≤ end }
        ensures start { result + rows_size (table schema) (parts self.now) ≡ end }
        ensures written { drop result out.new ≡ before_rows (table schema) (parts self.now) (drop end out.old) };
}

impl<R: Record> FieldValue for R {
    ghost use Rattle.std.specs.Prelude.{refl};

    ghost kind = { schema.Message R.schema };

    ghost part = { λ value. message_part R.parts value };

    #[tactic(auto, using(shared_core_codec::proofs::Measuring::measured_message_is, crate::proofs::Fitting::record_fits))]
    fn measure_value(&self, measure: &mut Measure, number: u32) {
        let mut nested = Measure::new();
        self.measure(&mut nested);
        measure.size.add_sized(number, &nested.size);
        measure.check(nested.fits);
    }

    #[inline(always)]
    #[tactic(auto, using(shared_core_codec::proofs::Backwards::message_before, shared_core_codec::proofs::Backwards::message_size))]
    fn write_value(&self, out: &mut [u8], end: usize, number: u32) -> usize {
        let start = self.encode_back(out, end);
        write_length(out, start, number, end - start)
    }

    ghost present = { λ _. refl };
}

impl<R: Record> Element for R {
    ghost use Rattle.std.specs.Prelude.{refl};

    ghost one_by_one = { refl };
}

/// Why a record has no payload.
#[derive(Clone, Copy, Debug, PartialEq, Eq, Drop)]
pub enum RecordError {
    /// A text is not UTF-8, or a oneof's number is that of no member.
    Malformed,
    /// The payload would have more than 4,294,967,295 bytes.
    TooLong,
}

/// Returns the number of bytes of the canonical payload of a record. Allocates nothing.
///
/// `Malformed` if and only if a text is not UTF-8 or a oneof's number is that of no member; otherwise `TooLong` if and
/// only if the payload would have more than 4,294,967,295 bytes.
#[inline(always)]
#[tactic(auto, using(crate::proofs::Whole::short, crate::proofs::Whole::long, crate::proofs::Whole::read_back, crate::proofs::Fitting::accepted, crate::proofs::Fitting::rejected))]
pub fn payload_len<R: Record>(given: &R) -> Result<usize, RecordError>
    ensures fit { IfOk result (λ n. Fits table (R.parts given.now) (table R.schema)) }
    ensures length { IfOk result (λ n. n ≡ size table R.schema (R.parts given.now)) }
    ensures short { IfOk result (λ n. n < 2 ^ 32) }
    ensures reads_back { IfOk result (λ n. IsReadBack R.schema (R.parts given.now)
        (canonical_payload table R.schema (R.parts given.now))) }
    ensures malformed { IsErrOf result error.Malformed → ¬ (Fits table (R.parts given.now) (table R.schema)) }
    ensures too_long { IsErrOf result error.TooLong → 2 ^ 32 ≤ size table R.schema (R.parts given.now) }
    ensures fits { IsErrOf result error.TooLong → Fits table (R.parts given.now) (table R.schema) }
{
    let mut measure = Measure::new();
    given.measure(&mut measure);
    if !measure.fits {
        return Err(RecordError::Malformed);
    }
    let Some(length) = measure.size.payload_len() else {
        return Err(RecordError::TooLong);
    };
    Ok(length as usize)
}

/// Writes the canonical payload of a record into a slice of exactly its length.
#[inline(always)]
#[tactic(auto, using(shared_core_codec::proofs::Backwards::payload_fits, shared_core_codec::proofs::Backwards::payload_whole))]
pub fn fill_payload<R: Record>(given: &R, out: &mut [u8])
    requires { length out.old ≡ size table R.schema (R.parts given.now) }
    ensures { out.new ≡ canonical_payload table R.schema (R.parts given.now) }
{
    let end = out.len();
    given.encode_back(out, end);
}
