//! The trait of records, and what it provides for all of them: decoding, merging and encoding whole payloads.
//!
//! From a payload to a field it is four steps: `decode_payload` begins with the empty record, `merge_payload` names the
//! whole payload, `merge_occurrences` is the loop, and `merge_field` gives each occurrence to its field. A message in a
//! field goes straight to the loop.
//!
//! `merge_field` names the row that may change by the record's number, so that a record's own proof compares no other
//! row (`RowsAfter`); that nothing is lost is concluded once, in the loop.

ghost use Rattle.std.specs.Prelude.{◌≡◌, ◌≤◌, ◌<◌, ◌^◌, ◌++◌, ◌+◌, ℕ, drop};
ghost use Rattle.std.specs.Prelude.{IfOk, OnOk, OnErr, is_ok, vec_len, vec_capacity, MatchOption, Err, false, length};
ghost use Rattle.std.specs.List.{All, concat};
ghost use Rattle.std.specs.Result.{IsErrOf};
ghost use Rattle.shared_core_wire.specs.ReadRecords.{read_records};
ghost use Rattle.shared_core_wire.specs.Value.{Parts, empty_value};
ghost use Rattle.shared_core_wire.specs.Canonical.{canonical_payload, size};
ghost use Rattle.shared_core_wire.specs.Fitting.{Fits};
ghost use Rattle.shared_core_codec.specs.Table.{table};
ghost use Rattle.shared_core_codec.specs.Computed.{IsComputed};
ghost use Rattle.shared_core_codec.specs.Folding.{fold_read};
ghost use Rattle.shared_core_codec.specs.Occurrences.{schema_accepts, RecordMerges, merged_with};
ghost use Rattle.shared_core_codec.specs.Kept.{RowsAfter, PartsKept, IsPartlyMerged};
ghost use Rattle.shared_core_codec.specs.Payloads.{IsAccepted, merged_payload, payload_meaning, IsReadBack};
ghost use Rattle.shared_core_codec.specs.RowEncoding.{measured_rows, before_rows, rows_size};
ghost use Rattle.shared_core_codec.specs.RowFitting.{FieldsFit};
ghost use Rattle.shared_core_codec.specs.Equality.{DecidesEquality};
ghost use Rattle.shared_core_codec.specs.declared.error.EncodingError.TheVariants.{PayloadTooLong, OutOfMemory};
ghost use Rattle.shared_core_wire.specs.declared.error.WireError.TheVariants as error;

use crate::error::EncodingError;
use crate::message_bytes::MessageBytes;
use crate::occurrence::Occurrence;
use crate::size::Size;
use bytes::{Bytes, BytesMut};
use shared_core_wire::error::WireError;
use shared_core_wire::records::Records;
use std::alloc::Global;

/// A record: a message of the protocol as a struct, with the payloads of its schema.
///
/// An impl gives its schema and its parts, and four functions with one line a field: `empty`, `merge_field`, `measure`
/// and `encode_back`. Decoding and encoding whole payloads is provided here.
pub trait WireRecord: Sized + Drop + PartialEq {
    /// The index of its schema in the table: a number, since `Future` names itself.
    ghost schema: { ℕ };

    /// Its value: one part for each row of its schema.
    ghost parts: { Self → Parts };

    /// Returns the record in which every field is absent. Does not allocate.
    fn empty(alloc: Global) -> Self
        ensures { parts result ≡ empty_value (table schema) };

    /// Merges one occurrence into the field of its number; if the schema has no such field, nothing changes. After an
    /// error only that field may have changed, and nothing that it held is lost. (For the code of records.)
    fn merge_field(&mut self, field: &Occurrence<'_>) -> Result<(), WireError>
        ensures ok { OnOk result (RecordMerges schema field.now (parts self.old) (parts self.new)) }
        ensures malformed { IsErrOf result error.Malformed → schema_accepts schema field.now ≡ false }
        ensures kept { RowsAfter (table schema) field.now.number (parts self.old) (parts self.new) (is_ok result) };

    /// Adds the sizes of the fields, in the order of the schema. (For the code of records.)
    fn measure(&self, size: &mut Size)
        ensures sum { size.new ≡ measured_rows (table schema) (parts self.now) size.old }
        ensures fit { FieldsFit (table schema) (parts self.now) };

    /// Writes the fields before `end`, the last one first, and returns where the first begins. (For the code of
    /// records.)
    fn encode_back(&self, out: &mut [u8], end: usize) -> usize
        requires within { end ≤ length out.old }
        requires room { rows_size (table schema) (parts self.now) ≤ end }
        ensures start { result + rows_size (table schema) (parts self.now) ≡ end }
        ensures written { drop result out.new ≡ before_rows (table schema) (parts self.now) (drop end out.old) };

    /// Two records are equal if and only if their values are.
    ghost equality: { (a b : Self) → DecidesEquality (Self.eq a b) (parts a) (parts b) };

    /// Decodes a payload. Returns `Malformed` if it is not well-formed for the schema, `OutOfMemory` if an allocation
    /// fails; if both are the case, either.
    final fn decode(alloc: Global, payload: Bytes) -> Result<Self, WireError>
        ensures accepted { IfOk result (λ v. IsAccepted schema payload) }
        ensures meaning { IfOk result (λ v. parts v ≡ payload_meaning schema payload) }
        ensures malformed { IsErrOf result error.Malformed → ¬ (IsAccepted schema payload) }
    {
        decode_payload(alloc, &payload)
    }

    /// Merges a payload into the record, whatever it holds, and returns it. The errors are those of `decode`; after an
    /// error the record is dropped.
    final fn merge(self, alloc: Global, payload: Bytes) -> Result<Self, WireError>
        ensures accepted { IfOk result (λ w. IsAccepted schema payload) }
        ensures merged { IfOk result (λ w. parts w ≡ merged_payload schema (parts self) payload) }
        ensures malformed { IsErrOf result error.Malformed → ¬ (IsAccepted schema payload) }
    {
        let mut record = self;
        merge_payload(&mut record, alloc, &payload)?;
        Ok(record)
    }

    /// Returns the number of bytes of the canonical payload, or None if it is more than 4,294,967,295. Does not
    /// allocate.
    #[tactic(auto, using(crate::proofs::Measuring::size_is, crate::proofs::FittingRows::fits_rows))]
    final fn encoded_len(&self) -> Option<u32>
        ensures len { MatchOption result (2 ^ 32 ≤ size table schema (parts self.now))
            (λ n. n ≡ size table schema (parts self.now)) }
        ensures fit { Fits table (parts self.now) (table schema) }
    {
        let mut size = Size::new();
        self.measure(&mut size);
        size.payload_len()
    }

    /// Writes the canonical payload into a slice of exactly its length. (For the code of records.)
    #[tactic(auto, using(crate::proofs::Backwards::payload_fits, crate::proofs::Backwards::payload_whole))]
    final fn fill_payload(&self, out: &mut [u8])
        requires len { length out.old ≡ size table schema (parts self.now) }
        ensures { out.new ≡ canonical_payload table schema (parts self.now) }
    {
        let end = out.len();
        self.encode_back(out, end);
    }

    /// Appends the canonical payload. Returns `PayloadTooLong` if and only if it has more than 4,294,967,295 bytes,
    /// before anything is allocated; `OutOfMemory` if the allocation fails, which is made only if the buffer has too
    /// little room. After either the buffer is unchanged. Its capacity never shrinks.
    final fn encode_payload_into(&self, out: &mut Vec<u8>) -> Result<(), EncodingError>
        ensures ok { OnOk result (out.new.items ≡ out.old.items ++ canonical_payload table schema (parts self.now)) }
        ensures short { OnOk result (size table schema (parts self.now) < 2 ^ 32) }
        ensures reads_back { OnOk result (IsReadBack schema (parts self.now)
            (canonical_payload table schema (parts self.now))) }
        ensures unchanged { OnErr result (out.new.items ≡ out.old.items) }
        ensures capacity { vec_capacity out.old ≤ vec_capacity out.new }
        ensures full { IsErrOf result OutOfMemory
            → vec_capacity out.old < vec_len out.old + size table schema (parts self.now) }
        ensures too_long { IsErrOf result PayloadTooLong → 2 ^ 32 ≤ size table schema (parts self.now) }
        ensures rejected { 2 ^ 32 ≤ size table schema (parts self.now) → result ≡ Err PayloadTooLong }
    {
        let Some(len) = self.encoded_len() else {
            return Err(EncodingError::PayloadTooLong);
        };
        let start = out.len();
        out.resize(start + len as usize, 0)?;
        self.fill_payload(&mut out[start..]);
        Ok(())
    }

    /// Appends the canonical payload, as `encode_payload_into` does, to a buffer whose spare room is initialized, so
    /// that no byte is written twice.
    final fn encode_payload_into_bytes(&self, out: &mut BytesMut) -> Result<(), EncodingError>
        ensures ok { OnOk result (out.new.items ≡ out.old.items ++ canonical_payload table schema (parts self.now)) }
        ensures short { OnOk result (size table schema (parts self.now) < 2 ^ 32) }
        ensures reads_back { OnOk result (IsReadBack schema (parts self.now)
            (canonical_payload table schema (parts self.now))) }
        ensures unchanged { OnErr result (out.new.items ≡ out.old.items) }
        ensures full { IsErrOf result OutOfMemory → out.old.spare < size table schema (parts self.now) }
        ensures spare { OnOk result (out.old.spare ≤ out.new.spare + size table schema (parts self.now)) }
        ensures kept { OnErr result (out.old.spare ≤ out.new.spare) }
        ensures too_long { IsErrOf result PayloadTooLong → 2 ^ 32 ≤ size table schema (parts self.now) }
        ensures rejected { 2 ^ 32 ≤ size table schema (parts self.now) → result ≡ Err PayloadTooLong }
    {
        let len = match self.encoded_len() {
            Some(len) => len as usize,
            None => return Err(EncodingError::PayloadTooLong),
        };
        let front = out.len();
        out.reserve(len)?;
        out.advance_mut(len);
        self.fill_payload(&mut out.as_mut_slice()[front..]);
        Ok(())
    }

    /// Returns the canonical payload. `PayloadTooLong` if and only if it has more than 4,294,967,295 bytes, before
    /// anything is allocated; `OutOfMemory` if an allocation fails.
    final fn encode_payload(&self, alloc: Global) -> Result<Bytes, EncodingError>
        ensures ok { IfOk result (λ b. b ≡ canonical_payload table schema (parts self.now)) }
        ensures short { IfOk result (λ b. length b < 2 ^ 32) }
        ensures reads_back { IfOk result (IsReadBack schema (parts self.now)) }
        ensures too_long { IsErrOf result PayloadTooLong → 2 ^ 32 ≤ size table schema (parts self.now) }
        ensures rejected { 2 ^ 32 ≤ size table schema (parts self.now) → result ≡ Err PayloadTooLong }
    {
        let mut out = Vec::new(alloc);
        self.encode_payload_into(&mut out)?;
        Ok(Bytes::from_vec(out)?)
    }
}

/// Merges the bytes of a message into a record, one occurrence after the other. After an error those up to some one are
/// merged, and the next one has replaced nothing.
pub(crate) fn merge_occurrences<M: WireRecord>(
    target: &mut M,
    message: &MessageBytes<'_>,
) -> Result<(), WireError>
    ensures computed { IsComputed (λ _. M.parts target.new) result
        (fold_read (merged_with message.now.left M.schema) (M.parts target.old)
        (read_records message.now.left message.now.bytes.now)) }
    ensures kept { PartsKept (M.parts target.old) (M.parts target.new) }
    ensures partly { OnErr result (IsPartlyMerged message.now.left M.schema (M.parts target.old)
        (read_records message.now.left message.now.bytes.now) (M.parts target.new)) }
{
    for item in Records::within(message.bytes, message.left) {
        let found = item?;
        target.merge_field(&message.occurrence(&found))?;
    }
    Ok(())
}

/// Merges a payload that its owner keeps into the caller's record, whatever that holds, as `merge` does, without moving
/// the record. The errors are those of `decode`.
///
/// After an error the payload's records are merged up to some one of them: numbers, texts, bytes and the members of
/// oneofs may have been replaced by what these say. Lists have the elements that they had at their front, messages hold
/// what they held, and a field that was present is present. The next record may have changed its own field only: it
/// replaces no number, text, bytes or member of a oneof, but a message or a list may have part of it, and an absent
/// field may be present.
#[tactic(auto, using(crate::proofs::MergingRecords::computed_accepted, crate::proofs::MergingRecords::computed_merged, crate::proofs::MergingRecords::computed_rejected))]
pub fn merge_payload<M: WireRecord>(
    target: &mut M,
    alloc: Global,
    payload: &Bytes,
) -> Result<(), WireError>
    ensures accepted { OnOk result (IsAccepted M.schema payload.now) }
    ensures merged { OnOk result (M.parts target.new ≡ merged_payload M.schema (M.parts target.old) payload.now) }
    ensures malformed { IsErrOf result error.Malformed → ¬ (IsAccepted M.schema payload.now) }
    ensures kept { PartsKept (M.parts target.old) (M.parts target.new) }
    ensures partly { OnErr result (IsPartlyMerged 100 M.schema (M.parts target.old) (read_records 100 payload.now)
        (M.parts target.new)) }
{
    merge_occurrences(target, &MessageBytes::whole(alloc, payload))
}

/// Decodes a payload that its owner keeps, as `decode` does, without counting one more owner.
pub fn decode_payload<M: WireRecord>(alloc: Global, payload: &Bytes) -> Result<M, WireError>
    ensures accepted { IfOk result (λ m. IsAccepted M.schema payload.now) }
    ensures meaning { IfOk result (λ m. M.parts m ≡ payload_meaning M.schema payload.now) }
    ensures malformed { IsErrOf result error.Malformed → ¬ (IsAccepted M.schema payload.now) }
{
    let mut record = M::empty(alloc);
    merge_payload(&mut record, alloc, payload)?;
    Ok(record)
}

/// Decodes a payload that comes in chunks, each of which is well-formed by itself: the meaning of the joined chunks.
/// The errors are those of `decode`; `Malformed` says that a chunk is not well-formed.
pub fn decode_parts<M: WireRecord>(
    alloc: Global,
    first: Bytes,
    rest: &[Bytes],
) -> Result<M, WireError>
    ensures accepted { IfOk result (λ m. IsAccepted M.schema first × All (IsAccepted M.schema) rest.now) }
    ensures meaning { IfOk result (λ m. M.parts m ≡ payload_meaning M.schema (first ++ concat rest.now)) }
    ensures malformed { IsErrOf result error.Malformed
        → ¬ (IsAccepted M.schema first × All (IsAccepted M.schema) rest.now) }
{
    let mut record = M::decode(alloc, first)?;
    for part in rest {
        merge_payload(&mut record, alloc, part)?;
    }
    Ok(record)
}
