//! What is written from its end, appended to a buffer: one value, or the member of a oneof.
//!
//! To a `BytesMut`, whose room is initialized, and to a `Vec<u8>`, whose room is filled with zeros first.

ghost use Rattle.std.specs.Prelude.{◌≡◌, ◌<◌, ◌≤◌, ◌^◌, ◌++◌, [], length, vec_capacity, IfOk, OnOk, OnErr};
ghost use Rattle.shared_core_wire.specs.Schema as row;
ghost use Rattle.shared_core_codec.specs.RowEncoding.{before_row, row_size, value_bytes};

use bytes::BytesMut;
use shared_core_codec::error::EncodingError;
use shared_core_codec::kind::FieldKind;
use shared_core_codec::oneof::OneOf;
use shared_core_codec::size::Size;

/// Appends a value as a record of this number. After an error nothing is appended.
pub(crate) fn copy_value<V: FieldKind>(
    value: &V,
    number: u32,
    out: &mut BytesMut,
) -> Result<(), EncodingError>
    ensures ok { OnOk result (out.new.items ≡ out.old.items ++ value_bytes number V.kind (V.part value.now)) }
    ensures err { OnErr result (out.new.items ≡ out.old.items) }
{
    let (front, len) = (out.len(), value_len(value, number)?);
    out.reserve(len)?;
    out.advance_mut(len);
    fill_value(value, number, &mut out.as_mut_slice()[front..]);
    Ok(())
}

/// Appends a value as a record of this number. After an error nothing is appended.
pub(crate) fn extend_by_value<V: FieldKind>(
    value: &V,
    number: u32,
    out: &mut Vec<u8>,
) -> Result<(), EncodingError>
    ensures ok { OnOk result (out.new.items ≡ out.old.items ++ value_bytes number V.kind (V.part value.now)) }
    ensures err { OnErr result (out.new.items ≡ out.old.items) }
    ensures capacity { vec_capacity out.old ≤ vec_capacity out.new }
{
    let (front, len) = (out.len(), value_len(value, number)?);
    out.resize(front + len, 0)?;
    fill_value(value, number, &mut out[front..]);
    Ok(())
}

/// The number of bytes of a value's record, which is that of a payload at most.
#[tactic(auto, using(crate::proofs::Joining::uncapped))]
fn value_len<V: FieldKind>(value: &V, number: u32) -> Result<usize, EncodingError>
    ensures { IfOk result (λ len. (len ≡ length (value_bytes number V.kind (V.part value.now))) × (len < 2 ^ 32)) }
{
    let mut size = Size::new();
    value.measure_value(&mut size, number);
    let Some(len) = size.payload_len() else {
        return Err(EncodingError::PayloadTooLong);
    };
    Ok(len as usize)
}

/// Writes a value as a record of this number into a slice of exactly its length.
#[tactic(auto, using(crate::proofs::Joining::filled))]
fn fill_value<V: FieldKind>(value: &V, number: u32, out: &mut [u8])
    requires len { length out.old ≡ length (value_bytes number V.kind (V.part value.now)) }
    ensures { out.new ≡ value_bytes number V.kind (V.part value.now) }
{
    let end = out.len();
    value.write_value(out, end, number);
}

/// Appends the member of a oneof. After an error nothing is appended.
pub(crate) fn copy_member<O: OneOf>(member: &O, out: &mut BytesMut) -> Result<(), EncodingError>
    ensures ok { OnOk result (out.new.items
        ≡ out.old.items ++ before_row (row.OneOf O.members) (O.part member.now) []) }
    ensures err { OnErr result (out.new.items ≡ out.old.items) }
{
    let (front, len) = (out.len(), member_len(member)?);
    out.reserve(len)?;
    out.advance_mut(len);
    fill_member(member, &mut out.as_mut_slice()[front..]);
    Ok(())
}

/// Appends the member of a oneof. After an error nothing is appended.
pub(crate) fn extend_by_member<O: OneOf>(member: &O, out: &mut Vec<u8>) -> Result<(), EncodingError>
    ensures ok { OnOk result (out.new.items
        ≡ out.old.items ++ before_row (row.OneOf O.members) (O.part member.now) []) }
    ensures err { OnErr result (out.new.items ≡ out.old.items) }
    ensures capacity { vec_capacity out.old ≤ vec_capacity out.new }
{
    let (front, len) = (out.len(), member_len(member)?);
    out.resize(front + len, 0)?;
    fill_member(member, &mut out[front..]);
    Ok(())
}

/// The number of bytes of the member of a oneof, which is that of a payload at most.
#[tactic(auto, using(crate::proofs::Joining::measured_member))]
fn member_len<O: OneOf>(member: &O) -> Result<usize, EncodingError>
    ensures { IfOk result (λ len. (len ≡ row_size (row.OneOf O.members) (O.part member.now)) × (len < 2 ^ 32)) }
{
    let mut size = Size::new();
    member.measure(&mut size);
    let Some(len) = size.payload_len() else {
        return Err(EncodingError::PayloadTooLong);
    };
    Ok(len as usize)
}

/// Writes the member of a oneof into a slice of exactly its length.
#[tactic(auto, using(crate::proofs::Joining::filled_row))]
fn fill_member<O: OneOf>(member: &O, out: &mut [u8])
    requires len { length out.old ≡ row_size (row.OneOf O.members) (O.part member.now) }
    ensures { out.new ≡ before_row (row.OneOf O.members) (O.part member.now) [] }
{
    let end = out.len();
    member.encode_back(out, end);
}
