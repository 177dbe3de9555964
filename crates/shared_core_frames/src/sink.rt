//! What payloads are appended to from their front, in the order of their bytes.

ghost use Rattle.std.specs.Prelude.{◌≡◌, ◌++◌, [], ℕ, List, OnOk};
ghost use Rattle.shared_core_wire.specs.Canonical.{canonical_payload};
ghost use Rattle.shared_core_wire.specs.Encoding.{shortest_varint, key_bytes};
ghost use Rattle.shared_core_wire.specs.Schema as row;
ghost use Rattle.shared_core_codec.specs.RowEncoding.{before_row, value_bytes};
ghost use Rattle.shared_core_codec.specs.Table.{table};

use bytes::Bytes;
use shared_core_codec::error::EncodingError;
use shared_core_codec::kind::FieldKind;
use shared_core_codec::oneof::OneOf;
use shared_core_codec::record::WireRecord;
use shared_core_codec::write::write_length;
use std::alloc::AllocError;

/// The most bytes of the key and the length of a record.
const HEAD: usize = 20;

/// What payloads are appended to: the end of a vector, which copies the content of `bytes` fields once, or chunks,
/// which share it where it is long. After an error of a record some of it may be appended.
pub trait PayloadSink {
    /// The bytes that are appended to.
    ghost contents: { Self → List ℕ };

    /// What stays as it is: the bytes before these, and room that it has at least.
    ghost rest: { Self → List ℕ × ℕ };

    /// Appends bytes, which are copied.
    fn put(&mut self, bytes: &[u8]) -> Result<(), AllocError>
        ensures ok { OnOk result (contents self.new ≡ contents self.old ++ bytes.now) }
        ensures rest { rest self.new ≡ rest self.old };

    /// Appends the content of a `bytes` field.
    fn put_content(&mut self, content: &Bytes) -> Result<(), AllocError>
        ensures ok { OnOk result (contents self.new ≡ contents self.old ++ content.now) }
        ensures rest { rest self.new ≡ rest self.old };

    /// Appends a value as a record of this number, which is written from its end.
    fn put_value<V: FieldKind>(&mut self, value: &V, number: u32) -> Result<(), EncodingError>
        ensures ok { OnOk result
            (contents self.new ≡ contents self.old ++ value_bytes number V.kind (V.part value.now)) }
        ensures rest { rest self.new ≡ rest self.old };

    /// Appends the member of a oneof, which is written from its end.
    fn put_member<O: OneOf>(&mut self, member: &O) -> Result<(), EncodingError>
        ensures ok { OnOk result
            (contents self.new ≡ contents self.old ++ before_row (row.OneOf O.members) (O.part member.now) []) }
        ensures rest { rest self.new ≡ rest self.old };

    /// Appends the canonical payload of a record, which is written from its end.
    fn put_record<M: WireRecord>(&mut self, message: &M) -> Result<(), EncodingError>
        ensures ok { OnOk result
            (contents self.new ≡ contents self.old ++ canonical_payload table M.schema (M.parts message.now)) }
        ensures rest { rest self.new ≡ rest self.old };
}

/// Appends the key and the length of a length-delimited record.
#[tactic(auto, using(shared_core_wire::proofs::Shortest::ten_bytes, crate::proofs::Joining::whole_head))]
pub(crate) fn put_length<S: PayloadSink>(
    out: &mut S,
    number: u32,
    len: usize,
) -> Result<(), AllocError>
    ensures ok { OnOk result (S.contents out.new
        ≡ S.contents out.old ++ (key_bytes number 2 ++ shortest_varint len)) }
    ensures rest { S.rest out.new ≡ S.rest out.old }
{
    let mut head = [0u8; HEAD];
    let start = write_length(&mut head, HEAD, number, len);
    out.put(&head[start..])
}
