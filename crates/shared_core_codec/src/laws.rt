//! Laws of records and of the table of schemas. Each is the contract of a function that does nothing, so that its
//! statement is proved.

ghost use Rattle.std.specs.Prelude.{◌≡◌, true, length};
ghost use Rattle.std.specs.List.{list_all};
ghost use Rattle.shared_core_wire.specs.Laws.{AreSchemas};
ghost use Rattle.shared_core_codec.specs.Table.{table, schemas, schema_count};
ghost use Rattle.shared_core_codec.specs.NamedSchemas.{names_schemas};
ghost use Rattle.shared_core_codec.specs.Payloads.{HasOneEncoding, IsReadBackLaw, JoinedPayloadsLaw};

use crate::record::WireRecord;

/// Every entry of the table of the protocol's messages is a valid schema: its numbers are field numbers, and no two
/// fields share one.
pub fn messages_are_schemas()
    ensures { AreSchemas table }
{}

/// Each message kind of the table names one of its schemas.
pub fn message_kinds_name_messages()
    ensures named { list_all names_schemas schemas ≡ true }
    ensures count { length schemas ≡ schema_count }
{}

/// The canonical payload of a record of nesting depth at most one hundred is accepted, and decodes to the record.
#[tactic(auto, using(crate::proofs::PayloadLaws::canonical_is_read_back))]
pub fn canonical_payload_is_read_back<M: WireRecord>(value: &M)
    ensures { IsReadBackLaw M.schema (M.parts value.now) }
{
    value.encoded_len();
}

/// Well-formed payloads may be joined, and decoding the joined payload is decoding the first and merging the second.
#[tactic(auto, using(crate::proofs::PayloadLaws::joined_payloads))]
pub fn joined_payloads_merge<M: WireRecord>(_value: &M)
    ensures { JoinedPayloadsLaw M.schema }
{}

/// Two records of nesting depth at most one hundred are equal if and only if their canonical payloads are.
#[tactic(auto, using(crate::proofs::PayloadLaws::encodes_one))]
pub fn equal_records_have_equal_payloads<M: WireRecord>(a: &M, b: &M)
    ensures { HasOneEncoding M.schema (M.eq a.now b.now) (M.parts a.now) (M.parts b.now) }
{
    a.encoded_len();
    b.encoded_len();
}
