//! Laws of payloads and of equality. Each law is the contract of a function that does nothing, or that only compares
//! its arguments.

ghost use Rattle.std.specs.Prelude.{◌≡◌, ◌≤◌, ◌<◌, ◌↔◌, ◌+◌, ◌*◌, ◌^◌, ℕ, IsTrue, List, ◌++◌, length, Some};
ghost use Rattle.shared_core_wire.specs.Grammar.{FieldRecord, IsBase128, IsVarint};
ghost use Rattle.shared_core_wire.specs.Grammar.{IsKey, IsSequence, IsRecordWithin, IsRecordListWithin};
ghost use Rattle.shared_core_wire.specs.Reader.{packed_numbers, record_list};
ghost use Rattle.shared_core_wire.specs.Laws.{AreSchemas, ListedSchemasLaw, AcceptanceLaw};
ghost use Rattle.shared_core_wire.specs.Laws.{StepLaw, MergeLaw, ReadBackLaw, OneEncodingLaw};
ghost use Rattle.shared_core_wire.specs.Schema.{Row, Table};
ghost use Rattle.shared_core_wire.specs.Template.{ViewLaw};
ghost use Rattle.shared_core_wire.specs.Encoding.{shortest_varint, key_bytes};
ghost use Rattle.shared_core_wire.specs.RecordsLeft.{placed_of};

use crate::error::WireError;
use crate::records::Record;

/// The encodings of varints are prefix-free, and each encodes one number.
pub fn varints_are_prefix_free()
    ensures { (a b x y : List ℕ) (m n : ℕ) → IsVarint a m → IsVarint b n
        → a ++ x ≡ b ++ y → (a ≡ b) × (m ≡ n) }
{}

/// The encodings of records are prefix-free, and each encodes one record.
pub fn records_are_prefix_free()
    ensures { (left : ℕ) (a b x y : List ℕ) (r s : FieldRecord)
        → IsRecordWithin left a r → IsRecordWithin left b s
        → a ++ x ≡ b ++ y → (a ≡ b) × (r ≡ s) }
{}

/// A payload encodes at most one record list.
pub fn record_list_is_unique()
    ensures { (left : ℕ) (payload : List ℕ) (rs ss : List FieldRecord)
        → IsRecordListWithin left payload rs → IsRecordListWithin left payload ss → rs ≡ ss }
{}

/// Joined payloads encode the joined record lists.
pub fn joined_payloads_are_joined_records()
    ensures { (left : ℕ) (a b : List ℕ) (rs ss : List FieldRecord)
        → IsRecordListWithin left a rs → IsRecordListWithin left b ss
        → IsRecordListWithin left (a ++ b) (rs ++ ss) }
{}

/// A record takes at least two bytes.
pub fn record_has_two_bytes()
    ensures { (left : ℕ) (payload : List ℕ) (rs : List FieldRecord)
        → IsRecordListWithin left payload rs → 2 * length rs ≤ length payload }
{}

/// `record_list` returns the record list that a payload encodes, and `None` if it encodes none.
pub fn record_list_is_exact()
    ensures { (left : ℕ) (payload : List ℕ) (rs : List FieldRecord)
        → (record_list left payload ≡ Some rs) ↔ IsRecordListWithin left payload rs }
{}

/// `packed_numbers` returns the numbers that a packed run encodes, and `None` if it encodes none.
pub fn packed_numbers_is_exact()
    ensures { (bytes ns : List ℕ) → (packed_numbers bytes ≡ Some ns) ↔ IsSequence IsVarint bytes ns }
{}

/// `shortest_varint` encodes its number, and no encoding of the number has fewer bytes. `key_bytes` encodes a field
/// number and a wire type.
pub fn shortest_varint_is_shortest()
    ensures encodes { (n : ℕ) → n < 2 ^ 64 → IsVarint (shortest_varint n) n }
    ensures fewest { (n : ℕ) (bytes : List ℕ) → IsBase128 bytes n → length (shortest_varint n) ≤ length bytes }
    ensures key { (number wire : ℕ) → 0 < number → number < 2 ^ 29 → wire < 8
        → IsKey (key_bytes number wire) number wire }
{}

/// A payload is accepted if and only if it encodes a record list whose records its schema accepts.
pub fn accepted_payloads_are_record_lists()
    ensures { (table : Table) → AcceptanceLaw table }
{}

/// Accepted payloads can be joined. Merging them into a value one after the other, or record by record, gives the same
/// as merging their joined record list at once, whatever the value.
pub fn payloads_merge()
    ensures step { (table : Table) → StepLaw table }
    ensures merge { (table : Table) → MergeLaw table }
{}

/// If every schema of a list is valid, every entry of the list's table is.
pub fn listed_schemas_are_schemas()
    ensures { (schemas : List (List Row)) → ListedSchemasLaw schemas }
{}

/// The canonical payload of a value is accepted and means the value.
pub fn canonical_payload_is_read_back()
    ensures { (table : Table) → AreSchemas table → ReadBackLaw table }
{}

/// Two values are equal if and only if their canonical payloads are.
pub fn canonical_payload_is_unique()
    ensures { (table : Table) → AreSchemas table → OneEncodingLaw table }
{}

/// Let a schema's rows be rows of a template, and let no record that the schema skips have a number of the template.
/// Then the template accepts the payload too, and at each of its numbers that occurs in the payload it holds what the
/// schema's value holds.
pub fn template_views_payloads()
    ensures { (table : Table) → ViewLaw table }
{}

/// `==` of errors is equality.
pub fn equal_errors(a: WireError, b: WireError) -> bool
    ensures { IsTrue result ↔ (a ≡ b) }
{
    a == b
}

/// `==` of records compares their numbers, spans and values, and a value by all its bytes.
pub fn equal_records(a: &Record<'_>, b: &Record<'_>) -> bool
    ensures { IsTrue result ↔ (placed_of a.now ≡ placed_of b.now) }
{
    a == b
}
