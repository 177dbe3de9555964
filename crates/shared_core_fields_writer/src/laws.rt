//! Laws of tables and payloads.

ghost use Rattle.std.specs.Prelude.{◌≡◌, ◌≤◌, ◌<◌, ◌^◌, ℕ, List, length, take, Ok};
ghost use Rattle.shared_core_wire.specs.Value.{Parts};
ghost use Rattle.shared_core_wire.specs.Canonical.{canonical_payload, levels};
ghost use Rattle.shared_core_wire.specs.Fitting.{Fits};
ghost use Rattle.shared_core_codec.specs.Table.{table};
ghost use Rattle.shared_core_codec.specs.Canonicity.{IsCanonical};
ghost use Rattle.shared_core_codec.specs.Payloads.{payload_meaning};
ghost use Rattle.shared_core_fields.specs.Rows.{WritesRows, table_rows};
ghost use Rattle.shared_core_fields.specs.declared.table.FieldEntry.{FieldEntry};
ghost use Rattle.shared_core_fields_writer.specs.Tables.{IsTable};
ghost use Rattle.shared_core_fields_writer.specs.Walk.{entries_payload};

/// A table of a value gives the canonical payload of the value.
#[tactic(auto, using(crate::proofs::OutAndIn::table_gives))]
pub fn tables_give_their_payloads()
    ensures { (s : ℕ) (v : Parts) (bytes : List ℕ) (entries : List FieldEntry)
        → Fits table v (table s) → levels v ≤ 100 → length (canonical_payload table s v) < 2 ^ 32
        → IsTable s v bytes entries → entries_payload s entries bytes ≡ Ok (canonical_payload table s v) }
{}

/// The entries that are written for a canonical payload give the payload.
pub fn payloads_come_back()
    ensures { (s : ℕ) (payload : List ℕ) (old new : List FieldEntry)
        → IsCanonical s payload → length (table_rows s (payload_meaning s payload)) ≤ length old
        → WritesRows payload (table_rows s (payload_meaning s payload)) 0 old new
        → entries_payload s (take (length (table_rows s (payload_meaning s payload))) new) payload ≡ Ok payload }
{}
