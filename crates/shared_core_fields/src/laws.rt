//! Laws of fields.

ghost use Rattle.std.specs.Prelude.{ℕ, ◌≡◌, ◌≤◌, ◌+◌, ◌∷◌, flat_map, length};
ghost use Rattle.shared_core_wire.specs.Value.{Parts};
ghost use Rattle.shared_core_wire.specs.Canonical.{canonical_payload};
ghost use Rattle.shared_core_wire.specs.Fitting.{Fits};
ghost use Rattle.shared_core_codec.specs.Table.{table};
ghost use Rattle.shared_core_fields.specs.Fields.{message_fields, fields_payload};
ghost use Rattle.shared_core_fields.specs.Entries.{message_entries, within_field};
ghost use Rattle.shared_core_fields.specs.Rows.{table_rows};

/// The bytes of the fields of a value are its canonical payload.
#[tactic(auto, using(crate::proofs::Back::payload_back))]
pub fn fields_have_the_payload()
    ensures { (s : ℕ) (v : Parts) → Fits table v (table s)
        → fields_payload (message_fields (table s) v) ≡ canonical_payload table s v }
{}

/// The fields of all levels of a value are its fields, each followed by those of the message that it holds, if it holds
/// one, which are a level deeper.
#[tactic(auto, using(crate::proofs::Depths::entries_nested))]
pub fn entries_are_nested_fields()
    ensures { (level s : ℕ) (v : Parts) → message_entries level s v
        ≡ flat_map (λ f. (level, f) ∷ within_field (message_entries (level + 1)) f) (message_fields (table s) v) }
{}

/// The table of a value has at most as many rows as its canonical payload has bytes.
#[tactic(auto, using(crate::proofs::FewRows::few_rows))]
pub fn rows_are_few()
    ensures { (s : ℕ) (v : Parts) → Fits table v (table s) → length (table_rows s v)
        ≤ length (canonical_payload table s v) }
{}
