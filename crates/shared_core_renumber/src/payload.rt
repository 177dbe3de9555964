//! A payload at other field numbers.

ghost use Rattle.std.specs.Prelude.{◌^◌, ◌<◌, ◌≡◌, ◌↔◌, Err, IfOk, IsTrue, length};
ghost use Rattle.std.specs.Result.{IsErrOf};
ghost use Rattle.shared_core_renumber.specs.Payloads.{IsRenumberable, IsRenumberedTooLong, IsRenumbered};
ghost use Rattle.shared_core_renumber.specs.declared.error.RenumberError.TheVariants.{Malformed, TooLong};

use crate::check::{Level, allows_payload};
use crate::entries::Renumbering;
use crate::error::RenumberError;
use crate::source::Source;
use crate::write::append_message;
use shared_core_wire::records::LEVELS;
use std::alloc::Global;

/// The most bytes of a payload.
const LIMIT: usize = 4_294_967_295;

/// Whether a payload of a schema can be written at the numbers of a table, as `renumbered` writes it: only then it has
/// no fault of the kind `Malformed`. Does not allocate.
pub fn is_renumberable(entries: &[Renumbering], schema: u64, payload: &[u8]) -> bool
    ensures { IsTrue result ↔ IsRenumberable entries.now schema payload.now }
{
    let level = Level {
        bytes: payload,
        schema,
        left: LEVELS,
    };
    allows_payload(entries, &level)
}

/// Returns a payload of a schema with the field numbers of a table: the records of its fields, group by group in the
/// table's order, and within a group in their own order. Lengths and numbers are written in their shortest form, and so
/// are the messages within. A record whose field is not in the table is left out.
///
/// `Malformed` if and only if the payload or a message within that the table has is not made of records, or a record is
/// of another form than its field, or more than one hundred levels deep, before anything is allocated; `TooLong` if the
/// result has more than 4,294,967,295 bytes; `OutOfMemory` if an allocation fails. Any table is safe: each record is
/// compared with each entry twice at most. What is nested is copied once for each level whose length changes.
pub fn renumbered(
    alloc: Global,
    entries: &[Renumbering],
    schema: u64,
    payload: &[u8],
) -> Result<Vec<u8>, RenumberError>
    ensures renumberable { IfOk result (λ out. IsRenumberable entries.now schema payload.now) }
    ensures renumbered { IfOk result (λ out. IsRenumbered entries.now schema payload.now out.items) }
    ensures short { IfOk result (λ out. length out.items < 2 ^ 32) }
    ensures malformed { IsErrOf result Malformed → ¬ (IsRenumberable entries.now schema payload.now) }
    ensures rejected { ¬ (IsRenumberable entries.now schema payload.now) → result ≡ Err Malformed }
    ensures too_long { IsErrOf result TooLong → IsRenumberedTooLong entries.now schema payload.now }
{
    if !is_renumberable(entries, schema, payload) {
        return Err(RenumberError::Malformed);
    }
    let source = Source {
        alloc,
        bytes: payload,
        schema,
        left: LEVELS,
    };
    let mut out = Vec::with_capacity(alloc, payload.len())?;
    append_message(entries, &source, &mut out)?;
    if out.len() > LIMIT {
        return Err(RenumberError::TooLong);
    }
    Ok(out)
}
