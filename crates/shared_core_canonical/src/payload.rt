//! The canonical payload of what a payload means.

ghost use Rattle.std.specs.Prelude.{◌≡◌, ◌^◌, ◌≤◌, Err, IfOk};
ghost use Rattle.std.specs.Result.{IsErrOf};
ghost use Rattle.shared_core_codec.specs.Tables.{IsAcceptedIn};
ghost use Rattle.shared_core_canonical.specs.Payloads.{IsCanonicalOfIn, IsTooLongIn};
ghost use Rattle.shared_core_canonical.specs.declared.error.CanonicalError.TheVariants.{Malformed, TooLong};

use crate::canonical::message;
use crate::error::CanonicalError;
use crate::source::Source;
use shared_core_codec::any_table::Schemas;
use shared_core_codec::check::is_well_formed_in;
use shared_core_wire::records::LEVELS;
use std::alloc::Global;

/// The most bytes of a payload.
const LIMIT: usize = 4_294_967_295;

/// Returns the canonical payload of what a payload means, by the schema at an index of a table. `Malformed` if and only
/// if the payload is not well-formed for the schema, before anything is allocated; `TooLong` if the canonical payload
/// has more than 4,294,967,295 bytes; `OutOfMemory` if an allocation fails. Reads the records of a message once, sorts
/// them if they are not in the order of the rows, and copies what is nested at each level.
#[tactic(auto, using(crate::proofs::WholePayloads::whole_payload))]
pub fn canonical_payload_in<T: Schemas>(
    alloc: Global,
    schemas: &T,
    schema: u32,
    payload: &[u8],
) -> Result<Vec<u8>, CanonicalError>
    ensures accepted { IfOk result (λ out. IsAcceptedIn (T.table schemas.now) schema payload.now) }
    ensures canonical { IfOk result (λ out. IsCanonicalOfIn (T.table schemas.now) schema payload.now out.items) }
    ensures malformed { IsErrOf result Malformed → ¬ (IsAcceptedIn (T.table schemas.now) schema payload.now) }
    ensures rejected { ¬ (IsAcceptedIn (T.table schemas.now) schema payload.now) → result ≡ Err Malformed }
    ensures too_long { IsErrOf result TooLong → IsTooLongIn (T.table schemas.now) schema payload.now }
{
    if !is_well_formed_in(schemas, schema, payload) {
        return Err(CanonicalError::Malformed);
    }
    let source = Source {
        alloc,
        bytes: payload,
        left: LEVELS,
    };
    let out = message(schemas, schema, &source)?;
    if out.len() > LIMIT {
        return Err(CanonicalError::TooLong);
    }
    Ok(out)
}
