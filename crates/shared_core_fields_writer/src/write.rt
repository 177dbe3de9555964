//! The canonical payload of a table.

ghost use Rattle.std.specs.Prelude.{◌≡◌, ◌-◌, ◌≤◌, ℕ, List, length, Ok, Err, IfOk, IfErr};
ghost use Rattle.shared_core_fields_writer.specs.Walk.{Fills, entries_payload};
ghost use Rattle.shared_core_fields_writer.specs.Written.{WritesPayload};

use crate::error::{FieldsError, Reason};
use crate::measure::SHORT;
use crate::walk::{Place, Source, write_message};
use shared_core_codec::copy::copy;
use shared_core_codec::size::Size;
use shared_core_fields::table::FieldEntry;

/// How many bytes of a payload are kept until its table is known to be accepted, of a small table and of another one.
/// The room for them is set first, at each call.
const KEPT_FEW: usize = 64;

const KEPT: usize = 256;

/// How many entries a small table has at most, and how many bytes besides.
const FEW_ENTRIES: usize = 4;

const FEW_BYTES: usize = 32;

/// Writes the canonical payload of the value of a schema whose fields of all levels are these entries, which come in
/// the order of the canonical payload, at the front of a slice, if it has room for all of it, otherwise nothing. Texts
/// and bytes are at their offsets in `bytes`. The value and the bytes of a message's entry are its fields, which come
/// next; its offset and length are not looked at. A plain field that is the default may come, and is left out. Returns
/// the length of the payload. Nothing is allocated.
///
/// The error has the first entry that may not come, and the reason. It leaves the slice unchanged.
pub fn write_payload(
    schema: u32,
    entries: &[FieldEntry],
    bytes: &[u8],
    out: &mut [u8],
) -> Result<usize, FieldsError>
    ensures payload { IfOk result (λ length. (payload : List ℕ)
        × WritesPayload schema entries.now bytes.now out.old out.new length payload) }
    ensures error { IfErr result (λ error. entries_payload schema entries.now bytes.now
        ≡ Err (error.reason, length entries.now - error.index)) }
    ensures index { IfErr result (λ error. error.index ≤ length entries.now) }
    ensures unchanged { IfErr result (λ error. out.new ≡ out.old) }
{
    if entries.len() <= FEW_ENTRIES && bytes.len() <= FEW_BYTES {
        write_kept(schema, entries, bytes, out, &mut [0; KEPT_FEW])
    } else {
        write_kept(schema, entries, bytes, out, &mut [0; KEPT])
    }
}

/// The same, where the payload is kept in another slice first. If it has too little room, the table is read again.
#[inline(always)]
fn write_kept(
    schema: u32,
    entries: &[FieldEntry],
    bytes: &[u8],
    out: &mut [u8],
    kept: &mut [u8],
) -> Result<usize, FieldsError>
    ensures payload { IfOk result (λ length. (payload : List ℕ)
        × WritesPayload schema entries.now bytes.now out.old out.new length payload) }
    ensures error { IfErr result (λ error. entries_payload schema entries.now bytes.now
        ≡ Err (error.reason, length entries.now - error.index)) }
    ensures index { IfErr result (λ error. error.index ≤ length entries.now) }
    ensures unchanged { IfErr result (λ error. out.new ≡ out.old) }
{
    let length = check(kept, schema, entries, bytes)?;
    if length <= out.len() {
        put(&mut out[..length], kept, schema, entries, bytes);
    }
    Ok(length)
}

/// Checks a table, and keeps its payload as far as there is room. Returns the length of the payload.
fn check(
    kept: &mut [u8],
    schema: u32,
    entries: &[FieldEntry],
    bytes: &[u8],
) -> Result<usize, FieldsError>
    ensures payload { IfOk result (λ length. (payload : List ℕ)
        × Fills schema entries.now bytes.now kept.new length payload) }
    ensures error { IfErr result (λ error. entries_payload schema entries.now bytes.now
        ≡ Err (error.reason, length entries.now - error.index)) }
    ensures index { IfErr result (λ error. error.index ≤ length entries.now) }
{
    let source = Source {
        entries,
        bytes,
        is_measured: false,
        first: 0,
        lengths: &[],
    };
    fill(kept, schema, &source)
}

/// Writes the payload of a table that was accepted, and of which this was kept, into a slice that is as long as it is.
#[inline(always)]
fn put(out: &mut [u8], kept: &[u8], schema: u32, entries: &[FieldEntry], bytes: &[u8])
    requires { (payload : List ℕ) × Fills schema entries.now bytes.now kept.now (length out.old) payload }
    ensures { entries_payload schema entries.now bytes.now ≡ Ok out.new }
{
    let length = out.len();
    if length <= kept.len() {
        copy(out, &kept[..length]);
    } else {
        put_long(out, schema, entries, bytes);
    }
}

/// The same of a payload of which nothing was kept.
#[inline(never)]
fn put_long(out: &mut [u8], schema: u32, entries: &[FieldEntry], bytes: &[u8])
    requires { (payload : List ℕ) × (entries_payload schema entries.now bytes.now ≡ Ok payload)
        × (length payload ≡ length out.old) }
    ensures { entries_payload schema entries.now bytes.now ≡ Ok out.new }
{
    let source = Source {
        entries,
        bytes,
        is_measured: out.len() as u64 > SHORT,
        first: 0,
        lengths: &[],
    };
    let Ok(_length) = fill(out, schema, &source) else {
        unreachable!();
    };
}

/// Writes the payload of a table at the front of a slice, as far as there is room. Returns the length of the payload.
fn fill(out: &mut [u8], schema: u32, source: &Source<'_>) -> Result<usize, FieldsError>
    ensures payload { IfOk result (λ length. (payload : List ℕ)
        × Fills schema source.now.entries.now source.now.bytes.now out.new length payload) }
    ensures error { IfErr result (λ error. entries_payload schema source.now.entries.now source.now.bytes.now
        ≡ Err (error.reason, length source.now.entries.now - error.index)) }
    ensures index { IfErr result (λ error. error.index ≤ length source.now.entries.now) }
{
    let mut at = Place { entry: 0, byte: 0 };
    if let Err(reason) = write_message(out, &mut at, source, schema, 0) {
        return Err(FieldsError {
            reason,
            index: at.entry,
        });
    }
    if at.byte as u64 >= Size::LIMIT {
        return Err(FieldsError {
            reason: Reason::TooLong,
            index: at.entry,
        });
    }
    Ok(at.byte)
}
