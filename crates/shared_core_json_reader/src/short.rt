//! Records whose key and length, or number, are a byte each, as most are: appended without a loop, and with one test
//! for room. All others are appended by `append` of `shared_core_canonical`, and their lengths put by `lengths`.

ghost use Rattle.std.specs.Prelude.{◌≡◌, ◌-◌, ◌≤◌, ◌++◌, IfOk, OnOk, length, take, drop};
ghost use Rattle.shared_core_wire.specs.Encoding.{shortest_varint, key_bytes};
ghost use Rattle.shared_core_wire.specs.WrittenRecords.{number_record, content_record};

use crate::lengths;
use shared_core_canonical::append;
use shared_core_codec::size::SHORT_KEYS;
use std::alloc::AllocError;

/// Appends the record of a number; 0 is left out in a plain field.
#[inline(always)]
pub fn append_number(
    out: &mut Vec<u8>,
    plain: bool,
    number: u32,
    value: u64,
) -> Result<(), AllocError>
    ensures { OnOk result (out.new.items ≡ out.old.items ++ number_record plain number value) }
{
    if number >= SHORT_KEYS || value >= 128 || plain && value == 0 {
        return append::append_number(out, plain, number, value);
    }
    out.reserve(2)?;
    out.push_reserved(8 * number as u8);
    out.push_reserved(value as u8);
    Ok(())
}

/// Appends the record of some bytes; no bytes are left out in a plain field.
#[inline(always)]
pub fn append_content(
    out: &mut Vec<u8>,
    plain: bool,
    number: u32,
    content: &[u8],
) -> Result<(), AllocError>
    ensures { OnOk result (out.new.items ≡ out.old.items ++ content_record plain number content.now) }
{
    if number >= SHORT_KEYS || content.len() >= 128 || plain && content.is_empty() {
        return append::append_content(out, plain, number, content);
    }
    out.reserve(content.len() + 2)?;
    out.push_reserved(8 * number as u8 + 2);
    out.push_reserved(content.len() as u8);
    out.extend_from_slice(content)
}

/// Appends what a record of bytes begins with: its key, and their number as a varint. Returns where the latter begins.
#[inline(always)]
pub fn append_prefix(out: &mut Vec<u8>, number: u32, size: u64) -> Result<usize, AllocError>
    ensures bytes { OnOk result (out.new.items
        ≡ (out.old.items ++ key_bytes number 2) ++ shortest_varint size) }
    ensures place { IfOk result (λ place. place ≡ length (out.old.items ++ key_bytes number 2)) }
{
    if number >= SHORT_KEYS || size >= 128 {
        return lengths::append_prefix(out, number, size);
    }
    out.reserve(2)?;
    out.push_reserved(8 * number as u8 + 2);
    let place = out.len();
    out.push_reserved(size as u8);
    Ok(place)
}

/// Puts the length of what comes from `end` on in the place of the bytes from `place` to there, as a varint. What comes
/// after is moved only if these were more or fewer bytes.
#[inline(always)]
pub fn put_length(out: &mut Vec<u8>, place: usize, end: usize) -> Result<(), AllocError>
    requires place { place ≤ end }
    requires end { end ≤ length out.old.items }
    ensures { OnOk result (out.new.items ≡ take place out.old.items
        ++ (shortest_varint (length out.old.items - end) ++ drop end out.old.items)) }
{
    let len = out.len() - end;
    if len >= 128 || end - place != 1 {
        return lengths::put_length(out, place, end);
    }
    out[place] = len as u8;
    Ok(())
}
