//! Varints, keys and records, appended to a payload. After an error no content of the buffer is promised.
//!
//! `shared_core_json_reader` appends by these too, so they may be inlined there.

ghost use Rattle.std.specs.Prelude.{◌≡◌, ◌<◌, ◌++◌, OnOk};
ghost use Rattle.shared_core_wire.specs.Encoding.{shortest_varint, key_bytes};
ghost use Rattle.shared_core_wire.specs.WrittenRecords.{number_record, content_record};

use shared_core_codec::size::{LENGTH, VARINT, key};
use std::alloc::AllocError;

/// Appends the shortest varint of a number.
#[inline]
pub fn append_varint(out: &mut Vec<u8>, number: u64) -> Result<(), AllocError>
    ensures { OnOk result (out.new.items ≡ out.old.items ++ shortest_varint number) }
{
    let mut rest = number;
    while rest >= 128 {
        out.push((rest % 128) as u8 + 128)?;
        rest /= 128;
    }
    out.push(rest as u8)?;
    Ok(())
}

/// Appends the key of a record of a wire type, which is below 8.
#[inline]
pub fn append_key(out: &mut Vec<u8>, number: u32, wire: u64) -> Result<(), AllocError>
    requires { wire < 8 }
    ensures { OnOk result (out.new.items ≡ out.old.items ++ key_bytes number wire) }
{
    append_varint(out, key(number, wire))
}

/// Appends the record of a number; 0 is left out in a plain field.
#[inline]
pub fn append_number(
    out: &mut Vec<u8>,
    plain: bool,
    number: u32,
    value: u64,
) -> Result<(), AllocError>
    ensures { OnOk result (out.new.items ≡ out.old.items ++ number_record plain number value) }
{
    if plain && value == 0 {
        return Ok(());
    }
    append_key(out, number, VARINT)?;
    append_varint(out, value)
}

/// Appends the record of some bytes; no bytes are left out in a plain field.
#[inline]
pub fn append_content(
    out: &mut Vec<u8>,
    plain: bool,
    number: u32,
    content: &[u8],
) -> Result<(), AllocError>
    ensures { OnOk result (out.new.items ≡ out.old.items ++ content_record plain number content.now) }
{
    if plain && content.is_empty() {
        return Ok(());
    }
    append_key(out, number, LENGTH)?;
    append_varint(out, content.len() as u64)?;
    out.extend_from_slice(content)
}
