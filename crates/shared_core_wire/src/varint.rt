//! Varints (proto3): a number of 64 bits in one to ten bytes of seven bits each, the least significant first.

ghost use Rattle.std.specs.Prelude.{◌≡◌, ◌≤◌, ◌%◌, length};
ghost use Rattle.shared_core_wire.specs.Reader.{Gives, varint_at};
ghost use Rattle.shared_core_wire.specs.Encoding.{shortest_varint};

/// Reads a varint. Returns its number and the bytes after it, or `None` if the bytes do not begin with a varint.
#[inline(always)]
#[tactic(auto, using(crate::proofs::VarintLoop::varint_one, crate::proofs::VarintLoop::varint_two))]
pub fn read_varint(bytes: &[u8]) -> Option<(u64, &[u8])>
    ensures { Gives (λ x. (x.0, x.1.now)) result (varint_at bytes.now) }
{
    let (first, rest) = bytes.split_first()?;
    // most varints are keys, lengths and small numbers of one byte, and most others have two
    if *first < 128 {
        return Some((*first as u64, rest));
    }
    if let Some((second, rest)) = rest.split_first()
        && *second < 128
    {
        return Some(((*first % 128) as u64 + 128 * *second as u64, rest));
    }
    read_long_varint(bytes)
}

/// Reads a varint of any length, as `read_varint` does.
fn read_long_varint(bytes: &[u8]) -> Option<(u64, &[u8])>
    ensures { Gives (λ x. (x.0, x.1.now)) result (varint_at bytes.now) }
{
    let mut rest = bytes;
    let mut number: u64 = 0;
    let mut scale: u64 = 1;
    for _ in 0..9u32 {
        let (byte, after) = rest.split_first()?;
        rest = after;
        if *byte < 128 {
            return Some((number + scale * *byte as u64, rest));
        }
        number += scale * (*byte % 128) as u64;
        scale *= 128;
    }
    let (byte, after) = rest.split_first()?;
    // one of the 64 bits is left for the tenth byte
    if *byte > 1 {
        return None;
    }
    Some((number + scale * *byte as u64, after))
}

/// Returns the low 32 bits of a number.
#[inline(always)]
pub fn low_32(number: u64) -> u32
    ensures { result ≡ number % 4294967296 }
{
    (number % 4_294_967_296) as u32
}

/// Returns the number of bytes of the shortest varint of a number.
#[tactic(auto, using(crate::proofs::Shortest::shortest_large, crate::proofs::Shortest::shortest_small, crate::proofs::Shortest::ten_bytes))]
pub fn varint_len(number: u64) -> u64
    ensures len { result ≡ length (shortest_varint number) }
    ensures bound { result ≤ 10 }
{
    let mut rest = number;
    let mut len = 1;
    while rest >= 128 {
        rest /= 128;
        len += 1;
    }
    len
}
