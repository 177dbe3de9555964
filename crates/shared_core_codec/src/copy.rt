//! Bytes copied into a slice: of a few, two copies of a fixed length that overlap take less time than a call.

ghost use Rattle.std.specs.Prelude.{◌≡◌, ◌+◌, ◌<◌, ◌≤◌, length};

use std::simd::Simd;

/// Copies bytes over as many others.
#[inline(always)]
pub fn copy(out: &mut [u8], bytes: &[u8])
    requires { length out.old ≡ length bytes.now }
    ensures { out.new ≡ bytes.now }
{
    let len = bytes.len();
    if len < 8 {
        copy_shortest(out, bytes);
    } else if len < 16 {
        copy_ends::<8>(out, bytes);
    } else if len < 32 {
        copy_ends::<16>(out, bytes);
    } else if len <= 64 {
        copy_ends::<32>(out, bytes);
    } else {
        out.copy_from_slice(bytes);
    }
}

/// Copies fewer than eight bytes over as many others.
#[inline(always)]
pub fn copy_shortest(out: &mut [u8], bytes: &[u8])
    requires few { length bytes.now < 8 }
    requires room { length out.old ≡ length bytes.now }
    ensures { out.new ≡ bytes.now }
{
    let len = bytes.len();
    if len >= 4 {
        copy_ends::<4>(out, bytes);
    } else if len >= 2 {
        copy_ends::<2>(out, bytes);
    } else if len == 1 {
        copy_ends::<1>(out, bytes);
    }
}

/// Copies bytes over as many others, by their first N and their last N, which overlap.
#[inline(always)]
pub fn copy_ends<const N: usize>(out: &mut [u8], bytes: &[u8])
    requires long { N ≤ length bytes.now }
    requires short { length bytes.now ≤ N + N }
    requires room { length out.old ≡ length bytes.now }
    ensures { out.new ≡ bytes.now }
{
    let rest = bytes.len() - N;
    Simd::<u8, N>::from_slice(bytes).copy_to_slice(out);
    Simd::<u8, N>::from_slice(&bytes[rest..]).copy_to_slice(&mut out[rest..]);
}
