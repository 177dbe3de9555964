//! Whether bytes are a text: most texts are short and ASCII, which is seen in two steps whatever their length.

ghost use Rattle.std.specs.Prelude.{◌≡◌, ◌+◌, ◌<◌, ◌≤◌, ℕ, IsTrue, true, false, get_or, length, MatchOption};
ghost use Rattle.std.specs.Str.{is_utf8};

use std::simd::Simd;

/// Returns bytes as a text, not copied, or `None` if they are not UTF-8.
#[inline(always)]
pub fn as_text(bytes: &[u8]) -> Option<&str>
    ensures { MatchOption result (is_utf8 bytes.now ≡ false)
        (λ text. (text.now ≡ bytes.now) × (is_utf8 bytes.now ≡ true)) }
{
    if !is_text(bytes) {
        return None;
    }
    // it was just seen that they are UTF-8
    Some(unsafe { std::str::from_utf8_unchecked(bytes) })
}

/// Whether bytes are UTF-8.
#[inline(always)]
pub fn is_text(bytes: &[u8]) -> bool
    ensures { result ≡ is_utf8 bytes.now }
{
    is_short_ascii(bytes) || is_any_text(bytes)
}

/// Whether bytes are ASCII, and at most 64.
#[inline(always)]
fn is_short_ascii(bytes: &[u8]) -> bool
    ensures { IsTrue result → is_utf8 bytes.now ≡ true }
{
    let len = bytes.len();
    if len < 8 {
        is_shortest_ascii(bytes)
    } else if len < 16 {
        is_ascii_twice::<8>(bytes)
    } else if len < 32 {
        is_ascii_twice::<16>(bytes)
    } else {
        len <= 64 && is_ascii_twice::<32>(bytes)
    }
}

/// Whether fewer than eight bytes are ASCII.
#[inline(always)]
pub fn is_shortest_ascii(bytes: &[u8]) -> bool
    requires { length bytes.now < 8 }
    ensures { IsTrue result → is_utf8 bytes.now ≡ true }
{
    let len = bytes.len();
    if len >= 4 {
        is_ascii_twice::<4>(bytes)
    } else if len >= 2 {
        is_ascii_twice::<2>(bytes)
    } else {
        len == 0 || is_ascii_twice::<1>(bytes)
    }
}

/// Whether bytes are ASCII, by their first N and their last N, which overlap.
#[inline(always)]
pub fn is_ascii_twice<const N: usize>(bytes: &[u8]) -> bool
    requires lanes { N ≤ 64 }
    requires long { N ≤ length bytes.now }
    requires short { length bytes.now ≤ N + N }
    ensures { IsTrue result → is_utf8 bytes.now ≡ true }
{
    // both are looked at, so that there is one branch
    is_ascii_from::<N>(bytes, 0) & is_ascii_from::<N>(bytes, bytes.len() - N)
}

/// Whether the N bytes from an index on are ASCII.
#[inline(always)]
fn is_ascii_from<const N: usize>(bytes: &[u8], at: usize) -> bool
    requires lanes { N ≤ 64 }
    requires long { at + N ≤ length bytes.now }
    ensures { IsTrue result → (k : ℕ) → at ≤ k → k < at + N → get_or bytes.now k 0 < 128 }
{
    let chunk = Simd::<u8, N>::from_slice(&bytes[at..]);
    chunk.simd_ge(Simd::splat(128)).to_bitmask() == 0
}

/// Whether bytes are UTF-8, however long and whatever they hold. It has no branch for a character, since one that is
/// guessed wrong costs more than the check of a short text.
#[inline(never)]
fn is_any_text(bytes: &[u8]) -> bool
    ensures { result ≡ is_utf8 bytes.now }
{
    simdutf8::is_utf8(bytes)
}
