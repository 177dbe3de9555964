//! A few bytes written into a slice, and whether they are ASCII, which is tested at the same time, by the same chunks.

ghost use Rattle.std.specs.Prelude.{◌≡◌, ◌+◌, ◌<◌, ◌≤◌, IsTrue, true, length};
ghost use Rattle.std.specs.Str.{is_utf8};
ghost use Rattle.shared_core_fields_writer.specs.Room.{Wrote};

use shared_core_codec::copy::{copy, copy_ends, copy_shortest};
use shared_core_codec::utf8::{is_ascii_twice, is_shortest_ascii};

/// How many bytes are few.
pub(crate) const FEW: usize = 64;

/// Writes a few bytes at an index. Returns the index after them.
#[inline(always)]
pub(crate) fn write_few(out: &mut [u8], at: usize, bytes: &[u8]) -> usize
    requires some { 0 < length bytes.now }
    requires few { length bytes.now ≤ 64 }
    requires room { at + length bytes.now ≤ length out.old }
    ensures { Wrote out.old at out.new result bytes.now }
{
    let end = at + bytes.len();
    copy(&mut out[at..end], bytes);
    end
}

/// Writes a few bytes at an index. Returns the index after them, and whether they are ASCII.
#[inline(always)]
pub(crate) fn write_few_ascii(out: &mut [u8], at: usize, bytes: &[u8]) -> (usize, bool)
    requires some { 0 < length bytes.now }
    requires few { length bytes.now ≤ 64 }
    requires room { at + length bytes.now ≤ length out.old }
    ensures written { Wrote out.old at out.new result.0 bytes.now }
    ensures text { IsTrue result.1 → is_utf8 bytes.now ≡ true }
{
    let end = at + bytes.len();
    let is_ascii = copy_few_ascii(&mut out[at..end], bytes);
    (end, is_ascii)
}

/// Copies a few bytes over as many others. Returns whether they are ASCII.
#[inline(always)]
fn copy_few_ascii(out: &mut [u8], bytes: &[u8]) -> bool
    requires few { length bytes.now ≤ 64 }
    requires room { length out.old ≡ length bytes.now }
    ensures copied { out.new ≡ bytes.now }
    ensures text { IsTrue result → is_utf8 bytes.now ≡ true }
{
    let len = bytes.len();
    if len < 8 {
        copy_shortest(out, bytes);
        is_shortest_ascii(bytes)
    } else if len < 16 {
        copy_ends::<8>(out, bytes);
        is_ascii_twice::<8>(bytes)
    } else if len < 32 {
        copy_ends::<16>(out, bytes);
        is_ascii_twice::<16>(bytes)
    } else {
        copy_ends::<32>(out, bytes);
        is_ascii_twice::<32>(bytes)
    }
}
