//! Writing records of a canonical payload, from its end to its beginning.
//!
//! Each function writes the bytes of a slice right before `end`, and returns where they begin. The caller has checked
//! that there is room, so nothing is tested and nothing can fail.

ghost use Rattle.std.specs.Prelude.{◌≡◌, ◌+◌, ◌<◌, ◌≤◌, ◌++◌, length, drop};
ghost use Rattle.shared_core_wire.specs.Encoding.{shortest_varint, key_bytes};
ghost use Rattle.shared_core_codec.specs.RowEncoding.{length_record, varint_record};

use crate::copy::copy;
use crate::size::{LENGTH, VARINT, key};

/// Writes the shortest varint of a number.
#[inline(always)]
#[tactic(auto, using(crate::proofs::Backwards::one_before, crate::proofs::Varints::one_byte))]
pub fn write_varint(out: &mut [u8], end: usize, number: u64) -> usize
    requires within { end ≤ length out.old }
    requires room { length (shortest_varint number) ≤ end }
    ensures start { result + length (shortest_varint number) ≡ end }
    ensures written { drop result out.new ≡ shortest_varint number ++ drop end out.old }
{
    // most varints are keys, lengths and small numbers of one byte
    if number < 128 {
        let start = end - 1;
        out[start] = number as u8;
        return start;
    }
    write_long_varint(out, end, number)
}

/// Writes the shortest varint of a number that takes more than one byte.
#[tactic(auto, using(crate::proofs::Backwards::two_bytes_before, crate::proofs::Backwards::two_bytes_size, crate::proofs::Backwards::more_before, crate::proofs::Backwards::more_size))]
fn write_long_varint(out: &mut [u8], end: usize, number: u64) -> usize
    requires long { 128 ≤ number }
    requires within { end ≤ length out.old }
    requires room { length (shortest_varint number) ≤ end }
    ensures start { result + length (shortest_varint number) ≡ end }
    ensures written { drop result out.new ≡ shortest_varint number ++ drop end out.old }
{
    if number < 16384 {
        let start = end - 2;
        out[start + 1] = (number / 128) as u8;
        out[start] = (number % 128) as u8 + 128;
        return start;
    }
    let start = write_long_varint(out, end, number / 128) - 1;
    out[start] = (number % 128) as u8 + 128;
    start
}

/// Writes bytes.
#[inline(always)]
fn write_content(out: &mut [u8], end: usize, content: &[u8]) -> usize
    requires within { end ≤ length out.old }
    requires room { length content.now ≤ end }
    ensures start { result + length content.now ≡ end }
    ensures written { drop result out.new ≡ content.now ++ drop end out.old }
{
    let start = end - content.len();
    copy(&mut out[start..end], content);
    start
}

/// Writes a record of a varint.
#[inline(always)]
#[tactic(auto, using(crate::proofs::Backwards::two_before, crate::proofs::Backwards::two_size))]
pub(crate) fn write_varint_record(out: &mut [u8], end: usize, number: u32, value: u64) -> usize
    requires within { end ≤ length out.old }
    requires room { length (varint_record number value) ≤ end }
    ensures start { result + length (varint_record number value) ≡ end }
    ensures written { drop result out.new ≡ varint_record number value ++ drop end out.old }
{
    let start = write_varint(out, end, value);
    write_varint(out, start, key(number, VARINT))
}

/// Writes the key and the length of a length-delimited record whose content, of this length, comes after.
#[inline(always)]
#[tactic(auto, using(crate::proofs::Backwards::two_before))]
pub fn write_length(out: &mut [u8], end: usize, number: u32, len: usize) -> usize
    requires within { end ≤ length out.old }
    requires room { length (key_bytes number 2) + length (shortest_varint len) ≤ end }
    ensures start { result + (length (key_bytes number 2) + length (shortest_varint len)) ≡ end }
    ensures written { drop result out.new ≡ key_bytes number 2 ++ (shortest_varint len ++ drop end out.old) }
{
    let start = write_varint(out, end, len as u64);
    write_varint(out, start, key(number, LENGTH))
}

/// Writes a length-delimited record.
#[inline(always)]
#[tactic(auto, using(crate::proofs::Backwards::record_before, crate::proofs::Backwards::record_size))]
pub fn write_length_record(out: &mut [u8], end: usize, number: u32, content: &[u8]) -> usize
    requires within { end ≤ length out.old }
    requires room { length (length_record number content.now) ≤ end }
    ensures start { result + length (length_record number content.now) ≡ end }
    ensures written { drop result out.new ≡ length_record number content.now ++ drop end out.old }
{
    let start = write_content(out, end, content);
    write_length(out, start, number, content.len())
}
