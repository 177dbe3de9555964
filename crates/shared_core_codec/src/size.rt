//! The size of a canonical payload: a sum, capped at 2^32, and what each kind of record adds to it.

ghost use Rattle.std.specs.Prelude.{◌≡◌, ◌+◌, ◌*◌, ◌^◌, ◌<◌, ◌≤◌, length, MatchOption};
ghost use Rattle.shared_core_wire.specs.Encoding.{shortest_varint, key_bytes};
ghost use Rattle.shared_core_codec.specs.RowEncoding.{length_record, capped, measured_message};

use shared_core_wire::varint::varint_len;
use std::marker::Model;

/// A number of bytes, capped at 2^32, since no payload may have so many.
#[derive(Drop)]
pub struct Size {
    total: u64,
}

impl Model for Size {
    ghost use Rattle.std.specs.Prelude.{ℕ, ◌^◌, ◌≤◌};

    ghost Value = { ℕ };

    ghost view = { λ s. s.total };

    ghost invariant = { λ s. s.total ≤ 2 ^ 32 };
}

/// The wire type of a varint.
pub const VARINT: u64 = 0;

/// The wire type of length-delimited bytes.
pub const LENGTH: u64 = 2;

/// The field numbers below this one have a key of one byte.
pub const SHORT_KEYS: u32 = 16;

/// The number of a key: a field number and a wire type (0 to 5).
#[inline]
pub fn key(number: u32, wire_type: u64) -> u64
    requires { wire_type < 8 }
    ensures { result ≡ 8 * number + wire_type }
{
    8 * u64::from(number) + wire_type
}

/// The number of bytes of the shortest varint of a number.
#[inline]
#[tactic(auto, using(crate::proofs::Varints::one_byte, crate::proofs::Backwards::two_bytes_size))]
pub(crate) fn varint_size(number: u64) -> u64
    ensures len { result ≡ length (shortest_varint number) }
    ensures bound { result ≤ 10 }
{
    // most varints are keys, lengths and small numbers of one byte
    if number < 128 {
        return 1;
    }
    if number < 16384 {
        return 2;
    }
    varint_len(number)
}

impl Size {
    /// The first size that is too long for a payload.
    pub const LIMIT: u64 = 1 << 32;

    /// No bytes.
    #[inline]
    pub fn new() -> Size
        ensures { result ≡ 0 }
    {
        Size { total: 0 }
    }

    /// The number of bytes, or 2^32 if it is more.
    #[inline]
    pub fn total(&self) -> u64
        ensures value { result ≡ self.now }
        ensures bound { result ≤ 2 ^ 32 }
    {
        self.total
    }

    /// The number of bytes of a payload, or None if it is more than 4,294,967,295.
    #[inline]
    pub fn payload_len(&self) -> Option<u32>
        ensures { MatchOption result (2 ^ 32 ≤ self.now) (λ len. (len ≡ self.now) × (len < 2 ^ 32)) }
    {
        let total = self.total();
        if total < Size::LIMIT {
            Some(total as u32)
        } else {
            None
        }
    }

    /// Adds a varint without a key.
    #[inline]
    pub fn add_varint(&mut self, number: u64)
        ensures { self.new ≡ capped (self.old + length (shortest_varint number)) }
    {
        self.total = (self.total + varint_size(number)).min(Size::LIMIT);
    }

    /// Adds a length-delimited record of these bytes.
    #[inline]
    pub fn add_length_record(&mut self, number: u32, content: &[u8])
        ensures { self.new ≡ capped (self.old + length (length_record number content.now)) }
    {
        let len = content.len() as u64;
        let head = varint_size(key(number, LENGTH)) + varint_size(len);
        // one cap for the three: a slice has less than 2^63 bytes
        self.total = (self.total + head + len).min(Size::LIMIT);
    }

    /// Adds a record of a varint.
    #[inline]
    pub(crate) fn add_varint_record(&mut self, number: u32, value: u64)
        ensures { self.new ≡ capped (capped (self.old + length (key_bytes number 0)) + length (shortest_varint value)) }
    {
        let len = varint_size(key(number, VARINT)) + varint_size(value);
        self.total = (self.total + len).min(Size::LIMIT);
    }

    /// Adds a length-delimited record of this length.
    #[inline]
    #[tactic(auto, unfolding(crate::specs::RowEncoding::measured_message))]
    pub fn add_sized(&mut self, number: u32, content: &Size)
        ensures { self.new ≡ measured_message number content.now self.old }
    {
        let len = content.total();
        let head = varint_size(key(number, LENGTH)) + varint_size(len);
        self.total = (self.total + head + len).min(Size::LIMIT);
    }
}
