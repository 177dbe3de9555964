//! The options of a listing.

use shared_core_base::version::Version;

/// The name of a type that the protocol does not have.
#[derive(Clone, Copy)]
pub struct OtherName<'a> {
    /// The code of the type.
    pub code: u16,
    /// What the listing calls it.
    pub name: &'a str,
}

/// How a stream is read that is listed.
#[derive(Clone, Copy)]
pub struct Options<'a> {
    /// The version of the protocol, at least V5 where a stream is listed.
    pub version: Version,
    /// The greatest length of a payload that is taken; `u32::MAX` means no limit.
    pub limit: u32,
    /// The number of bytes that are read at a time, from 1 to 65,536 where a stream is listed.
    pub chunk_size: usize,
    /// Names of types that the protocol does not have. The first one for a code is taken.
    pub names: &'a [OtherName<'a>],
}
