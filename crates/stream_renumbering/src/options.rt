//! How a stream is written at other field numbers.

use shared_core_base::version::Version;
use shared_core_renumber::Renumbering;

/// How a stream is read, and by which table its payloads are written.
#[derive(Clone, Copy)]
pub struct Options<'a> {
    /// The version of the protocol, at least V5 where a stream is read.
    pub version: Version,
    /// The greatest length of a payload that is taken; `u32::MAX` means no limit.
    pub limit: u32,
    /// The fields with their numbers.
    pub entries: &'a [Renumbering],
}
