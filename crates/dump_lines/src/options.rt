//! The options of a dump.

use shared_core_base::version::Version;

/// Which items have lines, and what these contain.
#[derive(Clone, Copy)]
pub struct Options<'a> {
    /// The version of the protocol, at least V5 where a stream is dumped.
    pub version: Version,
    /// The greatest length of a payload that is taken; `u32::MAX` means no limit.
    pub limit: u32,
    /// The codes whose items are printed; none for all items.
    pub codes: &'a [u16],
    /// Whether payloads are printed.
    pub payloads: bool,
    /// Whether bytes that are UTF-8 are printed as texts.
    pub texts: bool,
    /// Whether an object is on several lines, and not on one.
    pub pretty: bool,
    /// Whether the trailing bytes have a line.
    pub rest: bool,
    /// Whether the report has the first error of an item.
    pub strict: bool,
}
