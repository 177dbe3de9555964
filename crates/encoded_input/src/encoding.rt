//! The encodings.

/// How bytes are written as text.
#[derive(Clone, Copy, Debug, PartialEq, Eq, Drop)]
pub enum Encoding {
    /// In hexadecimal digits of either case, after `0x`, `\x` or nothing.
    Hex,
    /// In base64, of the standard alphabet or that for URLs, padded or not (RFC 4648, sections 4 and 5).
    Base64,
}
