//! How the numbers of a field are written in JSON.

/// How the numbers of a field of kind `U32` or `U64` are written in JSON. On the wire all are varints of as many bits.
#[derive(Clone, Copy, Debug, PartialEq, Eq, Drop)]
pub enum Digits {
    /// Without a sign, as uint32 and uint64.
    Unsigned,
    /// By two's complement, as int64.
    Signed,
    /// An even number as its half, an odd one below zero, as sint32 and sint64.
    ZigZag,
}
