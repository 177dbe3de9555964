//! Conversions between messages and the values of the SDK state machine.

ghost use Rattle.std.specs.Prelude.{◌≡◌, [], IfOk, IsOk, map};
ghost use Rattle.shared_core_parts.specs.Conversions.{failure_contents, terminal_contents};
ghost use Rattle.shared_core_parts.specs.Conversions.{terminal_contents_of, root_header_of, IsOwnedTextOf};
ghost use Rattle.shared_core_parts.specs.Conversions.{IsHeaderOf, NeedsNoCopy, NeedsNoCopies};

use crate::failure::Failure;
use crate::failure_metadata::FailureMetadata;
use crate::header::Header;
use crate::value::Value;
use bytes::Bytes;
use shared_core_base::error::OutOfMemory;
use shared_core_base::text::copy_text;
use shared_core_base::values;
use shared_core_base::values::TerminalFailure;
use std::alloc::Global;
use std::borrow::CowStr;

impl Failure {
    /// Converts a terminal failure to a failure with its code, message and metadata. The texts are moved. `OutOfMemory`
    /// if the list of the metadata cannot be allocated; without metadata it never fails.
    pub fn from_terminal(alloc: Global, terminal: TerminalFailure) -> Result<Failure, OutOfMemory>
        ensures contents { IfOk result (λ failure. failure_contents failure ≡ terminal_contents terminal) }
        ensures succeeds { terminal.metadata.items ≡ [] → IsOk result }
    {
        let metadata = entries_of_pairs(alloc, terminal.metadata)?;
        Ok(Failure {
            code: u32::from(terminal.code),
            message: terminal.message,
            metadata,
        })
    }

    /// Converts a failure to a terminal one with the low 16 bits of its code, its message and its metadata. The texts
    /// are moved. `OutOfMemory` if the list of the metadata cannot be allocated; without metadata it never fails.
    pub fn into_terminal(self, alloc: Global) -> Result<TerminalFailure, OutOfMemory>
        ensures contents { IfOk result (λ terminal. terminal_contents terminal ≡ terminal_contents_of self) }
        ensures succeeds { self.metadata.items ≡ [] → IsOk result }
    {
        let metadata = pairs_of_entries(alloc, self.metadata)?;
        Ok(TerminalFailure {
            code: (self.code & 0xFFFF) as u16,
            message: self.message,
            metadata,
        })
    }
}

/// The entries of pairs of a key and a value, moved. An empty list does not allocate.
fn entries_of_pairs(
    alloc: Global,
    pairs: Vec<(String, String)>,
) -> Result<Vec<FailureMetadata>, OutOfMemory>
    ensures ok { IfOk result (λ entries. map (λ entry. (entry.key, entry.value)) entries.items ≡ pairs.items) }
    ensures empty { pairs.items ≡ [] → IsOk result }
{
    if pairs.is_empty() {
        return Ok(Vec::new(alloc));
    }
    let entries = pairs
        .into_iter()
        .map(|(key, value)| FailureMetadata { key, value })
        .collect(alloc)?;
    Ok(entries)
}

/// The pairs of a key and a value of entries, moved. An empty list does not allocate.
fn pairs_of_entries(
    alloc: Global,
    entries: Vec<FailureMetadata>,
) -> Result<Vec<(String, String)>, OutOfMemory>
    ensures ok { IfOk result (λ pairs. pairs.items ≡ map (λ entry. (entry.key, entry.value)) entries.items) }
    ensures empty { entries.items ≡ [] → IsOk result }
{
    if entries.is_empty() {
        return Ok(Vec::new(alloc));
    }
    let pairs = entries
        .into_iter()
        .map(|entry| (entry.key, entry.value))
        .collect(alloc)?;
    Ok(pairs)
}

impl Header {
    /// Converts a header of the SDK state machine. An owned text is moved, and a borrowed one is copied. `OutOfMemory`
    /// if a copy cannot be allocated; a copy of an empty text never fails.
    pub fn from_root(alloc: Global, root: values::Header) -> Result<Header, OutOfMemory>
        ensures ok { IfOk result (IsHeaderOf root) }
        ensures succeeds { NeedsNoCopies root → IsOk result }
    {
        Ok(Header {
            key: owned_text(alloc, root.key)?,
            value: owned_text(alloc, root.value)?,
        })
    }
}

/// The text itself if it is owned, otherwise a copy.
fn owned_text(alloc: Global, text: CowStr<'static>) -> Result<String, OutOfMemory>
    ensures ok { IfOk result (IsOwnedTextOf text.entry) }
    ensures succeeds { NeedsNoCopy text.entry → IsOk result }
{
    match text {
        CowStr::Owned(owned) => Ok(owned),
        CowStr::Borrowed(borrowed) => copy_text(alloc, borrowed),
    }
}

/// Converts a header to one of the SDK state machine, with the same key and value, moved.
impl From<Header> for values::Header {
    ghost from_gives = { λ header root. root ≡ root_header_of header };

    fn from(header: Header) -> values::Header {
        values::Header {
            key: CowStr::Owned(header.key),
            value: CowStr::Owned(header.value),
        }
    }
}

/// The value with these bytes.
impl From<Bytes> for Value {
    ghost from_gives = { λ bytes value. value ≡ record { content = bytes } };

    fn from(bytes: Bytes) -> Value {
        Value { content: bytes }
    }
}
