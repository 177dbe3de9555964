//! Benchmark work: reading the items of a stream where they lie.

use journal_c_api::outcome::{CallError, version_of};
use shared_core::encoding::{ItemKind, ItemRef, ItemRefs};

/// The numbers of the items of a stream, which is read this many times (0 counts as 1) and not copied.
pub fn items(
    version: u32,
    stream: &[u8],
    rounds: usize,
    words: &mut [u64],
) -> Result<usize, CallError> {
    for _round in 1..rounds {
        write_words(version, stream, words)?;
    }
    write_words(version, stream, words)
}

/// Writes the number of each item, and returns how many items there are.
fn write_words(version: u32, stream: &[u8], words: &mut [u64]) -> Result<usize, CallError> {
    let mut count = 0;
    for item in ItemRefs::new(version_of(version)?, stream) {
        let Some(word) = words.get_mut(count) else {
            return Err(CallError::NoRoom);
        };
        *word = word_of(&item);
        count += 1;
    }
    Ok(count)
}

/// The number of an item.
fn word_of(item: &ItemRef<'_>) -> u64 {
    match item.kind {
        ItemKind::Message(header) => u64::from(header),
        ItemKind::Unknown(code) => u64::from(code) << 48,
        ItemKind::Skipped(code) => (u64::from(code) << 48) | item.payload.len() as u64,
    }
}
