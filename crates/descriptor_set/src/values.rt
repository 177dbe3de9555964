//! The values of fields of descriptor.proto's messages. Where a field comes more than once, the last record counts.

ghost use Rattle.std.specs.Prelude.{◌≡◌};
ghost use Rattle.descriptor_set.specs.Values.{content_in, is_map_entry, last_of, number_in, numbers_in};
ghost use Rattle.descriptor_set.specs.Values.{text_in, text_of};

use shared_core_codec::utf8::as_text;
use shared_core_wire::record::WireValue;
use shared_core_wire::records::{LEVELS, Records};

/// The last text of a number among the records of some bytes; empty if there is none, and if it is not UTF-8.
pub(crate) fn text_in(bytes: &[u8], number: u32) -> &str
    ensures { result.now ≡ text_in number bytes.now }
{
    text_of(content_in(bytes, number))
}

/// A content as a text; empty if it is not UTF-8.
pub(crate) fn text_of(content: &[u8]) -> &str
    ensures { result.now ≡ text_of content.now }
{
    match as_text(content) {
        Some(text) => text,
        None => "",
    }
}

/// The last content of a number among the records of some bytes; empty if there is none.
pub(crate) fn content_in(bytes: &[u8], number: u32) -> &[u8]
    ensures { result.now ≡ content_in number bytes.now }
{
    let mut last: &[u8] = &[];
    for item in Records::within(bytes, LEVELS) {
        if let Ok(found) = item {
            if found.number == number {
                if let WireValue::Length(content) = found.value {
                    last = content;
                }
            }
        }
    }
    last
}

/// The last varint of a number among the records of some bytes; 0 if there is none.
pub(crate) fn number_in(bytes: &[u8], number: u32) -> u64
    ensures { result ≡ number_in number bytes.now }
{
    number_after(0, bytes, number)
}

/// The same; another number if there is none.
fn number_after(other: u64, bytes: &[u8], number: u32) -> u64
    ensures { result ≡ last_of other (numbers_in number bytes.now) }
{
    let mut last = other;
    for item in Records::within(bytes, LEVELS) {
        if let Ok(found) = item {
            if found.number == number {
                if let WireValue::Varint(value) = found.value {
                    last = value;
                }
            }
        }
    }
    last
}

/// Whether a message is the entry of a map: `map_entry` of its options, which merges all their records.
#[tactic(auto, using(crate::proofs::LastValues::last_of_more))]
pub(crate) fn is_map_entry(message: &[u8]) -> bool
    ensures { result ≡ is_map_entry message.now }
{
    let mut last = 0;
    for item in Records::within(message, LEVELS) {
        if let Ok(found) = item {
            if found.number == 7 {
                if let WireValue::Length(options) = found.value {
                    last = number_after(last, options, 7);
                }
            }
        }
    }
    last != 0
}
