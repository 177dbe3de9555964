//! Where a set is malformed.

use crate::error::Place;
use crate::schemas::{DescriptorSchemas, FIELD, FILE, MESSAGE};
use crate::values::text_in;
use shared_core_codec::check::is_well_formed_in;
use shared_core_wire::record::WireValue;
use shared_core_wire::records::{LEVELS, Records};
use std::alloc::{AllocError, Global};

/// The first record of a number whose content is not well-formed for a schema.
fn first_malformed(bytes: &[u8], number: u32, schema: u32) -> Option<&[u8]> {
    for item in Records::within(bytes, LEVELS) {
        let Ok(found) = item else {
            return None;
        };
        if found.number == number {
            if let WireValue::Length(content) = found.value {
                if !is_well_formed_in(&DescriptorSchemas, schema, content) {
                    return Some(content);
                }
            }
        }
    }
    None
}

/// The name of the first file of a set that is malformed, and of its first message and that one's first field that is.
pub(crate) fn place_of_fault(alloc: Global, set: &[u8]) -> Result<Place, AllocError> {
    let file = first_malformed(set, 1, FILE).unwrap_or(&[]);
    let message = first_malformed(file, 4, MESSAGE).unwrap_or(&[]);
    let field = first_malformed(message, 2, FIELD).unwrap_or(&[]);
    Ok(Place {
        file: String::from_str(alloc, text_in(file, 1))?,
        message: String::from_str(alloc, text_in(message, 1))?,
        field: String::from_str(alloc, text_in(field, 1))?,
    })
}
