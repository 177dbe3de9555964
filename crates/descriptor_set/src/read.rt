//! Reading a set.

ghost use Rattle.std.specs.Prelude.{◌≡◌, ◌<◌, Err, IfErr, IfOk, IsOk, IsTrue, length};
ghost use Rattle.descriptor_set.specs.Descriptors.{IsDescriptorSet};
ghost use Rattle.descriptor_set.specs.Errors.{is_malformed};
ghost use Rattle.descriptor_set.specs.Reading.{Blames, IsReadingOf};
ghost use Rattle.descriptor_set.specs.Sets.{IsReason, IsSetOf, enums_of, messages_of};
ghost use Rattle.descriptor_set.specs.declared.error.DescriptorError.TheVariants.{TooLong};

use crate::contents::Contents;
use crate::error::{DescriptorError, Place};
use crate::fault::place_of_fault;
use crate::reading::Reading;
use crate::schemas::{DescriptorSchemas, SET};
use crate::set::DescriptorSet;
use crate::sorting::sorted;
use shared_core_codec::check::is_well_formed_in;
use std::alloc::{AllocError, Global};

/// The greatest length of a set, in bytes (this project's own limit): 16 MiB.
pub const MOST_BYTES: usize = 16_777_216;

/// The greatest length of a full name, in bytes (this project's own limit): each is written out.
pub const MOST_NAME_BYTES: usize = 1024;

/// The greatest number of fields of a message (this project's own limit): each number is compared with the later ones.
pub const MOST_FIELDS: usize = 4096;

/// Reads a set: the messages and enums of all its files. `Malformed` comes only if it is not well-formed for
/// descriptor.proto, and names the file, the message and the field as far as it can. Fields of descriptor.proto that
/// are not read are skipped, as unknown fields are. Takes time in the length of the set, times the logarithm of the
/// number of messages.
pub fn read_set(alloc: Global, set: &[u8]) -> Result<DescriptorSet, DescriptorError>
    // what is read, and what each error says
    ensures read { IfOk result (λ read. IsSetOf set.now read) }
    ensures failed { IfErr result (λ error. IsReason error set.now) }
    ensures long { 16777216 < length set.now → result ≡ Err TooLong }
    // a set is read only of a FileDescriptorSet, and is never malformed there
    ensures accepted { IsOk result → IsDescriptorSet set.now }
    ensures malformed { IfErr result (λ error. IsTrue (is_malformed error) → IsDescriptorSet set.now → ⊥) }
{
    if set.len() > MOST_BYTES {
        return Err(DescriptorError::TooLong);
    }
    if !is_well_formed_in(&DescriptorSchemas, SET, set) {
        return Err(DescriptorError::Malformed(place_of_fault(alloc, set)?));
    }
    let read = read_files(alloc, set)?;
    sorted(read)
}

/// What the files of a set have, in its order.
fn read_files(alloc: Global, set: &[u8]) -> Result<Reading, DescriptorError>
    ensures read { IfOk result (λ read. IsReadingOf set.now read) }
    ensures blamed { IfErr result (λ error. Blames error (messages_of set.now) (enums_of set.now)) }
{
    let mut read = Reading::new(alloc);
    for content in Contents::of(set, 1) {
        read.append_file(content)?;
    }
    Ok(read)
}

/// The place of a message of a file.
pub(crate) fn place_in(
    alloc: Global,
    files: &[String],
    file: usize,
    message: &str,
) -> Result<Place, AllocError> {
    let file = files.get(file).map(|name| name.as_str()).unwrap_or("");
    Ok(Place {
        file: String::from_str(alloc, file)?,
        message: String::from_str(alloc, message)?,
        field: String::new(alloc),
    })
}
