//! Names and numbers: of the library, of schemas and of types.

ghost use Rattle.std.specs.Prelude.{◌≡◌, Ok, codes, length};
ghost use Rattle.shared_core_base.specs.MessageType.{debug_name_of};
ghost use Rattle.shared_core_base.specs.declared.header.MessageType.TheVariants.{CustomEntry};
ghost use Rattle.journal_c_api.specs.Outcomes.{Writes, written_over};
ghost use Rattle.journal_c_api.specs.Names.{ReturnsSchema, ReturnsTypeCode, ReturnsTypeName};

use crate::outcome::{CallError, version_of, write_over};
use arrayvec::ArrayString;
use itoa::Buffer;
use shared_core::header::MessageType;
use shared_core::messages::schema_at;

/// The version of the library.
pub const LIBRARY_VERSION: &str = "0.3.0";

/// Writes the version of the library, and returns its length in bytes.
pub fn write_library_version(out: &mut [u8]) -> Result<usize, CallError>
    ensures { Writes (λ written. written ≡ Ok (codes "0.3.0")) out.old out.new result }
{
    Ok(write_text(LIBRARY_VERSION, out))
}

/// The number of the schema that payloads of a type have at a version.
///
/// `UnknownVersion` if the number denotes no version, otherwise `UnknownType` if the code is that of no named type.
pub fn schema(version: u32, code: u16) -> Result<usize, CallError>
    ensures { ReturnsSchema version code result }
{
    let version = version_of(version)?;
    let ty = MessageType::try_from(code)?;
    let schema = schema_at(version, ty).ok_or(CallError::UnknownType)?;
    Ok(schema as usize)
}

/// Writes the name of the type that has a code, and returns its length in bytes.
pub fn write_type_name(code: u16, out: &mut [u8]) -> Result<usize, CallError>
    ensures { Writes (ReturnsTypeName code) out.old out.new result }
{
    match MessageType::try_from(code)? {
        MessageType::CustomEntry(code) => Ok(write_text(custom_entry_name(code).as_str(), out)),
        ty => Ok(write_text(ty.variant_name(), out)),
    }
}

/// The code of the named type that has a name.
pub fn type_code(name: &[u8]) -> Result<usize, CallError>
    ensures { ReturnsTypeCode name.now result }
{
    match MessageType::from_name(name) {
        Some(ty) => Ok(usize::from(u16::from(ty))),
        None => Err(CallError::UnknownType),
    }
}

/// The name of the custom entry that has a code.
fn custom_entry_name(code: u16) -> ArrayString<64>
    ensures { result.bytes ≡ debug_name_of (CustomEntry code) }
{
    let mut digits = Buffer::new();
    let mut name = ArrayString::new();
    name.push_str("CustomEntry(");
    name.push_str(digits.format(code));
    name.push_str(")");
    name
}

/// Writes a text at the front of a slice that has room for all of it, and returns its length in bytes.
fn write_text(text: &str, out: &mut [u8]) -> usize
    ensures length { result ≡ length text.now }
    ensures written { out.new ≡ written_over text.now out.old }
{
    write_over(text.as_bytes(), out);
    text.len()
}
