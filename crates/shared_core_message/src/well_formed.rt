//! Whether the payload of a message is well-formed.

ghost use Rattle.std.specs.Prelude.{◌≡◌};
ghost use Rattle.shared_core_message.specs.Schemas.{is_well_formed_at};

use crate::schemas::schema_at;
use shared_core_base::header::MessageType;
use shared_core_base::version::Version;
use shared_core_codec::check::is_well_formed;

/// Whether a payload is well-formed for a type at a version. That of a custom entry is opaque, and always is. Does not
/// allocate.
pub fn is_well_formed_at(version: Version, ty: MessageType, payload: &[u8]) -> bool
    ensures { result ≡ is_well_formed_at version ty payload.now }
{
    match schema_at(version, ty) {
        Some(schema) => is_well_formed(schema, payload),
        None => true,
    }
}
