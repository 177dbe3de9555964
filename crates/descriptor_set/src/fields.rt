//! The fields of a message.

ghost use Rattle.std.specs.Prelude.{IfOk, OnOk};
ghost use Rattle.descriptor_set.specs.FieldReading.{IsField};
ghost use Rattle.descriptor_set.specs.Sets.{AllTwo, AreSorted};
ghost use Rattle.descriptor_set.specs.Values.{contents_in};

use crate::contents::Contents;
use crate::field::FieldDescriptor;
use crate::read_field::field_of;
use std::alloc::{AllocError, Global};

/// The fields of a message, as its bytes have them.
pub(crate) fn fields_of(
    alloc: Global,
    is_proto3: bool,
    bytes: &[u8],
) -> Result<Vec<FieldDescriptor>, AllocError>
    ensures { IfOk result (λ fields. AllTwo (IsField is_proto3) (contents_in 2 bytes.now) fields.items) }
{
    let mut fields = Vec::new(alloc);
    for content in Contents::of(bytes, 2) {
        let field = field_of(alloc, is_proto3, content)?;
        fields.push(field)?;
    }
    Ok(fields)
}

/// Sorts fields by their numbers; those of one number keep their order.
pub(crate) fn sort_fields(fields: &mut Vec<FieldDescriptor>) -> Result<(), AllocError>
    ensures { OnOk result (AreSorted fields.old.items fields.new.items) }
{
    fields.sort_by(|field, other| field.number.cmp(&other.number))
}
