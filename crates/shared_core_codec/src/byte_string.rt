//! Fields of the kind `bytes`: reading, measuring and writing one value.

ghost use Rattle.shared_core_wire.specs.Schema.{ByteString};
ghost use Rattle.shared_core_wire.specs.Value.{Bytes as Content};

use crate::kind::{Element, FieldKind, Scalar};
use crate::occurrence::Occurrence;
use crate::size::Size;
use crate::write::write_length_record;
use bytes::Bytes;
use shared_core_wire::error::WireError;
use shared_core_wire::record::WireValue;
use std::alloc::Global;

/// A `bytes` is sliced from the payload, which is shared and not copied.
impl FieldKind for Bytes {
    ghost kind = { ByteString };

    ghost part = { λ b. Content b };

    #[inline]
    fn empty_value(_alloc: Global) -> Bytes {
        Bytes::new()
    }

    #[inline]
    fn merge_value(&mut self, field: &Occurrence<'_>) -> Result<(), WireError> {
        let WireValue::Length(content) = field.value else {
            return Err(WireError::Malformed);
        };
        *self = field.payload.slice(field.end - content.len()..field.end)?;
        Ok(())
    }

    #[inline]
    #[tactic(auto, using(crate::proofs::Measuring::count_any), unfolding(crate::specs::RowFitting::ValueFits, shared_core_wire::specs::Fitting::PartFits))]
    fn measure_value(&self, size: &mut Size, number: u32) {
        size.add_length_record(number, self.as_slice());
    }

    #[inline(always)]
    #[tactic(auto, using(crate::proofs::Backwards::any_before, crate::proofs::Backwards::any_size))]
    fn write_value(&self, out: &mut [u8], end: usize, number: u32) -> usize {
        write_length_record(out, end, number, self.as_slice())
    }

    ghost use Rattle.std.specs.Prelude.{refl};

    ghost present = { λ _. refl };
}

impl Scalar for Bytes {
    #[inline(always)]
    #[tactic(auto, unfolding(crate::specs::RowFitting::ValueFits, shared_core_wire::specs::Fitting::PartFits))]
    fn is_default(&self) -> bool {
        self.is_empty()
    }
}

impl Element for Bytes {
    ghost use Rattle.std.specs.Prelude.{refl};

    ghost one_by_one = { refl };
}
