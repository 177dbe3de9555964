//! Fields of the kind `uint32`: reading, measuring and writing one value, which is the low 32 bits.

ghost use Rattle.shared_core_wire.specs.Schema.{U32};
ghost use Rattle.shared_core_wire.specs.Value.{Number};

use crate::kind::{FieldKind, Scalar};
use crate::occurrence::Occurrence;
use crate::size::Size;
use crate::write::write_varint_record;
use shared_core_wire::error::WireError;
use shared_core_wire::record::WireValue;
use shared_core_wire::varint::low_32;
use std::alloc::Global;

impl FieldKind for u32 {
    ghost kind = { U32 };

    ghost part = { λ n. Number n };

    #[inline]
    fn empty_value(_alloc: Global) -> u32 {
        0
    }

    #[inline]
    fn merge_value(&mut self, field: &Occurrence<'_>) -> Result<(), WireError> {
        let WireValue::Varint(number) = field.value else {
            return Err(WireError::Malformed);
        };
        *self = low_32(number);
        Ok(())
    }

    #[inline]
    #[tactic(auto, using(crate::proofs::Measuring::count_value), unfolding(crate::specs::RowFitting::ValueFits, shared_core_wire::specs::Fitting::PartFits))]
    fn measure_value(&self, size: &mut Size, number: u32) {
        size.add_varint_record(number, u64::from(*self));
    }

    #[inline(always)]
    #[tactic(auto, using(crate::proofs::Backwards::value_before, crate::proofs::Backwards::value_size))]
    fn write_value(&self, out: &mut [u8], end: usize, number: u32) -> usize {
        write_varint_record(out, end, number, u64::from(*self))
    }

    ghost use Rattle.std.specs.Prelude.{refl};

    ghost present = { λ _. refl };
}

impl Scalar for u32 {
    #[inline(always)]
    #[tactic(auto, unfolding(crate::specs::RowFitting::ValueFits, shared_core_wire::specs::Fitting::PartFits))]
    fn is_default(&self) -> bool {
        *self == 0
    }
}
