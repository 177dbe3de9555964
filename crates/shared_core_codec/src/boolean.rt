//! Fields of the kind `bool`: reading, measuring and writing one value.

ghost use Rattle.shared_core_wire.specs.Schema.{Boolean};
ghost use Rattle.shared_core_codec.specs.FieldParts.{boolean_part};

use crate::kind::{FieldKind, Scalar};
use crate::occurrence::Occurrence;
use crate::size::Size;
use crate::write::write_varint_record;
use shared_core_wire::error::WireError;
use shared_core_wire::record::WireValue;
use std::alloc::Global;

impl FieldKind for bool {
    ghost kind = { Boolean };

    ghost part = { λ b. boolean_part b };

    #[inline]
    fn empty_value(_alloc: Global) -> bool {
        false
    }

    #[inline]
    fn merge_value(&mut self, field: &Occurrence<'_>) -> Result<(), WireError> {
        let WireValue::Varint(number) = field.value else {
            return Err(WireError::Malformed);
        };
        *self = number != 0;
        Ok(())
    }

    #[inline]
    #[tactic(auto, using(crate::proofs::Measuring::count_value, crate::proofs::FittingRows::fit_boolean))]
    fn measure_value(&self, size: &mut Size, number: u32) {
        size.add_varint_record(number, u64::from(*self));
    }

    #[inline(always)]
    #[tactic(auto, using(crate::proofs::Backwards::value_before, crate::proofs::Backwards::value_size))]
    fn write_value(&self, out: &mut [u8], end: usize, number: u32) -> usize {
        write_varint_record(out, end, number, u64::from(*self))
    }

    ghost use Rattle.std.specs.Prelude.{refl};

    ghost present = { λ _. refl };
}

impl Scalar for bool {
    #[inline(always)]
    #[tactic(auto, using(crate::proofs::FittingRows::fit_boolean))]
    fn is_default(&self) -> bool {
        !*self
    }
}
