//! Fields of an enum's kind: their numbers are the low 32 bits, in two's complement.

ghost use Rattle.std.specs.Prelude.{◌≡◌};
ghost use Rattle.shared_core_wire.specs.Schema.{Enumeration};
ghost use Rattle.shared_core_wire.specs.Canonical.{written_number};
ghost use Rattle.shared_core_codec.specs.FieldParts.{enum_number, enum_part};

use crate::kind::{FieldKind, Scalar};
use crate::occurrence::Occurrence;
use crate::size::Size;
use crate::write::write_varint_record;
use shared_core_wire::error::WireError;
use shared_core_wire::record::WireValue;
use shared_core_wire::varint::low_32;
use std::alloc::Global;

impl FieldKind for i32 {
    ghost kind = { Enumeration };

    ghost part = { λ z. enum_part z };

    #[inline]
    fn empty_value(_alloc: Global) -> i32 {
        0
    }

    #[inline]
    fn merge_value(&mut self, field: &Occurrence<'_>) -> Result<(), WireError> {
        let WireValue::Varint(number) = field.value else {
            return Err(WireError::Malformed);
        };
        *self = low_32(number).cast_signed();
        Ok(())
    }

    #[inline]
    #[tactic(auto, using(crate::proofs::Measuring::count_value, crate::proofs::FittingRows::fit_enum))]
    fn measure_value(&self, size: &mut Size, number: u32) {
        size.add_varint_record(number, sign_extended(*self));
    }

    #[inline(always)]
    #[tactic(auto, using(crate::proofs::Backwards::value_before, crate::proofs::Backwards::value_size))]
    fn write_value(&self, out: &mut [u8], end: usize, number: u32) -> usize {
        write_varint_record(out, end, number, sign_extended(*self))
    }

    ghost use Rattle.std.specs.Prelude.{refl};

    ghost present = { λ _. refl };
}

impl Scalar for i32 {
    #[inline(always)]
    #[tactic(auto, using(crate::proofs::FittingRows::fit_enum, crate::proofs::FittingRows::enum_is_default))]
    fn is_default(&self) -> bool {
        *self == 0
    }
}

/// The number that is written for an enum: a negative one is sign-extended to 64 bits.
#[inline]
#[tactic(auto, using(crate::proofs::Measuring::sign_extended_is))]
fn sign_extended(value: i32) -> u64
    ensures { result ≡ written_number Enumeration (enum_number value) }
{
    i64::from(value).cast_unsigned()
}
