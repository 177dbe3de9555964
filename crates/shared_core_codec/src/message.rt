//! Fields that hold messages.

ghost use Rattle.shared_core_wire.specs.Schema.{Message};
ghost use Rattle.shared_core_codec.specs.FieldParts.{message_part};

use crate::kind::{Element, FieldKind};
use crate::occurrence::Occurrence;
use crate::record::{WireRecord, merge_occurrences};
use crate::size::Size;
use crate::write::write_length;
use shared_core_wire::error::WireError;
use std::alloc::Global;

/// A message is merged into the one that is held, field by field.
impl<M: WireRecord> FieldKind for M {
    ghost kind = { Message M.schema };

    ghost part = { λ m. message_part M.parts m };

    fn empty_value(alloc: Global) -> M {
        M::empty(alloc)
    }

    fn merge_value(&mut self, field: &Occurrence<'_>) -> Result<(), WireError> {
        let Some(nested) = field.nested() else {
            return Err(WireError::Malformed);
        };
        merge_occurrences(self, &nested)
    }

    #[tactic(auto, using(crate::proofs::Measuring::measured_message_is, crate::proofs::FittingRows::fit_message))]
    fn measure_value(&self, size: &mut Size, number: u32) {
        let mut nested = Size::new();
        self.measure(&mut nested);
        size.add_sized(number, &nested);
    }

    #[tactic(auto, using(crate::proofs::Backwards::message_before, crate::proofs::Backwards::message_size))]
    fn write_value(&self, out: &mut [u8], end: usize, number: u32) -> usize {
        let start = self.encode_back(out, end);
        write_length(out, start, number, end - start)
    }

    ghost use Rattle.std.specs.Prelude.{refl};

    ghost present = { λ _. refl };
}

impl<M: WireRecord> Element for M {
    ghost use Rattle.std.specs.Prelude.{refl};

    ghost one_by_one = { refl };
}
