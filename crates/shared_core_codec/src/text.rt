//! Fields of the kind `string`: reading, measuring and writing one value.

ghost use Rattle.std.specs.Prelude.{◌≡◌, IfOk, false};
ghost use Rattle.std.specs.Result.{IsErrOf};
ghost use Rattle.shared_core_wire.specs.Schema.{Text};
ghost use Rattle.shared_core_wire.specs.Value.{Absent, Bytes as Content};
ghost use Rattle.shared_core_codec.specs.FieldParts.{text_part};
ghost use Rattle.shared_core_codec.specs.Occurrences.{field_accepts, FieldBecomes};
ghost use Rattle.shared_core_wire.specs.declared.error.WireError.TheVariants as error;

use crate::kind::{Element, FieldKind, Scalar};
use crate::occurrence::Occurrence;
use crate::size::Size;
use crate::utf8::as_text;
use crate::write::write_length_record;
use shared_core_wire::error::WireError;
use shared_core_wire::record::WireValue;
use std::alloc::Global;
use std::string::String;

/// A `string` is copied over the text that is held, whose memory is reused if it is enough.
impl FieldKind for String {
    ghost kind = { Text };

    ghost part = { λ s. text_part s };

    #[inline]
    fn empty_value(alloc: Global) -> String {
        String::new(alloc)
    }

    #[inline]
    fn merge_value(&mut self, field: &Occurrence<'_>) -> Result<(), WireError> {
        let text = text_of(field)?;
        // memory of its exact size, nearly always for a field that is read for the first time; without it the text that
        // is held stays
        if self.capacity() < text.len() {
            *self = String::from_str(field.alloc, text)?;
            return Ok(());
        }
        self.clear();
        self.push_str(text)?;
        Ok(())
    }

    #[inline]
    #[tactic(auto, using(crate::proofs::Measuring::count_any, crate::proofs::FittingRows::fit_text))]
    fn measure_value(&self, size: &mut Size, number: u32) {
        size.add_length_record(number, self.as_bytes());
    }

    #[inline(always)]
    #[tactic(auto, using(crate::proofs::Backwards::any_before, crate::proofs::Backwards::any_size))]
    fn write_value(&self, out: &mut [u8], end: usize, number: u32) -> usize {
        write_length_record(out, end, number, self.as_bytes())
    }

    ghost use Rattle.std.specs.Prelude.{refl};

    ghost present = { λ _. refl };
}

impl Scalar for String {
    #[inline(always)]
    #[tactic(auto, using(crate::proofs::FittingRows::fit_text))]
    fn is_default(&self) -> bool {
        self.is_empty()
    }
}

impl Element for String {
    ghost use Rattle.std.specs.Prelude.{refl};

    ghost one_by_one = { refl };
}

/// The text of an occurrence, not copied.
#[inline(always)]
fn text_of<'a>(field: &Occurrence<'a>) -> Result<&'a str, WireError>
    ensures ok { IfOk result (λ text. FieldBecomes field.now Text Absent (Content text.now)) }
    ensures malformed { IsErrOf result error.Malformed → field_accepts field.now Text ≡ false }
{
    let WireValue::Length(content) = field.value else {
        return Err(WireError::Malformed);
    };
    as_text(content).ok_or(WireError::Malformed)
}
