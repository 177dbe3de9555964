//! The kinds of fields, each by the type of what it holds: reading, measuring and writing one value.
//!
//! `uint32` is u32, `uint64` u64, `bool` bool, an enum i32, `string` String, `bytes` Bytes, and a message its record. A
//! value in an optional field, in a list or in a oneof is always written; a plain field first checks whether it holds
//! the default (`Scalar`).
//!
//! `Malformed` always means that the occurrence is none of the field's kind: another wire type (this project's own), a
//! text that is not UTF-8, a packed run that does not fill its length, or a message that is not well-formed.
//!
//! A failed allocation becomes `WireError::OutOfMemory` only in the kinds and presences, so the code of a record
//! converts no error.

ghost use Rattle.std.specs.Prelude.{◌≡◌, ◌+◌, ◌≤◌, ◌++◌, length, drop, OnOk, is_ok, IfOk, true, false};
ghost use Rattle.std.specs.Result.{IsErrOf};
ghost use Rattle.shared_core_wire.specs.Schema.{Kind as SchemaKind};
ghost use Rattle.shared_core_wire.specs.Value.{Part, Absent};
ghost use Rattle.shared_core_wire.specs.Canonical.{is_default as is_default_part};
ghost use Rattle.shared_core_codec.specs.Equality.{is_present};
ghost use Rattle.shared_core_codec.specs.Occurrences.{field_accepts, FieldBecomes, IsEmptyField};
ghost use Rattle.shared_core_codec.specs.Kept.{PartAfter};
ghost use Rattle.shared_core_codec.specs.RowEncoding.{capped, value_bytes, unpacked};
ghost use Rattle.shared_core_codec.specs.RowFitting.{ValueFits};
ghost use Rattle.shared_core_wire.specs.declared.error.WireError.TheVariants as error;

use crate::occurrence::Occurrence;
use crate::size::Size;
use shared_core_wire::error::WireError;
use std::alloc::Global;

/// A kind of field, by the type of what it holds.
pub trait FieldKind: Sized + Drop {
    /// The kind, as schemas name it.
    ghost kind: { SchemaKind };

    /// The part of a value of this kind.
    ghost part: { Self → Part };

    /// The value before any merge: 0, false or empty. Does not allocate.
    fn empty_value(alloc: Global) -> Self
        ensures { IsEmptyField kind (part result) };

    /// Merges an occurrence into the value that is held: a message into the message; any other kind is replaced. After
    /// an error it is unchanged, except for a message, which loses nothing that it held.
    fn merge_value(&mut self, field: &Occurrence<'_>) -> Result<(), WireError>
        ensures ok { OnOk result (FieldBecomes field.now kind (part self.old) (part self.new)) }
        ensures malformed { IsErrOf result error.Malformed → field_accepts field.now kind ≡ false }
        ensures kept { PartAfter (part self.old) (part self.new) (is_ok result) };

    /// Adds the size of a record of this number, even if it holds the default.
    fn measure_value(&self, size: &mut Size, number: u32)
        ensures sum { size.new ≡ capped (size.old + length (value_bytes number kind (part self.now))) }
        ensures fit { ValueFits kind (part self.now) };

    /// Writes a record of this number before `end`, even if it holds the default, and returns where it begins.
    fn write_value(&self, out: &mut [u8], end: usize, number: u32) -> usize
        requires within { end ≤ length out.old }
        requires room { length (value_bytes number kind (part self.now)) ≤ end }
        ensures start { result + length (value_bytes number kind (part self.now)) ≡ end }
        ensures written { drop result out.new ≡ value_bytes number kind (part self.now) ++ drop end out.old };

    /// A value is not absent.
    ghost present: { (value : Self) → is_present (part value) ≡ true };

    /// The occurrence, merged into the empty value.
    #[inline]
    final fn read_value(field: &Occurrence<'_>) -> Result<Self, WireError>
        ensures ok { IfOk result (λ value. FieldBecomes field.now kind Absent (part value)) }
        ensures malformed { IsErrOf result error.Malformed → field_accepts field.now kind ≡ false }
    {
        let mut value = Self::empty_value(field.alloc);
        value.merge_value(field)?;
        Ok(value)
    }
}

/// A kind that a plain field may have, which is not written if it holds the default: each but messages.
pub trait Scalar: FieldKind {
    /// Whether the value is the default of its kind: 0, false or empty.
    fn is_default(&self) -> bool
        ensures default { result ≡ is_default_part (Self.part self.now) }
        // a value that was examined is one of the kind
        ensures fit { ValueFits Self.kind (Self.part self.now) };
}

/// A kind whose repeated elements are written one by one: texts, bytes and messages. Repeated numbers are `packed`.
pub trait Element: FieldKind {
    /// It is not packed.
    ghost one_by_one: { unpacked Self.kind ≡ true };
}
