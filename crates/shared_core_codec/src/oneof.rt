//! Oneofs: fields of which at most one is present in a record.

ghost use Rattle.std.specs.Prelude.{◌≡◌, ◌+◌, ◌≤◌, ℕ, List, length, drop, OnOk, is_ok, true, false};
ghost use Rattle.std.specs.Result.{IsErrOf};
ghost use Rattle.shared_core_wire.specs.Schema.{Kind};
ghost use Rattle.shared_core_wire.specs.Schema as row;
ghost use Rattle.shared_core_wire.specs.Value.{Part};
ghost use Rattle.shared_core_codec.specs.RowEncoding.{measured_row, before_row, row_size};
ghost use Rattle.shared_core_codec.specs.RowFitting.{FieldFits};
ghost use Rattle.shared_core_codec.specs.Equality.{DecidesEquality, is_present};
ghost use Rattle.shared_core_codec.specs.Occurrences.{IsMember, member_accepts, MemberBecomes};
ghost use Rattle.shared_core_codec.specs.Kept.{PartAfter};
ghost use Rattle.shared_core_codec.specs.FieldParts.{option_part};
ghost use Rattle.shared_core_wire.specs.declared.error.WireError.TheVariants as error;

use crate::occurrence::Occurrence;
use crate::size::Size;
use shared_core_wire::error::WireError;

/// The members of a oneof, as an enum with one variant for each.
pub trait OneOf: Sized + Drop + PartialEq {
    /// The number and kind of each member.
    ghost members: { List (ℕ × Kind) };

    /// The member that is held, with its number.
    ghost part: { Self → Part };

    /// Merges an occurrence of one of the members. A message is merged into the held one if it is the same member,
    /// otherwise into the empty one. After an error a oneof holds the member that it held, unchanged except for a
    /// message, which loses nothing; where none was held, one may be.
    fn merge_member(oneof: &mut Option<Self>, field: &Occurrence<'_>) -> Result<(), WireError>
        requires member { IsMember field.now members }
        ensures ok { OnOk result (MemberBecomes field.now members (option_part part oneof.old)
            (option_part part oneof.new)) }
        ensures malformed { IsErrOf result error.Malformed → member_accepts field.now members ≡ false }
        ensures kept { PartAfter (option_part part oneof.old) (option_part part oneof.new) (is_ok result) };

    /// Adds the size of the member.
    fn measure(&self, size: &mut Size)
        ensures sum { size.new ≡ measured_row (row.OneOf members) (part self.now) size.old }
        ensures fit { FieldFits (row.OneOf members) (part self.now) };

    /// Writes the member before `end`, and returns where it begins.
    fn encode_back(&self, out: &mut [u8], end: usize) -> usize
        requires within { end ≤ length out.old }
        requires room { row_size (row.OneOf members) (part self.now) ≤ end }
        ensures start { result + row_size (row.OneOf members) (part self.now) ≡ end }
        ensures written { drop result out.new ≡ before_row (row.OneOf members) (part self.now) (drop end out.old) };

    /// A member that is held is not absent.
    ghost present: { (a : Self) → is_present (part a) ≡ true };

    /// Two oneofs are equal if and only if they hold the same member with the same value.
    ghost equality: { (a b : Self) → DecidesEquality (Self.eq a b) (part a) (part b) };
}

/// Merges an occurrence of one of the members. After an error a oneof holds the member that it held, unchanged except
/// for a message, which loses nothing; where none was held, one may be.
#[inline]
pub fn merge<O: OneOf>(field: &mut Option<O>, found: &Occurrence<'_>) -> Result<(), WireError>
    requires member { IsMember found.now O.members }
    ensures ok { OnOk result (MemberBecomes found.now O.members (option_part O.part field.old)
        (option_part O.part field.new)) }
    ensures malformed { IsErrOf result error.Malformed → member_accepts found.now O.members ≡ false }
    ensures kept { PartAfter (option_part O.part field.old) (option_part O.part field.new) (is_ok result) }
{
    O::merge_member(field, found)
}

/// Adds the size of the member, if there is one.
#[inline]
pub fn measure<O: OneOf>(size: &mut Size, field: &Option<O>)
    ensures sum { size.new ≡ measured_row (row.OneOf O.members) (option_part O.part field.now) size.old }
    ensures fit { FieldFits (row.OneOf O.members) (option_part O.part field.now) }
{
    if let Some(member) = field {
        member.measure(size);
    }
}

/// Writes the member before `end`, if there is one, and returns where it begins.
#[inline(always)]
pub fn write<O: OneOf>(out: &mut [u8], end: usize, field: &Option<O>) -> usize
    requires within { end ≤ length out.old }
    requires room { row_size (row.OneOf O.members) (option_part O.part field.now) ≤ end }
    ensures start { result + row_size (row.OneOf O.members) (option_part O.part field.now) ≡ end }
    ensures written { drop result out.new ≡ before_row (row.OneOf O.members) (option_part O.part field.now)
        (drop end out.old) }
{
    match field {
        Some(member) => member.encode_back(out, end),
        None => end,
    }
}
