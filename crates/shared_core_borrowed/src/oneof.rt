//! Oneofs: which member is there is a number, and each member has a place of its own.

ghost use Rattle.std.specs.Prelude.{◌≡◌, ◌+◌, ◌≤◌, ℕ, List, length, drop};
ghost use Rattle.shared_core_wire.specs.Schema as schema;
ghost use Rattle.shared_core_wire.specs.Value.{Part};
ghost use Rattle.shared_core_codec.specs.RowEncoding.{before_row, measured_row, row_size};
ghost use Rattle.shared_core_borrowed.specs.Fit.{row_fits};

use crate::measure::Measure;

/// The members of a oneof.
pub trait Members: Sized + Drop {
    /// The number and kind of each member.
    ghost members: { List (ℕ × schema.Kind) };

    /// The part of the oneof, by the number of the member that is there, which is 0 if none is.
    ghost part: { ℕ → Self → Part };

    /// Adds the size of the member, and notes whether there is one of this number and it may have its value.
    fn measure(&self, case: u32, measure: &mut Measure)
        ensures sum { measure.new.size ≡ measured_row (schema.OneOf members) (part case self.now) measure.old.size }
        ensures fit { measure.new.fits ≡ row_fits (schema.OneOf members) (part case self.now) measure.old.fits };

    /// Writes the member before `end`, and returns where it begins; of a number that no member has, nothing.
    fn encode_back(&self, case: u32, out: &mut [u8], end: usize) -> usize
        requires within { end ≤ length out.old }
        requires room { row_size (schema.OneOf members) (part case self.now) ≤ end }
        ensures start { result + row_size (schema.OneOf members) (part case self.now) ≡ end }
        ensures written { drop result out.new ≡ before_row (schema.OneOf members) (part case self.now)
            (drop end out.old) };
}
