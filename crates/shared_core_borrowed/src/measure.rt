//! What is found out of a record before it is written: how long its payload is, and whether there is one.

ghost use Rattle.std.specs.Prelude.{◌≡◌, ◌&&◌, true};

use shared_core_codec::size::Size;

/// The size of a payload, as far as it was measured, and whether all values so far are such as their fields may have.
#[derive(Drop)]
pub struct Measure {
    pub(crate) size: Size,
    pub(crate) fits: bool,
}

impl Measure {
    /// Nothing yet.
    #[inline(always)]
    pub(crate) fn new() -> Measure
        ensures size { result.size ≡ 0 }
        ensures fits { result.fits ≡ true }
    {
        Measure {
            size: Size::new(),
            fits: true,
        }
    }

    /// Notes whether a value is such as its field may have.
    #[inline(always)]
    pub(crate) fn check(&mut self, fits: bool)
        ensures size { self.new.size ≡ self.old.size }
        ensures fits { self.new.fits ≡ (self.old.fits && fits) }
    {
        // without a branch
        self.fits = self.fits & fits;
    }
}
