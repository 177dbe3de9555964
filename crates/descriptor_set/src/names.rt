//! Messages and enums by their names.

ghost use Rattle.std.specs.Prelude.{◌≡◌, ℕ, List, map};
ghost use Rattle.descriptor_set.specs.Found.{index_of};

use std::cmp::Ordering;

/// What has a full name.
pub(crate) trait Named {
    /// The bytes of its name.
    ghost name_bytes: { Self → List ℕ };

    fn full_name(&self) -> &str
        ensures { result.now ≡ name_bytes self.now };
}

/// The index of the one of a full name, among some in the order of their names. Halves the list at each step.
pub(crate) fn find<T: Named>(items: &[T], name: &str) -> Option<usize>
    ensures { result ≡ index_of (map T.name_bytes items.now) name.now }
{
    let mut low: usize = 0;
    let mut high = items.len();
    while low < high {
        let middle = low + (high - low) / 2;
        match items[middle].full_name().cmp(name) {
            Ordering::Less => low = middle + 1,
            Ordering::Equal => return Some(middle),
            Ordering::Greater => high = middle,
        }
    }
    None
}
