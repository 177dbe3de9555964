//! Values by their places: sorted by these, and taken place by place.

ghost use Rattle.std.specs.Prelude.{◌≡◌, ◌≤◌, OnOk, drop, length};
ghost use Rattle.shared_core_canonical.specs.Places.{AreByPlace, front_at};

use std::alloc::AllocError;

/// A value with its place, by which several are sorted.
#[derive(Clone, Copy)]
pub struct Placed<T> {
    pub place: usize,
    pub value: T,
}

/// Sorts values by their places; those of one place keep their order. Takes one comparison for each value, and no
/// memory, if they are in order already.
pub fn sort_by_place<T>(placed: &mut Vec<Placed<T>>) -> Result<(), AllocError>
    ensures { OnOk result (AreByPlace placed.old.items placed.new.items) }
{
    placed.sort_by_key(|one| one.place)
}

/// The values from an index on that have a place, before the first one that has another.
pub fn front_at<T>(placed: &[Placed<T>], start: usize, place: usize) -> &[Placed<T>]
    requires { start ≤ length placed.now }
    ensures { result.now ≡ front_at place (drop start placed.now) }
{
    let rest = &placed[start..];
    let mut count = 0;
    while count < rest.len() && rest[count].place == place {
        count += 1;
    }
    &rest[..count]
}
