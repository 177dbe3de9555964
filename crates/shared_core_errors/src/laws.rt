//! Laws of the definitions of this crate, whatever the code does, and of the traits that its types derive.

ghost use Rattle.std.specs.Prelude.{◌≡◌, List, Ok, map};
ghost use Rattle.std.specs.HashMap.{get};
ghost use Rattle.std.specs.HashSet.{IsSameSet};
ghost use Rattle.shared_core_errors.specs.Awaited.{IsInOrder, order_key};
ghost use Rattle.shared_core_errors.specs.Uncompleted.{uncompleted_text};
ghost use Rattle.shared_core_parts.specs.declared.notification_template.Id.{Id};

use crate::typed::{BadEagerStateKeyError, OutOfBoundsDuration, UnavailableEntryError};
use shared_core_base::error::NotificationMetadata;
use shared_core_parts::notification::NotificationId;
use std::alloc::AllocError;
use std::collections::{HashMap, HashSet};

/// The order of awaited ids depends only on the set. Two sets with the same ids print them in the same order, however
/// each holds them, and so an error about either is the same text.
pub fn order_depends_on_the_set(
    a: &HashSet<NotificationId>,
    b: &HashSet<NotificationId>,
    metadata: &HashMap<NotificationId, NotificationMetadata>,
)
    ensures order { IsSameSet ⟦<NotificationId as PartialEq>⟧.eq a.now b.now
        → (ids_of_a ids_of_b : List Id) → IsInOrder a.now.keys ids_of_a → IsInOrder b.now.keys ids_of_b
        → map order_key ids_of_a ≡ map order_key ids_of_b }
    ensures text { IsSameSet ⟦<NotificationId as PartialEq>⟧.eq a.now b.now
        → (ids_of_a ids_of_b : List Id) → IsInOrder a.now.keys ids_of_a → IsInOrder b.now.keys ids_of_b
        → uncompleted_text (get ⟦<NotificationId as PartialEq>⟧.eq metadata.now) ids_of_a
        ≡ uncompleted_text (get ⟦<NotificationId as PartialEq>⟧.eq metadata.now) ids_of_b }
{}

/// A clone equals its source, and does not allocate.
pub fn clone_each(
    unavailable: &UnavailableEntryError,
    bad_key: &BadEagerStateKeyError,
    out_of_bounds: &OutOfBoundsDuration,
) -> Result<
    (
        UnavailableEntryError,
        BadEagerStateKeyError,
        OutOfBoundsDuration,
    ),
    AllocError,
>
    ensures { result ≡ Ok (unavailable.now, bad_key.now, out_of_bounds.now) }
{
    Ok((
        unavailable.clone()?,
        bad_key.clone()?,
        out_of_bounds.clone()?,
    ))
}
