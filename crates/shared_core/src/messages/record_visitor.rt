//! The record of a schema, found at run time.

ghost use Rattle.std.specs.Prelude.{ℕ};

use crate::wire::WireRecord;
use std::fmt::Debug;

/// What is done with the record of a schema.
pub trait RecordVisitor: Sized + Drop {
    /// The result.
    type Output;

    /// What it returns for a schema: anything, unless an impl says otherwise.
    ghost results: { Self → ℕ → Self.Output → Type 0 } = { λ visitor schema output. Unit {0} };

    /// Visits the record of this schema.
    fn visit<M: WireRecord + Debug>(self) -> Self::Output
        ensures { results self M.schema result };
}
