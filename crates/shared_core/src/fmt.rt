//! How differences and errors are printed.

ghost use Rattle.std.specs.Prelude.{Some, codes};
ghost use Rattle.shared_core_compare.specs.Differences.{difference};

pub use shared_core_base::fmt::DiffFormatter;
use shared_core_compare::difference::CommandMessageHeaderDiff;
pub use shared_core_errors::closed::{DefaultErrorFormatter, ErrorFormatter};
use std::fmt::{self, Display, Formatter};

/// The difference of two commands, as an error prints it: one line per printed field in which they differ, each after a
/// line feed and three spaces.
#[derive(Clone, Copy)]
pub struct Difference<'a, M> {
    /// The command that was recorded.
    pub actual: &'a M,
    /// The command that the code makes now.
    pub expected: &'a M,
}

impl<'a, M: CommandMessageHeaderDiff> Display for Difference<'a, M> {
    ghost output = { λ commands. Some
        (difference M.schema (codes "   ") (M.parts commands.actual.now) (M.parts commands.expected.now)) };

    fn fmt<W: fmt::Write>(&self, f: &mut Formatter<W>) -> fmt::Result {
        self.actual
            .write_diff(self.expected, DiffFormatter::new(f, "   "))
    }
}
