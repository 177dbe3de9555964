//! The fields in which two commands differ, in a list.

ghost use Rattle.std.specs.Prelude.{◌≡◌, ◌∷◌, ◌++◌, [], IfErr, IfOk, IsTrue};
ghost use Rattle.shared_core_compare.specs.Differences.{differing_fields};
ghost use Rattle.replay_bench.specs.declared.verdicts.BenchError.TheVariants.{OutOfMemory};
ghost use Rattle.replay_bench.specs.Fields.{listed_texts};

use crate::verdicts::BenchError;
use shared_core::messages::{CommandMessage, DifferenceForm};
use std::alloc::Global;
use std::fmt;
use std::fmt::Display;

/// A printed field in which two commands differ.
#[derive(Debug, PartialEq, Drop)]
pub struct FieldDifference {
    /// Its name, as in the text of the mismatch.
    pub name: &'static str,
    /// What it prints in the recorded command.
    pub recorded: String,
    /// What it prints in the replayed command.
    pub replayed: String,
}

/// The form of a list.
#[derive(Drop)]
struct Listed(Global);

impl DifferenceForm<Vec<FieldDifference>> for Listed {
    ghost writes = { λ listed old field new. listed_texts new.items ≡ listed_texts old.items ++ (field ∷ []) };

    fn write_field<A: Display + Drop, E: Display + Drop>(
        &self,
        fields: &mut Vec<FieldDifference>,
        name: &'static str,
        actual: A,
        expected: E,
    ) -> fmt::Result {
        let Ok(recorded) = actual.to_string(self.0) else {
            return Err(fmt::Error);
        };
        let Ok(replayed) = expected.to_string(self.0) else {
            return Err(fmt::Error);
        };
        match fields.push(FieldDifference {
            name,
            recorded,
            replayed,
        }) {
            Ok(()) => Ok(()),
            Err(_) => Err(fmt::Error),
        }
    }
}

/// The printed fields in which two commands differ, in the order of the lines of their difference. They are listed only
/// where they are wanted.
pub fn list_fields<M: CommandMessage>(
    alloc: Global,
    is_listed: bool,
    recorded: &M,
    replayed: &M,
) -> Result<Vec<FieldDifference>, BenchError>
    ensures fields { IfOk result (λ fields. IsTrue is_listed → listed_texts fields.items
        ≡ differing_fields M.schema (M.parts recorded.now) (M.parts replayed.now)) }
    ensures rejected { IfErr result (λ error. error ≡ OutOfMemory) }
{
    let mut fields = Vec::new(alloc);
    if !is_listed {
        return Ok(fields);
    }
    match recorded.write_fields(replayed, &Listed(alloc), &mut fields) {
        Ok(()) => Ok(fields),
        Err(_) => Err(BenchError::OutOfMemory),
    }
}
