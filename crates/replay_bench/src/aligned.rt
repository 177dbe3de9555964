//! Two journals compared, and aligned from the first difference on.

ghost use Rattle.std.specs.Prelude.{◌≡◌};
ghost use Rattle.replay_bench.specs.Holding.{AlignsKnown};
ghost use Rattle.replay_bench.specs.Verdicts.{MayFailOn};

use crate::alignment::align_commands;
use crate::commands::HeldCommands;
use crate::comparison::{find_verdict, type_of};
use crate::journals::{ComparisonOptions, Journals};
use crate::sources::Source;
use crate::verdicts::{Comparison, ReaderError};
use edit_script::Alignment;
use std::alloc::Global;

/// Two journals, compared, surveyed, and aligned.
#[derive(Debug, PartialEq, Drop)]
pub struct AlignedComparison {
    /// How they compare, and what they have.
    pub comparison: Comparison,
    /// The recorded commands from the index of the verdict on. All before are the same as the replayed ones.
    pub recorded: HeldCommands,
    /// The replayed commands from there on.
    pub replayed: HeldCommands,
    /// The differences of these commands, whose indices begin at that of the verdict.
    pub alignment: Alignment,
}

/// Compares and surveys two journals of any sources of their version, as `survey_sources` does, and aligns their
/// commands, as `align_commands` does with this limit.
///
/// The commands before the index of the verdict are the same, one by one, and are not held. Those from there on are,
/// with the chunks that their payloads share, and are aligned when both journals were read to their ends.
pub fn align_sources<A: Source, B: Source>(
    alloc: Global,
    journals: Journals<A, B>,
    options: ComparisonOptions,
    limit: u32,
) -> Result<AlignedComparison, ReaderError>
    requires recorded { A.version journals.recorded ≡ journals.version }
    requires replayed { B.version journals.replayed ≡ journals.version }
    ensures aligned { AlignsKnown journals.version options.ignored options.is_strict limit
        (A.coming journals.recorded) (B.coming journals.replayed) result }
    ensures failed { MayFailOn A.may_fail (A.limit journals.recorded) B.may_fail (B.limit journals.replayed) result }
{
    let stopped = find_verdict(alloc, journals, options, true)?;
    let recorded_at = stopped.recorded.last_command();
    let replayed_at = stopped.replayed.last_command();
    let recorded_type = type_of(&stopped.recorded_next);
    let replayed_type = type_of(&stopped.replayed_next);
    let (recorded_held, recorded) = stopped.recorded.hold(alloc, stopped.recorded_next)?;
    let (replayed_held, replayed) = stopped.replayed.hold(alloc, stopped.replayed_next)?;
    let alignment = align_commands(
        alloc,
        recorded_held.commands.as_slice(),
        replayed_held.commands.as_slice(),
        options.ignored,
        limit,
    )?;
    Ok(AlignedComparison {
        comparison: Comparison {
            verdict: stopped.found.verdict,
            fields: stopped.found.fields,
            recorded,
            replayed,
            recorded_type,
            replayed_type,
            recorded_at,
            replayed_at,
        },
        recorded: recorded_held,
        replayed: replayed_held,
        alignment,
    })
}
