//! Two journals compared, what was recorded with what is replayed, command by command, and each surveyed; nothing is
//! measured, in spite of the name. The crate is above `shared_core`, and uses only its public calls and their
//! contracts.
#![tactic(auto)]

mod aligned;
mod alignment;
mod commands;
mod comparison;
mod erase;
mod erasures;
mod faults;
mod fields;
mod following;
mod forms;
mod journals;
mod keys;
pub mod laws;
mod mismatches;
mod reader_items;
mod replay;
mod slice_items;
mod sources;
mod survey;
mod verdicts;

pub use crate::aligned::{AlignedComparison, align_sources};
pub use crate::alignment::{align_commands, changed_fields};
pub use crate::commands::HeldCommands;
pub use crate::comparison::{compare_journals, compare_sources, survey_sources};
pub use crate::faults::{Fault, FaultReason};
pub use crate::fields::{FieldDifference, list_fields};
pub use crate::following::{Ahead, Following, Mismatch};
pub use crate::journals::{ComparisonOptions, Ignored, Journals};
pub use crate::keys::command_key;
pub use crate::mismatches::{CommandPayload, Found, Pair, compare_commands, has_same_bytes};
pub use crate::replay::Replay;
pub use crate::slice_items::SliceItems;
pub use crate::sources::{Next, Source, SourceError};
pub use crate::survey::Survey;
pub use crate::verdicts::{BenchError, Comparison, ReaderError, Side, Verdict};
pub use edit_script::{Alignment, Change, Difference};
