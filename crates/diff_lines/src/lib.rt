//! Two journals compared, and the verdict written: as a text, for a terminal, in colors, or as a line of JSON.
#![tactic(auto)]

mod entries;
mod entry_fields;
mod entry_json;
mod entry_lines;
mod excerpts;
mod field_lines;
mod heading;
mod journals;
mod json_line;
pub mod laws;
mod look;
mod parted;
mod passed_over;
mod sentence;
mod verdict_line;

pub use crate::heading::Names;
pub use crate::journals::{ALIGNMENT_LIMIT, DiffError, DiffOptions, Findings, Form, diff};
pub use crate::look::Look;
pub use crate::passed_over::{Note, Trouble, empty_note, no_item_note, rest_note, unknown_note};
