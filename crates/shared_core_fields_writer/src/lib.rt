//! Payloads from tables of fields: the canonical payload whose fields of all levels a table gives, entry by entry.
//!
//! The entries are traversed by the rows of schemas that `shared_core_codec` has (`walk`). Their records are written as
//! far as there is room (`room`), and a few bytes of them by copies of a fixed length (`few`). Messages of plain texts
//! and bytes within others have a loop of their own (`flat`). The length of a nested message is written once its fields
//! are there, into room that is left before them: in a long payload as much as is measured then (`measure`), otherwise
//! a byte. Nothing is allocated.
#![tactic(auto)]

mod entry;
pub mod error;
mod few;
mod flat;
pub mod laws;
mod measure;
mod room;
mod walk;
mod write;

pub use error::{FieldsError, Reason};
pub use write::write_payload;
