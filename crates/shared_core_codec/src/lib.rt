//! Records: messages of the protocol as structs, decoded from payloads and encoded as payloads.
//!
//! Users of records call `record` and `error`. The code of a record uses the other modules: `kind`, with a file for
//! each kind of field; the fields by their presence, `plain`, `optional`, `repeated`, `packed` and `oneof`; and below
//! them `message_bytes` and `occurrence` for reading, `size` for measuring, and `write`; texts are checked by `utf8`,
//! and bytes copied by `copy`. A caller that reads payloads without a record has the rows of schemas in `rows`, any
//! table of schemas in `any_table`, one made at run time in `loaded_table`, and a check of payloads in `check`.
#![tactic(auto)]

pub mod any_table;
pub mod boolean;
pub mod byte_string;
pub mod canonical;
pub mod check;
pub mod copy;
pub mod enumeration;
pub mod error;
pub mod kind;
pub mod laws;
pub mod loaded_rows;
pub mod loaded_table;
pub mod message;
pub mod message_bytes;
pub mod occurrence;
pub mod oneof;
pub mod optional;
pub mod packed;
pub mod plain;
pub mod record;
pub mod repeated;
mod row_index;
pub mod rows;
mod schemas;
pub mod size;
pub mod table_error;
pub mod text;
pub mod uint32;
pub mod uint64;
pub mod utf8;
pub mod write;
