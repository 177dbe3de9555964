//! A JSON value read into one flat table, and looked at there.
//!
//! A table has an entry for each value, each key and each closing bracket, in the order of the text. So reading
//! allocates one buffer, whatever the value has within it, and dropping it frees one. The entries are the nodes of the
//! crate `json`: of a short text that is not nested deep they are its tape, and of any other text they are read here,
//! token by token. A contract sees the value that the entries mean, by the definitions of that crate.
#![tactic(auto)]

mod node;
mod places;
mod read;
mod table;

pub use node::{Items, Members, Node, Shape};
pub use places::{Names, Place, find_places, first_present, present};
pub use table::Table;
