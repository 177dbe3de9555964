//! Printing a stream as it comes: one line for each of its items, and last one for the bytes that are in none.
#![tactic(auto)]

pub mod error;
pub mod line_printer;
pub mod output;
pub mod print;
pub mod report;

pub use crate::error::PrintError;
pub use crate::line_printer::{LinePrinter, PlacedItem, Rest};
pub use crate::print::{Reading, print_lines};
pub use crate::report::{Report, Trouble};
