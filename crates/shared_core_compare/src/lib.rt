//! Commands compared: their names, whether two are the same except for what replay may change, and how they differ.
#![tactic(auto)]

mod commands;
pub mod difference;
pub mod equality;
pub mod laws;
pub mod name;
mod printed;
mod values;
