//! How the lines of a stream are read.

use shared_core_base::version::Version;
use std::alloc::Global;

/// Makes streams of lines.
#[derive(Drop)]
pub struct Maker<'a, M> {
    pub alloc: Global,
    /// The version of the protocol.
    pub version: Version,
    /// By which table messages are read.
    pub messages: &'a M,
}
