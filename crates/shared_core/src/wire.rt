//! Payloads of messages: an iterator over their records, the trait of records, and a check that decodes nothing.

pub use shared_core_codec::check::is_well_formed;
pub use shared_core_codec::record::{WireRecord, decode_parts, merge_payload};
pub use shared_core_wire::error::WireError;
pub use shared_core_wire::record::WireValue;
pub use shared_core_wire::records::{Record, Records};
