//! Values of fields, appended from their front: the content of `bytes` fields is put as it is, and all else is written
//! from its end.

ghost use Rattle.std.specs.Prelude.{◌≡◌, ◌++◌, OnOk};
ghost use Rattle.shared_core_codec.specs.RowEncoding.{value_bytes};

use crate::record::AppendRecord;
use crate::sink::{PayloadSink, put_length};
use bytes::Bytes;
use shared_core_codec::error::EncodingError;
use shared_core_codec::kind::FieldKind;
use std::string::String;

/// A kind of field whose values are appended.
pub trait AppendValue: FieldKind {
    /// Appends a record of this number, even if it holds the default.
    fn append_value<S: PayloadSink>(&self, number: u32, out: &mut S) -> Result<(), EncodingError>
        ensures ok { OnOk result
            (S.contents out.new ≡ S.contents out.old ++ value_bytes number Self.kind (Self.part self.now)) }
        ensures rest { S.rest out.new ≡ S.rest out.old }
    {
        out.put_value(self, number)
    }
}

impl AppendValue for u32 {}

impl AppendValue for u64 {}

impl AppendValue for bool {}

impl AppendValue for i32 {}

impl AppendValue for String {}

impl AppendValue for Bytes {
    #[tactic(auto, using(crate::proofs::Joining::bytes_after))]
    fn append_value<S: PayloadSink>(&self, number: u32, out: &mut S) -> Result<(), EncodingError> {
        put_length(out, number, self.len())?;
        out.put_content(self)?;
        Ok(())
    }
}

/// A message is measured once more at each level, since its length comes before it.
impl<M: AppendRecord> AppendValue for M {
    #[tactic(auto, using(crate::proofs::Joining::message_after))]
    fn append_value<S: PayloadSink>(&self, number: u32, out: &mut S) -> Result<(), EncodingError> {
        let Some(len) = self.encoded_len() else {
            return Err(EncodingError::PayloadTooLong);
        };
        put_length(out, number, len as usize)?;
        self.append_rows(out)
    }
}
