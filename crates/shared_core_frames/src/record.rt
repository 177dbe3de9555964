//! Records, appended from their front.

ghost use Rattle.std.specs.Prelude.{◌≡◌, OnOk};
ghost use Rattle.shared_core_codec.specs.Table.{table};
ghost use Rattle.shared_core_frames.specs.Appending.{after_rows};

use crate::sink::PayloadSink;
use shared_core_codec::error::EncodingError;
use shared_core_codec::record::WireRecord;

/// A record whose canonical payload is appended.
pub trait AppendRecord: WireRecord {
    /// Appends the canonical payload: without a `bytes` field in it, it is written from its end.
    #[tactic(auto, using(crate::proofs::Joining::after_payload))]
    fn append_rows<S: PayloadSink>(&self, out: &mut S) -> Result<(), EncodingError>
        ensures ok { OnOk result
            (S.contents out.new ≡ after_rows (table Self.schema) (Self.parts self.now) (S.contents out.old)) }
        ensures rest { S.rest out.new ≡ S.rest out.old }
    {
        out.put_record(self)
    }
}
