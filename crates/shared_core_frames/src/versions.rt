//! What is written differently at some versions: suspensions, and the proposals of a run's result.

ghost use Rattle.shared_core_runtime.specs.Versions.{proposal_form, suspension_form};

use crate::buffer::FrameBuffer;
use crate::encodable_message::RestateEncodableMessage;
use shared_core_base::version::Version;
use shared_core_codec::error::EncodingError;
use shared_core_codec::record::WireRecord;
use shared_core_runtime::flat_suspension::FlatSuspension;
use shared_core_runtime::propose_run_completion_message::ProposeRunCompletionMessage;
use shared_core_runtime::suspension_message::SuspensionMessage;

/// Unchanged at every version. From V7 on the header requests an acknowledgement; before V7 it does not.
impl RestateEncodableMessage for ProposeRunCompletionMessage {
    ghost wire_form = { λ message version. proposal_form
        (⟦<ProposeRunCompletionMessage as WireRecord>⟧.parts message) version };

    fn encode_into<B: FrameBuffer>(
        &self,
        version: Version,
        out: &mut B,
    ) -> Result<(), EncodingError> {
        if !version.requests_acknowledgement() {
            return out.append_record(self, None);
        }
        out.append_record(self, Some(true))
    }
}

/// Unchanged from V7 on. Before V7 as a `SuspensionMessageV6`: the three lists of all awaited futures, each future
/// before those nested in it, duplicates kept, however deep they are nested. The lists are empty if nothing is awaited.
impl RestateEncodableMessage for SuspensionMessage {
    ghost wire_form = { λ message version. suspension_form
        (⟦<SuspensionMessage as WireRecord>⟧.parts message) version };

    fn encode_into<B: FrameBuffer>(
        &self,
        version: Version,
        out: &mut B,
    ) -> Result<(), EncodingError> {
        if version.has_flat_suspensions() {
            let Some(flat) = FlatSuspension::new(self) else {
                return Err(EncodingError::PayloadTooLong);
            };
            return out.append_frame(&flat, None);
        }
        out.append_frame(self, None)
    }
}
