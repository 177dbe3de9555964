//! A header and the payload of a record, appended from their front.

ghost use Rattle.std.specs.Prelude.{◌≡◌, ◌≤◌, ◌++◌, OnOk, OnErr, vec_capacity};
ghost use Rattle.std.specs.Int.{w64, to_be_bytes};
ghost use Rattle.shared_core_base.specs.MessageHeader.{word_of};
ghost use Rattle.shared_core_wire.specs.Canonical.{canonical_payload};
ghost use Rattle.shared_core_codec.specs.Table.{table};

use crate::chunks::FrameChunks;
use crate::record::AppendRecord;
use crate::sink::PayloadSink;
use crate::vector_end::VectorEnd;
use shared_core_base::header::MessageHeader;
use shared_core_codec::error::EncodingError;
use std::alloc::AllocError;
use std::mem;

/// Appends a header and the payload of a record from their front, so that no byte is written twice. The room is
/// reserved first. After an error nothing is appended.
pub(crate) fn append_from_front<M: AppendRecord>(
    message: &M,
    header: MessageHeader,
    out: &mut Vec<u8>,
) -> Result<(), EncodingError>
    ensures ok { OnOk result (out.new.items ≡ out.old.items
        ++ (to_be_bytes w64 (word_of header) ++ canonical_payload table M.schema (M.parts message.now))) }
    ensures err { OnErr result (out.new.items ≡ out.old.items) }
    ensures capacity { vec_capacity out.old ≤ vec_capacity out.new }
{
    out.reserve(MessageHeader::SIZE + header.message_length() as usize)?;
    let alloc = *out.allocator();
    let mut end = VectorEnd::after(mem::replace(out, Vec::new(alloc)));
    let appended = put_frame(message, header, &mut end);
    let VectorEnd {
        bytes,
        start,
        room: _,
    } = end;
    *out = bytes;
    if let Err(error) = appended {
        out.truncate(start);
        return Err(error);
    }
    Ok(())
}

/// Appends a header and the payload of a record, which is shared where it is long.
pub(crate) fn share_frame<M: AppendRecord>(
    message: &M,
    header: MessageHeader,
    out: &mut FrameChunks,
) -> Result<(), AllocError>
    ensures ok { OnOk result (out.new ≡ out.old
        ++ (to_be_bytes w64 (word_of header) ++ canonical_payload table M.schema (M.parts message.now))) }
    ensures err { OnErr result (out.new ≡ out.old) }
{
    let mut frame = FrameChunks::new(out.alloc());
    let Ok(()) = put_frame(message, header, &mut frame) else {
        return Err(AllocError);
    };
    out.append(frame)
}

/// Appends a header and the payload of a record from their front. After an error some of it may be appended.
fn put_frame<M: AppendRecord, S: PayloadSink>(
    message: &M,
    header: MessageHeader,
    out: &mut S,
) -> Result<(), EncodingError>
    ensures ok { OnOk result (S.contents out.new ≡ S.contents out.old
        ++ (to_be_bytes w64 (word_of header) ++ canonical_payload table M.schema (M.parts message.now))) }
    ensures rest { S.rest out.new ≡ S.rest out.old }
{
    out.put(&header.to_bytes())?;
    message.append_rows(out)
}
