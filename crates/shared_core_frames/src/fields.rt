//! Fields by their presence, appended from their front.

ghost use Rattle.std.specs.Prelude.{◌≡◌, OnOk};
ghost use Rattle.shared_core_wire.specs.Schema.{Optional, Plain, Repeated};
ghost use Rattle.shared_core_wire.specs.Schema as row;
ghost use Rattle.shared_core_codec.specs.FieldParts.{elements_part, option_part};
ghost use Rattle.shared_core_frames.specs.Appending.{after_row};

use crate::sink::PayloadSink;
use crate::value::AppendValue;
use shared_core_codec::error::EncodingError;
use shared_core_codec::kind::{Element, Scalar};
use shared_core_codec::oneof::OneOf;

/// Appends a field that is not written if it holds the default.
#[tactic(auto, using(crate::proofs::Joining::default_after, crate::proofs::Joining::other_after))]
pub(crate) fn plain<V: Scalar + AppendValue, S: PayloadSink>(
    out: &mut S,
    number: u32,
    field: &V,
) -> Result<(), EncodingError>
    ensures ok { OnOk result
        (S.contents out.new ≡ after_row (Plain number V.kind) (V.part field.now) (S.contents out.old)) }
    ensures rest { S.rest out.new ≡ S.rest out.old }
{
    if field.is_default() {
        return Ok(());
    }
    field.append_value(number, out)
}

/// Appends a field that is written if it is present.
#[tactic(auto, using(crate::proofs::Joining::present_after))]
pub(crate) fn optional<V: AppendValue, S: PayloadSink>(
    out: &mut S,
    number: u32,
    field: &Option<V>,
) -> Result<(), EncodingError>
    ensures ok { OnOk result
        (S.contents out.new ≡ after_row (Optional number V.kind) (option_part V.part field.now) (S.contents out.old)) }
    ensures rest { S.rest out.new ≡ S.rest out.old }
{
    match field {
        Some(value) => value.append_value(number, out),
        None => Ok(()),
    }
}

/// Appends the elements of a field.
pub(crate) fn repeated<V: Element + AppendValue, S: PayloadSink>(
    out: &mut S,
    number: u32,
    field: &Vec<V>,
) -> Result<(), EncodingError>
    ensures ok { OnOk result (S.contents out.new
        ≡ after_row (Repeated number V.kind) (elements_part V.part field.now.items) (S.contents out.old)) }
    ensures rest { S.rest out.new ≡ S.rest out.old }
{
    for element in field {
        element.append_value(number, out)?;
    }
    Ok(())
}

/// The members of a oneof that are appended.
pub trait AppendOneOf: OneOf {
    /// Appends the member: without a `bytes` field in it, it is written from its end.
    #[tactic(auto, using(crate::proofs::Joining::after_member))]
    fn append_member<S: PayloadSink>(&self, out: &mut S) -> Result<(), EncodingError>
        ensures ok { OnOk result
            (S.contents out.new ≡ after_row (row.OneOf Self.members) (Self.part self.now) (S.contents out.old)) }
        ensures rest { S.rest out.new ≡ S.rest out.old }
    {
        out.put_member(self)
    }
}

/// Appends the member of a oneof, if there is one.
pub(crate) fn oneof<O: AppendOneOf, S: PayloadSink>(
    out: &mut S,
    field: &Option<O>,
) -> Result<(), EncodingError>
    ensures ok { OnOk result
        (S.contents out.new ≡ after_row (row.OneOf O.members) (option_part O.part field.now) (S.contents out.old)) }
    ensures rest { S.rest out.new ≡ S.rest out.old }
{
    match field {
        Some(member) => member.append_member(out),
        None => Ok(()),
    }
}
