//! The trait of visitors, to which the items of a stream are given.

ghost use Rattle.std.specs.Prelude.{◌++◌, ◌∷◌, [], List, IfErr, OnOk};
ghost use Rattle.shared_core_base.specs.declared.version.Version.{Version as AnyVersion};
ghost use Rattle.shared_core_stream.specs.declared.encoding.item.Item.{Item as AnyItem};
ghost use Rattle.stream_lines.specs.Printing.{IsLack};
ghost use Rattle.stream_visits.specs.Visits.{IsSmall};

use shared_core_base::version::Version;
use shared_core_stream::encoding::Item;
use stream_lines::PrintError;

/// Takes note of the items of a stream, one after the other.
pub trait Visitor {
    /// Holds of what has noted these items of a stream of a version.
    ghost has_seen: { Self → AnyVersion → List AnyItem → Type 0 };

    /// Holds of the items of a stream of a version for which `note` may return `TooLong`.
    ghost is_long: { AnyVersion → AnyItem → Type 0 };

    /// Notes the next item of a stream of a version. Returns `TooLong` only if the item is too long, and otherwise no
    /// error but `OutOfMemory`.
    fn note(&mut self, version: Version, item: &Item) -> Result<(), PrintError>
        requires { (items : List AnyItem) × has_seen self.old version items × IsSmall (items ++ item.now ∷ []) }
        ensures noted { OnOk result ((items : List AnyItem) → has_seen self.old version items
            → has_seen self.new version (items ++ item.now ∷ [])) }
        ensures lack { IfErr result (IsLack (is_long version item.now)) };
}
