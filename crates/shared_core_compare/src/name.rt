//! The names of commands, borrowed or copied.

ghost use Rattle.std.specs.Prelude.{◌≡◌, [], IfOk, IsOk, string_bytes};
ghost use Rattle.shared_core_wire.specs.Value.{Bytes as Content};
ghost use Rattle.shared_core_compare.specs.Commands.{name_part};

use shared_core_base::error::OutOfMemory;
use shared_core_base::text::copy_text;
use shared_core_codec::record::WireRecord;
use std::alloc::Global;

/// Commands with a name that users give.
pub trait NamedCommandMessage: WireRecord {
    /// The name of the command, borrowed.
    fn command_name(&self) -> &str
        ensures { Content result.now ≡ name_part Self.schema (Self.parts self.now) };

    /// Returns a copy of the name. Fails if the allocation fails; a copy of an empty name never fails.
    final fn name(&self, alloc: Global) -> Result<String, OutOfMemory>
        ensures name { IfOk result (λ name. Content (string_bytes name) ≡ name_part Self.schema (Self.parts self.now)) }
        ensures empty { name_part Self.schema (Self.parts self.now) ≡ Content [] → IsOk result }
    {
        copy_text(alloc, self.command_name())
    }
}
