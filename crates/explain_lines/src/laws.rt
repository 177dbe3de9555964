//! The laws of explanations. Each is the contract of a function that does nothing.

ghost use Rattle.std.specs.Prelude.{◌≡◌, ℕ, List, []};
ghost use Rattle.shared_core_codec.specs.Table.{table};
ghost use Rattle.shared_core_wire.specs.Acceptance.{accepts_payload};
ghost use Rattle.shared_core_stream.specs.declared.encoding.item.Item.{Item as AnyItem};
ghost use Rattle.explain_lines.specs.declared.options.Options.{Options as AnyOptions};
ghost use Rattle.explain_lines.specs.Explained.{IsExplanationOf};
ghost use Rattle.explain_lines.specs.Explanation.{explained};
ghost use Rattle.explain_lines.specs.Items.{item_bytes, item_lines, rest_lines};
ghost use Rattle.explain_lines.specs.Lines.{bytes_of};

/// The bytes of a payload, in order, are those of the lines of its explanation, and others after a fault. There is a
/// fault if and only if the payload is not well-formed for its schema and at most one hundred levels deep, and then the
/// last line names it.
pub fn payloads_are_explained()
    ensures { (s : ℕ) (payload : List ℕ)
        → IsExplanationOf payload (accepts_payload table 100 s payload) (explained 100 [] s payload) }
{}

/// Each byte of an item is in exactly one line: the bytes of the lines, in order, are its header and its payload, also
/// if that is malformed, and whether it has a schema or not. The same is true of the trailing bytes.
pub fn all_bytes_have_lines()
    ensures items { (options : AnyOptions) (word : ℕ) (item : AnyItem)
        → bytes_of (item_lines options word item) ≡ item_bytes word item }
    ensures rest { (options : AnyOptions) (rest : List ℕ) → bytes_of (rest_lines options rest) ≡ rest }
{}
