//! What holds of what is written, whatever was compared. A law is the contract of a function that does nothing.

ghost use Rattle.std.specs.Prelude.{◌≡◌, ◌++◌, Bool, true, false, codes};
ghost use Rattle.terminal_text.specs.Painting.{IsPainted};
ghost use Rattle.replay_bench.specs.declared.verdicts.Comparison.{Comparison as AnyComparison};
ghost use Rattle.replay_bench.specs.Verdicts.{IsSaid};
ghost use Rattle.diff_lines.specs.VerdictLines.{look_of, plain, text_line, verdict_text};

/// The line of a verdict, neither escaped nor shortened nor in colors, has the text that the verdict has. What is made
/// of types and fields here is the text of the error.
pub fn plain_line_has_the_text()
    ensures { (found : AnyComparison)
        → IsSaid found.verdict found.recorded_type found.replayed_type found.fields.items
        → text_line plain found ≡ verdict_text found.verdict ++ codes "\n" }
{}

/// The line of a verdict in colors is the line without them in parts, each of which is between the sequences of its
/// style: nothing is lost, moved or added.
pub fn colors_add_nothing()
    ensures { (is_short is_escaped : Bool) (found : AnyComparison)
        → IsPainted (text_line (look_of is_short is_escaped false) found)
        (text_line (look_of is_short is_escaped true) found) }
{}
