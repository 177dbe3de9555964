//! Colors on a terminal.

ghost use Rattle.std.specs.Prelude.{◌≡◌, true, false};
ghost use Rattle.clap.specs.Matches.{found_of};
ghost use Rattle.command_line.specs.Colors.{IsColorOf};
ghost use Rattle.command_line.specs.declared.colors.ColorChoice.TheVariants as variant;

use crate::terminal::{takes_sequences, wants_no_color};
use clap::ArgMatches;
use std::io::IsTerminal;

/// When an output has colors, as `--color` says.
#[derive(Clone, Copy, Debug, PartialEq, Eq, Drop)]
pub enum ColorChoice {
    /// On a terminal, unless the environment says otherwise.
    Auto,
    /// Always.
    Always,
    /// Never.
    Never,
}

/// What the option `--color` says: `always`, `never`, or else `auto`.
pub fn color_of(matches: &ArgMatches<'_>) -> ColorChoice
    ensures { IsColorOf (found_of matches.now) result }
{
    match matches.get_str("color") {
        Some("always") => ColorChoice::Always,
        Some("never") => ColorChoice::Never,
        _ => ColorChoice::Auto,
    }
}

/// Whether the standard output has colors.
pub fn has_color(rt: &HostRuntime, choice: ColorChoice) -> bool
    ensures always { choice ≡ variant.Always → result ≡ true }
    ensures never { choice ≡ variant.Never → result ≡ false }
{
    match choice {
        ColorChoice::Always => true,
        ColorChoice::Never => false,
        ColorChoice::Auto => {
            rt.stdout().is_terminal() && takes_sequences(rt) && !wants_no_color(rt)
        }
    }
}
