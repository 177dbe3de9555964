//! The value of the option `--protocol`.

ghost use Rattle.std.specs.Prelude.{◌≡◌, ◌≤◌, Some, IfSome, decimal};
ghost use Rattle.clap.specs.Matches.{found_of};
ghost use Rattle.shared_core_base.specs.Version.{version_number};
ghost use Rattle.shared_core_base.specs.declared.version.Version.{Version as AnyVersion};
ghost use Rattle.command_line.specs.Protocol.{IsAutoOf, IsVersionOf};

use clap::ArgMatches;
use shared_core_base::version::Version;

/// The version whose number is the value of the option, or V8 without it.
pub fn protocol_of(matches: &ArgMatches<'_>) -> Version
    ensures { IsVersionOf (found_of matches.now) result }
{
    match matches.get_str("protocol").and_then(version_of) {
        Some(version) => version,
        None => Version::V8,
    }
}

/// Whether the value of the option is `auto`: the version is to be one that the streams fit.
pub fn is_auto(matches: &ArgMatches<'_>) -> bool
    ensures { IsAutoOf (found_of matches.now) result }
{
    match matches.get_str("protocol") {
        Some("auto") => true,
        _ => false,
    }
}

/// The version that has this number, if it is a supported one.
fn version_of(number: &str) -> Option<Version>
    ensures supported { IfSome result (λ version. 5 ≤ version_number version) }
    ensures named { (version : AnyVersion) → 5 ≤ version_number version
        → number.now ≡ decimal (version_number version) → result ≡ Some version }
{
    Version::from_number(number.parse().ok()?)
}
