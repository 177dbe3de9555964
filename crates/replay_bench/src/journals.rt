//! Two journals, and how they are compared.

ghost use Rattle.std.specs.Prelude.{◌≡◌};
ghost use Rattle.replay_bench.specs.Ids.{only_payloads};

use shared_core::version::Version;

/// Two journals of a version, each given by a source of items.
#[derive(Drop)]
pub struct Journals<A, B> {
    /// The version of the protocol at which both are read.
    pub version: Version,
    /// The journal that an earlier execution left.
    pub recorded: A,
    /// The journal that the execution now makes.
    pub replayed: B,
}

/// In what else commands may differ that are the same, besides what a replay may always change.
#[derive(Debug, Clone, Copy, PartialEq, Eq, Drop)]
pub struct Ignored {
    /// Whether commands are the same that differ in payloads (`CommandMessageHeaderEq`).
    pub payloads: bool,
    /// Whether commands are the same that differ in completion ids: `result_completion_id` and
    /// `invocation_id_notification_idx`.
    pub ids: bool,
}

impl Ignored {
    /// Payloads are ignored, or nothing is.
    pub fn only_payloads(payloads: bool) -> Ignored
        ensures { result ≡ only_payloads payloads }
    {
        Ignored {
            payloads,
            ids: false,
        }
    }
}

/// How two journals are compared and surveyed.
#[derive(Debug, Clone, Copy, PartialEq, Eq, Drop)]
pub struct ComparisonOptions {
    /// In what commands may differ that are the same.
    pub ignored: Ignored,
    /// Whether the surveys look for faults, which takes the time of checking each payload.
    pub is_strict: bool,
}
