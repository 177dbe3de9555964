//! What holds of every two journals, whatever compares them. A law is the contract of a function that does nothing.

ghost use Rattle.std.specs.Prelude.{◌≡◌, ℕ, Bool, List};
ghost use Rattle.shared_core_base.specs.declared.version.Version.{Version};
ghost use Rattle.shared_core_stream.specs.declared.encoding.raw_message.RawMessage.{RawMessage};
ghost use Rattle.edit_script.specs.declared.sequences.Difference.{Difference};
ghost use Rattle.edit_script.specs.Scripts.{IsScript};
ghost use Rattle.replay_bench.specs.declared.journals.Ignored.{Ignored as AnyIgnored};
ghost use Rattle.replay_bench.specs.declared.verdicts.Verdict.{Verdict as AnyVerdict};
ghost use Rattle.replay_bench.specs.Alignments.{command_pairs};
ghost use Rattle.replay_bench.specs.Held.{HasAfter};
ghost use Rattle.replay_bench.specs.Holding.{AreAllAlike, BeginsAt};
ghost use Rattle.replay_bench.specs.Ids.{only_payloads, with_ids_ignored};
ghost use Rattle.replay_bench.specs.Outcomes.{Outcome, SameCommands, outcome_of};
ghost use Rattle.replay_bench.specs.Renamings.{AreSameBy, AreSameOneToOne, HaveIdsOnce, Renaming};
ghost use Rattle.replay_bench.specs.Verdicts.{HasOutcome, stopped_index};

/// Two journals have one outcome: there is one, and no other.
pub fn verdict_exists_and_is_unique()
    ensures some { (version : Version) (ignore : AnyIgnored) (recorded replayed : List ℕ)
        → (outcome : Outcome) × HasOutcome version ignore recorded replayed outcome }
    ensures one { (version : Version) (ignore : AnyIgnored) (recorded replayed : List ℕ) (outcome other : Outcome)
        → HasOutcome version ignore recorded replayed outcome → HasOutcome version ignore recorded replayed other
        → outcome ≡ other }
{}

/// Where ids are ignored, journals are the same that are the same where they are not, and those that are once the ids
/// of both are renamed, in whatever way. If no id is twice in a journal, as none is that an SDK makes, those and no
/// others are the same: there is a one-to-one renaming.
pub fn ids_may_be_renamed()
    ensures same { (version : Version) (payloads : Bool) (recorded replayed : List ℕ) (count : ℕ)
        → HasOutcome version (only_payloads payloads) recorded replayed (SameCommands count)
        → HasOutcome version (with_ids_ignored payloads) recorded replayed (SameCommands count) }
    ensures renamed { (version : Version) (rename : Renaming) (payloads : Bool) (recorded replayed : List ℕ)
        → AreSameBy version rename payloads recorded replayed
        → (count : ℕ) × HasOutcome version (with_ids_ignored payloads) recorded replayed (SameCommands count) }
    ensures one_to_one { (version : Version) (payloads : Bool) (recorded replayed : List ℕ) (count : ℕ)
        → HasOutcome version (with_ids_ignored payloads) recorded replayed (SameCommands count)
        → HaveIdsOnce version recorded replayed → AreSameOneToOne version payloads recorded replayed }
{}

/// The commands before the index of a verdict are alike, one by one, and the differences of those from there on begin
/// with the first of them. So the first entry of an alignment that is not the same is where the verdict is.
pub fn alignment_begins_at_the_verdict()
    ensures { (version : Version) (ignore : AnyIgnored) (recorded replayed : List ℕ) (verdict : AnyVerdict)
        (rest more : List RawMessage) (differences : List Difference)
        → HasOutcome version ignore recorded replayed (outcome_of verdict)
        → (one : HasAfter version recorded (stopped_index verdict) rest)
        → (other : HasAfter version replayed (stopped_index verdict) more)
        → IsScript (command_pairs ignore rest more) 0 0 differences
        → AreAllAlike ignore one.before other.before × BeginsAt verdict differences }
{}
