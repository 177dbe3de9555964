//! A replay that is checked as it comes.

ghost use Rattle.std.specs.Prelude.{◌≡◌, List, [], true, false, is_some, option_map, IfErr, IfOk};
ghost use Rattle.shared_core_stream.specs.declared.encoding.item.Item.{Item as AnyItem};
ghost use Rattle.replay_bench.specs.Ids.{only_payloads};
ghost use Rattle.replay_bench.specs.Replays.{held_in, Checks, ComesNext, EndsReplay, IsAhead, IsFollowing, IsHeldAt};
ghost use Rattle.replay_bench.specs.Replays.{Recording, Rejects};

use crate::following::{Following, Mismatch};
use crate::journals::Ignored;
use crate::sources::Source;
use crate::verdicts::{ReaderError, Verdict};
use shared_core::encoding::{Item, RawMessage};
use shared_core::version::Version;
use std::alloc::Global;
use std::marker::Model;

/// A replay that is checked as it comes, item by item, by the recording that it has to follow.
///
/// The recording is any source of items: chunks (`SliceItems`), or a reader (`ItemReader`), which may have a limit. One
/// command of it is held at a time, and nothing of the replay. A contract sees a replay as the `Following` that it
/// holds, and states what is true for every recording and all items that it was given (`IsFollowing`).
#[derive(Drop)]
pub struct Replay<S: Source> {
    following: Following<S>,
}

impl<S: Source> Model for Replay<S> {
    ghost use Rattle.std.specs.Prelude.{List};
    ghost use Rattle.shared_core_stream.specs.declared.encoding.item.Item.{Item as AnyItem};
    ghost use Rattle.replay_bench.specs.declared.following.Following.{Following as Followed};
    ghost use Rattle.replay_bench.specs.Replays.{IsFollowing, Recording};

    ghost Value = { Followed S };

    ghost view = { λ replay. replay.following };

    ghost invariant = { λ replay. (recording : Recording) × (given : List AnyItem)
        × IsFollowing S.version S.limit S.coming S.may_fail recording given replay.following };
}

impl<S: Source> Replay<S> {
    /// The replay of a recording of this version, before its first item.
    pub fn new(
        alloc: Global,
        version: Version,
        recorded: S,
        ignore_payload_equality: bool,
    ) -> Replay<S>
        requires { S.version recorded ≡ version }
        ensures new { IsFollowing S.version S.limit S.coming S.may_fail
            (record { version = version; limit = S.limit recorded; bytes = S.coming recorded }) [] result }
        ensures ignore { result.ignore ≡ only_payloads ignore_payload_equality }
        ensures said { result.has_said ≡ false }
    {
        let ignored = Ignored {
            payloads: ignore_payload_equality,
            ids: false,
        };
        Replay::ignoring(alloc, version, recorded, ignored)
    }

    /// The same, where commands may differ in what is ignored.
    pub fn ignoring(alloc: Global, version: Version, recorded: S, ignore: Ignored) -> Replay<S>
        requires { S.version recorded ≡ version }
        ensures new { IsFollowing S.version S.limit S.coming S.may_fail
            (record { version = version; limit = S.limit recorded; bytes = S.coming recorded }) [] result }
        ensures ignore { result.ignore ≡ ignore }
        ensures said { result.has_said ≡ false }
    {
        Replay {
            following: Following::new(alloc, version, recorded, ignore),
        }
    }

    /// Takes the next item of the replay. Returns `None` if it is not a command, or the same as the recorded command at
    /// its index; or where the replay leaves its recording. Each is what `compare_journals` has of the recording and
    /// the items so far, whatever comes after them.
    ///
    /// That a command is not well-formed is an error (`Malformed`). This and a mismatch are said once: from then on
    /// nothing is compared, and each call returns `None`. After `OutOfMemory` nothing is lost: the same call may be
    /// made again. After another error of the recording each call that needs it returns the same error. `TooLong` also
    /// comes where the items of the replay have more than 2^64 - 1 bytes; this item is not taken.
    pub fn check(&mut self, item: &Item) -> Result<Option<Mismatch>, ReaderError>
        ensures checked { (recording : Recording) (given : List AnyItem)
            → IsFollowing S.version S.limit S.coming S.may_fail recording given self.old
            → self.old.has_said ≡ false
            → Checks S.version S.limit S.coming S.may_fail recording given item.now self.old result self.new }
        ensures said { self.old.has_said ≡ true → (result ≡ Ok None) × (self.new ≡ self.old) }
    {
        self.following.check(item)
    }

    /// Reads the recorded command that comes next, unless it was read, and returns whether there is one. It is not
    /// taken: `expected` returns it until a command of the replay is the same.
    pub fn read_ahead(&mut self) -> Result<bool, ReaderError>
        ensures followed { (recording : Recording) (given : List AnyItem)
            → IsFollowing S.version S.limit S.coming S.may_fail recording given self.old
            → IsFollowing S.version S.limit S.coming S.may_fail recording given self.new }
        ensures ahead { IfOk result (λ is_next. IsAhead self.new.ahead × (is_next ≡ is_some (held_in self.new.ahead))) }
        ensures rejected { IfErr result (λ error. (recording : Recording) (given : List AnyItem)
            → IsFollowing S.version S.limit S.coming S.may_fail recording given self.old
            → Rejects S.may_fail recording error) }
        ensures same { self.new ≡ record self.old { recorded = self.new.recorded; ahead = self.new.ahead } }
    {
        self.following.read_ahead()?;
        Ok(self.following.held().is_some())
    }

    /// The recorded command that comes next, if `read_ahead` has read it: the one at the index of the next command of
    /// the replay, or, after a mismatch, at that of the mismatch.
    pub fn expected(&self) -> Option<&RawMessage>
        ensures held { option_map (λ command. command.now) result ≡ held_in self.now.ahead }
        ensures next { (recording : Recording) (given : List AnyItem)
            → IsFollowing S.version S.limit S.coming S.may_fail recording given self.now
            → IsAhead self.now.ahead → ComesNext recording.version recording.bytes given (held_in self.now.ahead) }
    {
        self.following.held()
    }

    /// The offset of that command in the recording, in bytes.
    pub fn expected_at(&self) -> Option<u128>
        ensures { (recording : Recording) (given : List AnyItem)
            → IsFollowing S.version S.limit S.coming S.may_fail recording given self.now
            → IsHeldAt recording.version recording.bytes given (held_in self.now.ahead) result }
    {
        self.following.held_at()
    }

    /// The verdict if the replay ends here, as `compare_journals` has it: `Same`, or `ReplayedEnded` at the recorded
    /// command that comes next, which is not taken; or `None` if a mismatch or a malformed command was said. The errors
    /// are those of reading the recording, as for `check`.
    pub fn finish(&mut self) -> Result<Option<Verdict>, ReaderError>
        ensures finished { (recording : Recording) (given : List AnyItem)
            → IsFollowing S.version S.limit S.coming S.may_fail recording given self.old
            → self.old.has_said ≡ false
            → EndsReplay S.version S.limit S.coming S.may_fail recording given self.old result self.new }
        ensures said { self.old.has_said ≡ true → (result ≡ Ok None) × (self.new ≡ self.old) }
    {
        if self.following.has_said() {
            return Ok(None);
        }
        let verdict = self.following.finish()?;
        Ok(Some(verdict))
    }
}
