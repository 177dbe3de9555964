//! Laws of frames, of changed fields and of replays. A law is the contract of a function that does nothing.

ghost use Rattle.std.specs.Prelude.{◌≡◌, ◌-◌, ◌<◌, ◌++◌, ◌∷◌, ℕ, List, [], Some, Ok, length, slice_index, take};
ghost use Rattle.shared_core_compare.specs.Differences.{FieldTexts};
ghost use Rattle.replay_bench.specs.Outcomes.{Outcome, SameCommands};
ghost use Rattle.journal_c_api.specs.Commands.{ReturnsChangedField, field_bytes};
ghost use Rattle.journal_c_api.specs.Headers.{ReturnsHeader};
ghost use Rattle.journal_c_api.specs.Journals.{verdict_numbers, verdict_text};
ghost use Rattle.journal_c_api.specs.Payloads.{ReturnsFrame};
ghost use Rattle.journal_c_api.specs.Replays.{ReturnsReplayText, WritesCheck, WritesFinish};
ghost use Rattle.journal_c_api.specs.WholeReplays.{IsReplayed, ItemGiven};

/// Each frame of `journal_frame` begins with the header that `journal_header` writes for its version, its type and the
/// length of its payload.
#[tactic(auto, using(crate::proofs::FrameHeaders::begins_frame))]
pub fn headers_begin_frames()
    ensures { (version code : ℕ) (payload frame : List ℕ) → ReturnsFrame version code payload (Ok frame)
        → ReturnsHeader version code (length frame - 8) (Ok (take 8 frame)) }
{}

/// A field that `journal_changed_field` writes has bytes: so 0 says that there is none.
pub fn changed_fields_have_bytes()
    ensures { (code index room : ℕ) (first second : List ℕ) (field : FieldTexts)
        → ReturnsChangedField code index room first second (Ok (Some field)) → 0 < length (field_bytes field) }
{}

/// The checks of a replay say the outcome of a comparison of the recording and a journal of the items so far, with what
/// the options ignore: that of `journal_verdict`, which has no option for ids. Where `journal_replay_check` or
/// `journal_replay_finish` returns 1, it writes the kind and the index of that outcome; the text of
/// `journal_replay_text` is its text. Where `journal_replay_finish` returns 0, the commands of both journals are the
/// same, and as many as the index of the replay.
pub fn checks_say_the_verdict()
    ensures left { (number options : ℕ) (recorded numbers new before after : List ℕ) (passed : List ItemGiven)
        (item : ItemGiven) (outcome : Outcome)
        → IsReplayed number options recorded passed numbers (passed ++ item ∷ []) outcome
        → WritesCheck item.code recorded item.payload numbers new before after (Ok 1)
        → take 2 after ≡ verdict_numbers outcome }
    ensures text { (number options : ℕ) (recorded numbers text : List ℕ) (passed : List ItemGiven) (item : ItemGiven)
        (outcome : Outcome)
        → IsReplayed number options recorded passed numbers (passed ++ item ∷ []) outcome
        → ReturnsReplayText item.code recorded item.payload numbers (Ok text)
        → text ≡ verdict_text outcome }
    ensures ended { (number options : ℕ) (recorded numbers before after : List ℕ) (passed : List ItemGiven)
        (outcome : Outcome)
        → IsReplayed number options recorded passed numbers passed outcome
        → WritesFinish recorded numbers before after (Ok 1)
        → take 2 after ≡ verdict_numbers outcome }
    ensures same { (number options : ℕ) (recorded numbers before after : List ℕ) (passed : List ItemGiven)
        (outcome : Outcome)
        → IsReplayed number options recorded passed numbers passed outcome
        → WritesFinish recorded numbers before after (Ok 0)
        → outcome ≡ SameCommands (slice_index numbers 2) }
{}
