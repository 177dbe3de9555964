//! A range of the commands of a stream.

ghost use Rattle.std.specs.Prelude.{◌≡◌};
ghost use Rattle.stream_parts.specs.Parts.{lacks};

/// The commands from one index to before another one, counted from 0.
#[derive(Clone, Copy, Debug, PartialEq, Eq, Drop)]
pub struct Range {
    /// The index of the first command.
    pub from: u64,
    /// The index of the command before which the range ends; `u64::MAX` is the end of the stream.
    pub until: u64,
}

impl Range {
    /// All commands.
    pub const ALL: Range = Range {
        from: 0,
        until: u64::MAX,
    };

    /// Whether a stream of this many commands lacks one of the range: the last one, or, if the range goes to the end of
    /// the stream and does not begin at its front, the first one.
    pub fn is_lacking(self, commands: u64) -> bool
        ensures { result ≡ lacks self commands }
    {
        if self.until == u64::MAX {
            return self.from > 0 && commands <= self.from;
        }
        commands < self.until
    }
}
