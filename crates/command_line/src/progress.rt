//! How much of the inputs is read, in a line on a terminal while that takes long.
//!
//! It is counted by a reader around the input; the engines of programs know nothing of it. Two inputs of a program have
//! one count, in a cell. No contract can speak of a cell, a clock or a terminal: the line is tested.

use crate::note;
use crate::terminal::takes_sequences;
use std::cell::Cell;
use std::fmt::Display;
use std::io::{self, IsTerminal, Read};
use std::time::Instant;

/// After how many milliseconds the line is first shown.
const FIRST_SHOWN: u128 = 1000;

/// How many milliseconds later it is shown again.
const SHOWN_AGAIN: u128 = 100;

/// The bytes of a megabyte.
const MEGABYTE: u64 = 1_000_000;

/// How much is read, by one reader or by several. If the standard error is a terminal and reading takes more than a
/// second, a line on it shows how much, until it is cleared.
#[derive(Drop)]
pub struct Progress<'a> {
    rt: &'a HostRuntime,
    program: &'a str,
    /// How many bytes there are, if that is known.
    total: Option<u64>,
    /// When reading began; nothing if no line is to be shown.
    started: Option<Instant>,
    /// How many bytes are read.
    read: Cell<u64>,
    /// After how many milliseconds the line is shown next.
    next: Cell<u128>,
    /// Whether the line is on the terminal.
    is_shown: Cell<bool>,
    /// Whether it was reported what is wrong with the input.
    has_reported: Cell<bool>,
}

impl<'a> Progress<'a> {
    /// For a program that writes once it has read: of this many bytes nothing is read yet.
    pub fn new(rt: &'a HostRuntime, program: &'a str, total: Option<u64>) -> Progress<'a> {
        let is_wanted = rt.stderr().is_terminal() && takes_sequences(rt);
        Progress {
            rt,
            program,
            total,
            started: if is_wanted {
                Instant::now(rt).ok()
            } else {
                None
            },
            read: Cell::new(0),
            next: Cell::new(FIRST_SHOWN),
            is_shown: Cell::new(false),
            has_reported: Cell::new(false),
        }
    }

    /// For a program that writes as it reads. Nothing is shown if its output goes to a terminal, where it shows already
    /// how much is read.
    pub fn beside_output(
        rt: &'a HostRuntime,
        program: &'a str,
        total: Option<u64>,
    ) -> Progress<'a> {
        let mut progress = Progress::new(rt, program, total);
        if rt.stdout().is_terminal() {
            progress.started = None;
        }
        progress
    }

    /// Notes that this many bytes more are read.
    fn add(&self, count: usize) {
        let Some(started) = self.started else {
            return;
        };
        self.read.set(self.read.get().saturating_add(count as u64));
        let Ok(elapsed) = started.elapsed(self.rt) else {
            return;
        };
        let now = elapsed.as_millis();
        if now >= self.next.get() {
            self.next.set(now.saturating_add(SHOWN_AGAIN));
            self.show();
        }
    }

    /// Shows the line, in the place of the one that is there.
    fn show(&self) {
        let program = self.program;
        let read = self.read.get() / MEGABYTE;
        self.is_shown.set(true);
        // there is nothing to do if the standard error fails
        let _ = match self.total {
            Some(total) => {
                let total = total / MEGABYTE;
                eprint!(self.rt; "\r{program}: read {read} of {total} MB\x1b[K")
            }
            None => eprint!(self.rt; "\r{program}: read {read} MB\x1b[K"),
        };
    }

    /// Removes the line, if it is there.
    pub fn clear(&self) {
        if self.is_shown.get() {
            self.is_shown.set(false);
            let _ = eprint!(self.rt; "\r\x1b[K");
        }
    }

    /// Reports what is wrong with the input, in place of the line.
    pub fn report<T: Display + Drop>(&self, what: T) {
        self.clear();
        self.has_reported.set(true);
        note(self.rt, self.program, what);
    }

    /// Whether it was reported what is wrong with the input, so that a failed input needs no further word.
    pub fn has_reported(&self) -> bool {
        self.has_reported.get()
    }
}

/// A reader whose progress is shown. It reads what the reader in it does. At the end of the input, and if a read fails,
/// the line is cleared.
#[derive(Drop)]
pub struct Watched<'a, R> {
    reader: R,
    progress: &'a Progress<'a>,
}

impl<'a, R> Watched<'a, R> {
    ghost use Rattle.std.specs.Prelude.{◌≡◌};

    /// Reads from this reader.
    pub fn new(reader: R, progress: &'a Progress<'a>) -> Watched<'a, R>
        ensures { result.reader ≡ reader }
    {
        Watched { reader, progress }
    }
}

impl<'a, R: Read> Read for Watched<'a, R> {
    ghost remaining = { λ watched. R.remaining watched.reader };

    fn read(&mut self, buf: &mut [u8]) -> io::Result<usize> {
        let read = self.reader.read(buf);
        match &read {
            Ok(count) if *count > 0 => self.progress.add(*count),
            _ => self.progress.clear(),
        }
        read
    }
}
