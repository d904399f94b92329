//! The line on standard error that shows how far a long work has come.
use bk_progress::{Progress, Stage};
use std::io::{Eprint, IsTerminal};
use std::time::Instant;

/// After how many seconds the line is written, at first and again.
const BETWEEN_LINES: u64 = 1;

/// As many columns as the longest line has.
const BLANK: &str = "\r                                                \r";

/// A line on standard error, where that is a terminal. It is written anew each second, and goes when the work is done, so
/// nothing is shown of a work that takes less than one. Where the clock or a write fails, the run goes on without it.
#[derive(Drop)]
pub struct ProgressLine {
    rt: HostRuntime,
    /// When it was last written, or the run began; `None` where it isn't shown.
    last: Option<Instant>,
    /// Whether it stands there now.
    stands: bool,
}

impl ProgressLine {
    pub fn new(rt: HostRuntime) -> ProgressLine {
        let last = if rt.stderr().is_terminal() {
            Instant::now(&rt).ok()
        } else {
            None
        };
        ProgressLine {
            rt,
            last,
            stands: false,
        }
    }

    // Whether a second has gone by since it was written. If so, the next one begins.
    fn is_due(&mut self) -> bool {
        let Some(last) = self.last else {
            return false;
        };
        let Ok(now) = Instant::now(&self.rt) else {
            return false;
        };
        if now.duration_since(last).as_secs() < BETWEEN_LINES {
            return false;
        }
        self.last = Some(now);
        true
    }
}

impl Progress for ProgressLine {
    fn reached(&mut self, stage: Stage, done: u64, all: u64) {
        if !self.is_due() {
            return;
        }
        self.stands = true;
        let _ = match stage {
            Stage::Opening => eprint!(self.rt; "\rbitcaskd: opened {done} of {all} files"),
            Stage::Filling => eprint!(self.rt; "\rbitcaskd: put {done} of {all} pairs"),
        };
    }

    fn finished(&mut self) {
        if self.stands {
            self.stands = false;
            let _ = eprint!(self.rt; "{BLANK}");
        }
    }
}
