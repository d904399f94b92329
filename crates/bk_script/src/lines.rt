//! What the lines of a script say.
ghost use Rattle.std.specs.Prelude.{◌≡◌};
ghost use Rattle.bk_script.specs.Script.{is_setting};

use crate::actors::Actor;
use crate::flips::Flips;
use bk_base::{Key, Moment, Value};

/// A line of a script.
#[derive(Debug, Drop)]
pub enum Line {
    /// `max N`: the length of a data file past which the next one is begun.
    Max(u32),
    /// `ttl N`: how many seconds a put is live.
    Ttl(u32),
    /// `at N`: the moment is N from here on.
    At(Moment),
    /// `fail N E`: the nth call of the disk from here on fails, with this effect.
    Fail { nth: u64, effect: u64 },
    /// `fuse N E`: after so many calls of the disk all fail, the first with this effect.
    Fuse { calls: u64, effect: u64 },
    /// A letter and what this actor does.
    By(Actor, Action),
    /// `stop KEEP` and offsets: a crash leaves so many bytes of what wasn't synced, all for `None`,
    /// and changes the bytes at these offsets.
    Stop { keep: Option<u64>, flips: Flips },
}

impl Line {
    /// Whether the line is a setting: these stand before all others.
    pub(crate) fn is_setting(&self) -> bool
        ensures { result ≡ is_setting self.now }
    {
        matches!(self, Line::Max(_) | Line::Ttl(_))
    }
}

/// What an actor does.
#[derive(Debug, Drop)]
pub enum Action {
    /// `put K V`
    Put { key: Key, value: Value },
    /// `big K N`: puts so many bytes `x`.
    Big { key: Key, len: u32 },
    /// `del K`
    Delete(Key),
    /// `reap K`
    Reap(Key),
    /// `get K`: locates the value, which the actor then may read.
    Get(Key),
    /// `read`: reads the value that was located.
    Read,
    /// `sync`
    Sync,
    /// `fold`: opens a fold.
    Fold,
    /// `next S`: the next pair of the fold in this slot.
    Next(u8),
    /// `end S`: closes the fold in this slot.
    End(u8),
}
