//! Where bytes go.
ghost use Rattle.std.specs.Prelude.{◌≡◌, ◌<◌, ◌≤◌, ◌++◌, Bool, List, ℕ, length, take, IsTrue, IfOk, OnOk, OnErr};
ghost use Rattle.bk_disk.specs.Causes.{IsCaused};
ghost use Rattle.bk_disk.specs.Streams.{Wrote, LeftOver};

use crate::errors::Failed;

/// An output that is written in pieces.
pub trait Sink {
    /// Whether the output is told.
    ghost tells: { Bool };

    /// All bytes taken so far.
    ghost written: { Self → List ℕ };

    /// How often a write has failed.
    ghost faults: { Self → ℕ };

    /// Takes bytes from the front of the piece, and says how many: at least one of a piece that
    /// isn't empty.
    fn write(&mut self, piece: &[u8]) -> Result<usize, Failed>
        ensures within { IfOk result (λ n. n ≤ length piece.now) }
        ensures some { IfOk result (λ n. 0 < length piece.now → 0 < n) }
        ensures wrote { IsTrue tells → IfOk result (λ n. written self.new
            ≡ written self.old ++ take n piece.now) }
        ensures kept { IsTrue tells → OnErr result (written self.new ≡ written self.old) }
        ensures cause { IsCaused (faults self.old) (faults self.new) result };
}

/// Writes a whole piece. After `Failed` the sink has taken a first part of it.
pub fn write_all<K: Sink>(sink: &mut K, piece: &[u8]) -> Result<(), Failed>
    ensures wrote { IsTrue K.tells → OnOk result
        (Wrote (K.written sink.old) (K.written sink.new) piece.now) }
    ensures part { IsTrue K.tells → OnErr result
        (LeftOver (K.written sink.old) (K.written sink.new) piece.now) }
    ensures cause { IsCaused (K.faults sink.old) (K.faults sink.new) result }
{
    let mut at = 0;
    while at < piece.len() {
        at += sink.write(&piece[at..])?;
    }
    Ok(())
}
