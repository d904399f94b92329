//! Streams that may answer that they are not ready now, for a session that rests meanwhile.
ghost use Rattle.std.specs.Prelude.{◌≡◌, Bool, List, ℕ, Ok, false, IsTrue, IfOk, OnErr};
ghost use Rattle.bk_disk.specs.Causes.{IsCaused};
ghost use Rattle.bk_disk.specs.Polls.{Drains, FitsIn, FitsPiece, Polls};
ghost use Rattle.bk_disk.specs.declared.polls.Drained.TheVariants.{Later as later_drained};
ghost use Rattle.bk_disk.specs.declared.polls.Polled.TheVariants.{Later as later_polled};

use crate::errors::Failed;
use crate::sinks::Sink;
use crate::sources::Source;

/// What a source gives that is asked for bytes.
#[derive(Clone, Copy, Debug, PartialEq, Eq)]
pub enum Polled {
    /// So many bytes, which stand at the front of the slice.
    Taken(usize),
    /// The input is at its end.
    End,
    /// Nothing now; more may come.
    Later,
}

/// What a sink does that is asked to take bytes.
#[derive(Clone, Copy, Debug, PartialEq, Eq)]
pub enum Drained {
    /// It took so many bytes from the front of the piece.
    Taken(usize),
    /// Nothing now; it may take more later.
    Later,
}

/// An input that is read in pieces, and may have none now.
pub trait PollSource {
    /// Whether the input is told.
    ghost tells: { Bool };

    /// Whether it may answer `Later`.
    ghost rests: { Bool };

    /// The whole input, which no read changes.
    ghost whole: { Self → List ℕ };

    /// How many bytes of the input have been read.
    ghost taken: { Self → ℕ };

    /// How often a read has failed.
    ghost faults: { Self → ℕ };

    /// Reads the next bytes into the front of `into`: at least one, unless `into` is empty. After
    /// `Later` and after `Failed` nothing was read.
    fn poll_read(&mut self, into: &mut [u8]) -> Result<Polled, Failed>
        ensures within { IfOk result (λ polled. FitsIn polled into.new) }
        ensures whole { IsTrue tells → whole self.new ≡ whole self.old }
        ensures took { IsTrue tells → IfOk result (λ polled. Polls polled (whole self.old) (taken self.old)
            (taken self.new) into.new) }
        ensures kept { IsTrue tells → OnErr result (taken self.new ≡ taken self.old) }
        ensures ready { rests ≡ false → result ≡ Ok later_polled → ⊥ }
        ensures cause { IsCaused (faults self.old) (faults self.new) result };
}

/// An output that is written in pieces, and may take none now.
pub trait PollSink {
    /// Whether the output is told.
    ghost tells: { Bool };

    /// Whether it may answer `Later`.
    ghost rests: { Bool };

    /// All bytes taken so far.
    ghost written: { Self → List ℕ };

    /// How often a write has failed.
    ghost faults: { Self → ℕ };

    /// Takes bytes from the front of the piece: at least one, unless the piece is empty. After
    /// `Later` and after `Failed` it took none.
    fn poll_write(&mut self, piece: &[u8]) -> Result<Drained, Failed>
        ensures within { IfOk result (λ drained. FitsPiece drained piece.now) }
        ensures wrote { IsTrue tells → IfOk result (λ drained. Drains drained (written self.old)
            (written self.new) piece.now) }
        ensures kept { IsTrue tells → OnErr result (written self.new ≡ written self.old) }
        ensures ready { rests ≡ false → result ≡ Ok later_drained → ⊥ }
        ensures cause { IsCaused (faults self.old) (faults self.new) result };
}

/// A stream that waits until it is ready, as one that is polled: it never answers `Later`.
#[derive(Drop)]
pub struct Blocking<S>(pub S);

impl<S: Source> PollSource for Blocking<S> {
    ghost use Rattle.std.specs.Prelude.{false};

    ghost tells = { S.tells };

    ghost rests = { false };

    ghost whole = { λ b. S.whole b.0 };

    ghost taken = { λ b. S.taken b.0 };

    ghost faults = { λ b. S.faults b.0 };

    fn poll_read(&mut self, into: &mut [u8]) -> Result<Polled, Failed> {
        match self.0.read(into)? {
            0 if !into.is_empty() => Ok(Polled::End),
            count => Ok(Polled::Taken(count)),
        }
    }
}

impl<K: Sink> PollSink for Blocking<K> {
    ghost use Rattle.std.specs.Prelude.{false};

    ghost tells = { K.tells };

    ghost rests = { false };

    ghost written = { λ b. K.written b.0 };

    ghost faults = { λ b. K.faults b.0 };

    fn poll_write(&mut self, piece: &[u8]) -> Result<Drained, Failed> {
        let count = self.0.write(piece)?;
        Ok(Drained::Taken(count))
    }
}
