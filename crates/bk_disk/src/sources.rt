//! Where bytes come from.
ghost use Rattle.std.specs.Prelude.{◌≡◌, ◌<◌, ◌≤◌, Bool, List, ℕ, length, IsTrue, IfOk, OnErr};
ghost use Rattle.bk_disk.specs.Causes.{IsCaused};
ghost use Rattle.bk_disk.specs.Streams.{Takes};

use crate::errors::Failed;

/// An input that is read in pieces.
pub trait Source {
    /// Whether the input is told.
    ghost tells: { Bool };

    /// The whole input, which no read changes.
    ghost whole: { Self → List ℕ };

    /// How many bytes of the input have been read.
    ghost taken: { Self → ℕ };

    /// How often a read has failed.
    ghost faults: { Self → ℕ };

    /// Reads the next bytes into the front of `into`, and says how many. Into a slice that isn't
    /// empty it reads at least one byte, or none at the end of the input.
    fn read(&mut self, into: &mut [u8]) -> Result<usize, Failed>
        ensures within { IfOk result (λ n. n ≤ length into.new) }
        ensures whole { IsTrue tells → whole self.new ≡ whole self.old }
        ensures took { IsTrue tells → IfOk result (λ n. Takes (whole self.old) (taken self.old)
            (taken self.new) n into.new) }
        ensures ended { IsTrue tells → IfOk result (λ n. 0 < length into.new → n ≡ 0
            → taken self.old ≡ length (whole self.old)) }
        ensures kept { IsTrue tells → OnErr result (taken self.new ≡ taken self.old) }
        ensures cause { IsCaused (faults self.old) (faults self.new) result };
}
