//! A new file that a disk has lent, to be written elsewhere.
ghost use Rattle.std.specs.Prelude.{◌≡◌, ◌≢◌, ◌++◌, Bool, false, List, ℕ, length, take, IsTrue, IsOk, OnOk, OnErr, IsErrOf};
ghost use Rattle.bk_disk.specs.Causes.{IsCaused, HasCause};

use crate::errors::{DiskError, Failed};
use bk_base::Name;

/// A file under a name of its own, which the disk that lent it takes back by `adopt`.
pub trait Out {
    ghost use Rattle.bk_base.specs.declared.names.Name.{Name};

    /// Whether the file's content is told.
    ghost tells: { Bool };

    /// The name that it was lent under, which is told always.
    ghost name: { Self → Name };

    /// Its bytes.
    ghost bytes: { Self → List ℕ };

    /// How many of its bytes, from the front, are synced.
    ghost synced: { Self → ℕ };

    /// How often a call has failed.
    ghost faults: { Self → ℕ };

    /// The count of faults may rise: a file that isn't fallible never fails.
    ghost fallible: { Self → Bool };

    /// Appends the piece. After a refusal a first part of it, from none to all of it, may stand at
    /// the end.
    fn append(&mut self, piece: &[u8]) -> Result<(), DiskError>
        ensures appended { IsTrue tells → OnOk result (bytes self.new ≡ bytes self.old ++ piece.now) }
        ensures err { IsTrue tells → OnErr result ((n : ℕ)
            × (bytes self.new ≡ bytes self.old ++ take n piece.now)) }
        ensures synced { IsTrue tells → synced self.new ≡ synced self.old }
        ensures name { name self.new ≡ name self.old }
        ensures cause { HasCause (faults self.old) (faults self.new) result }
        ensures strong { fallible self.old ≡ false → ¬ (IsErrOf result DiskError.Failed) }
        ensures same_faults { fallible self.old ≡ false → faults self.new ≡ faults self.old }
        ensures fallible { fallible self.new ≡ fallible self.old };

    /// Syncs all bytes. A sync that fails changes nothing.
    fn sync(&mut self) -> Result<(), Failed>
        ensures synced { IsTrue tells → OnOk result (synced self.new ≡ length (bytes self.old)) }
        ensures err { IsTrue tells → OnErr result (synced self.new ≡ synced self.old) }
        ensures bytes { IsTrue tells → bytes self.new ≡ bytes self.old }
        ensures name { name self.new ≡ name self.old }
        ensures cause { IsCaused (faults self.old) (faults self.new) result }
        ensures strong { fallible self.old ≡ false → IsOk result }
        ensures same_faults { fallible self.old ≡ false → faults self.new ≡ faults self.old }
        ensures fallible { fallible self.new ≡ fallible self.old };
}
