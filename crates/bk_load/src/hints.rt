//! What a hint tells of its data file.
ghost use Rattle.std.specs.Prelude.{◌≡◌, ◌≤◌, ℕ, List, Some, length, IsTrue, IfOk, OnOk};
ghost use Rattle.bk_base.specs.declared.writes.Write.{Write};
ghost use Rattle.std.specs.List.{AllByRecursion};
ghost use Rattle.bk_disk.specs.Told.{at};
ghost use Rattle.bk_hint.specs.Verdicts.{IsVerdict};
ghost use Rattle.bk_image.specs.Readings.{hint};
ghost use Rattle.bk_image.specs.RecoveredLog.{HintTrue};
ghost use Rattle.bk_laws.specs.Hint.{Hinted, RowsLeft, rows_from};
ghost use Rattle.bk_laws.specs.Record.{IsWritable};
ghost use Rattle.bk_load.specs.Courses.{Course};
ghost use Rattle.bk_load.specs.Hints.{HasTaken, covered_by};
ghost use Rattle.bk_load.specs.Found.{is_good};
ghost use Rattle.bk_load.specs.Learning.{AreFit, KeepsWithin};
ghost use Rattle.bk_load.specs.Scanning.{HasScanned};

use crate::calls::{named, read_whole};
use crate::errors::OpenError;
use crate::learning::Learned;
use bk_base::{FileId, Kind, Memory};
use bk_disk::Disk;
use bk_hint::{HintIn, Verdict, judge};
use std::alloc::Global;

/// Reads the hint, of `size` bytes, of a data file of `len` bytes. It takes in its rows where it is
/// Good, and says what it is.
pub(crate) fn read_hint<D: Disk>(
    alloc: Global,
    disk: &mut D,
    learned: &mut Learned,
    file: FileId,
    len: u64,
    size: u64,
) -> Result<Verdict, OpenError>
    requires { IsTrue D.tells → (bytes : List ℕ)
        × (at (D.shown disk.old).told.image (hint file.0) ≡ Some bytes) × (length bytes ≡ size) }
    ensures course { Course D.tells (D.shown disk.old) (D.shown disk.new) result }
    ensures image { IsTrue D.tells → (D.shown disk.new).told.image ≡ (D.shown disk.old).told.image }
    ensures fronts { IsTrue D.tells → (D.shown disk.new).told.fronts ≡ (D.shown disk.old).told.fronts }
    ensures covered { IfOk result (λ verdict. covered_by (Some verdict) ≤ len) }
    ensures judged { IsTrue D.tells → (bytes : List ℕ) → at (D.shown disk.old).told.image (hint file.0) ≡ Some bytes
        → IfOk result (λ verdict. IsVerdict bytes len verdict) }
    ensures fit { AreFit learned.old → OnOk result (AreFit learned.new) }
    ensures kept { OnOk result (KeepsWithin file len learned.old.keys.entries learned.new.keys.entries) }
    ensures taken { IsTrue D.tells → (bytes : List ℕ) (writes : List Write)
        → at (D.shown disk.old).told.image (hint file.0) ≡ Some bytes → HintTrue bytes len writes
        → AllByRecursion IsWritable writes
        → IfOk result (λ verdict. HasTaken file writes (covered_by (Some verdict)) learned.old learned.new) }
{
    let bytes = read_whole(alloc, disk, named(file, Kind::Hint), size)?;
    let verdict = judge(&bytes, len);
    if is_usable(&verdict) {
        learn_rows(alloc, learned, file, &bytes)?;
    }
    Ok(verdict)
}

// Whether a hint can be used.
fn is_usable(verdict: &Verdict) -> bool
    ensures { result ≡ is_good (Some verdict.now) }
{
    matches!(verdict, Verdict::Good { .. })
}

// Takes in all rows of a hint that is Good.
fn learn_rows(
    alloc: Global,
    learned: &mut Learned,
    file: FileId,
    bytes: &[u8],
) -> Result<(), Memory>
    requires { (covered : ℕ) × (rows : List Hinted) × RowsLeft bytes.now 0 covered rows }
    ensures fit { AreFit learned.old → OnOk result (AreFit learned.new) }
    ensures kept { (covered : ℕ) (rows : List Hinted) → RowsLeft bytes.now 0 covered rows → OnOk result
        (KeepsWithin file covered learned.old.keys.entries learned.new.keys.entries) }
    ensures taken { (covered : ℕ) (writes : List Write) → RowsLeft bytes.now 0 covered (rows_from 0 writes)
        → AllByRecursion IsWritable writes → OnOk result
        ((end : ℕ) × HasScanned file 0 writes end learned.old learned.new) }
{
    let mut reader = HintIn::new(file);
    'rows: while let Some(row) = reader.next(alloc, bytes)? {
        learned.learn(row.key, row.version)?;
    }
    Ok(())
}
