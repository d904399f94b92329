//! What the records of a data file say.
ghost use Rattle.std.specs.Prelude.{◌≡◌, ◌+◌, ◌-◌, ◌≤◌, ◌++◌, ℕ, List, Some, length, drop, IsTrue, IfOk, OnOk};
ghost use Rattle.bk_base.specs.declared.writes.Write.{Write};
ghost use Rattle.bk_disk.specs.Told.{at};
ghost use Rattle.bk_files.specs.Scan.{HasReadCause, IsTold, file_len};
ghost use Rattle.bk_image.specs.Readings.{main};
ghost use Rattle.bk_laws.specs.Record.{AreRecords};
ghost use Rattle.bk_load.specs.Courses.{Course};
ghost use Rattle.bk_load.specs.Learning.{AreFit, KeepsWithin};
ghost use Rattle.bk_load.specs.Scanning.{HasScanned};
ghost use Rattle.bk_load.specs.Tidying.{NeedsScan};

use crate::calls::{named, view_file};
use crate::errors::OpenError;
use crate::learning::Learned;
use bk_base::{FileId, Kind};
use bk_disk::{Disk, View};
use bk_files::{Scan, ScanError};
use std::alloc::Global;

/// Takes in the records of a file from a place on, and says where they end. Where the file has no
/// bytes from there on, nothing is asked of the disk.
pub(crate) fn scan_from<D: Disk>(
    alloc: Global,
    disk: &mut D,
    learned: &mut Learned,
    file: FileId,
    from: u64,
    len: u64,
) -> Result<u64, OpenError>
    requires inside { from ≤ len }
    requires there { IsTrue D.tells → (bytes : List ℕ)
        × (at (D.shown disk.old).told.image (main file.0) ≡ Some bytes) × (length bytes ≡ len) }
    requires needed { IsTrue D.tells → (from ≡ len → ⊥) → NeedsScan (at (D.shown disk.old).told.image) file.0 }
    ensures course { Course D.tells (D.shown disk.old) (D.shown disk.new) result }
    ensures image { IsTrue D.tells → (D.shown disk.new).told.image ≡ (D.shown disk.old).told.image }
    ensures fronts { IsTrue D.tells → (D.shown disk.new).told.fronts ≡ (D.shown disk.old).told.fronts }
    ensures within { IfOk result (λ end. end ≤ len) }
    ensures fit { AreFit learned.old → OnOk result (AreFit learned.new) }
    ensures kept { OnOk result (KeepsWithin file len learned.old.keys.entries learned.new.keys.entries) }
    ensures scanned { IsTrue D.tells → (bytes : List ℕ) (writes : List Write)
        → at (D.shown disk.old).told.image (main file.0) ≡ Some bytes → AreRecords (drop from bytes) writes
        → IfOk result (λ end. HasScanned file from writes end learned.old learned.new) }
{
    if from == len {
        return Ok(len);
    }
    let mut view = view_file(disk, named(file, Kind::Main), from, len - from)?;
    let mut scan = Scan::from(alloc, file, from, len);
    learn_records(&mut scan, &mut view, learned)?;
    Ok(scan.place())
}

// Takes in all records that a scan finds.
fn learn_records<V: View>(
    scan: &mut Scan,
    view: &mut V,
    learned: &mut Learned,
) -> Result<(), ScanError>
    requires { V.rest view.old ≡ scan.old.unread }
    ensures scanned { IsTold V.tells (V.left view.old) (V.rest view.old) → OnOk result
        ((writes : List Write) × AreRecords (scan.old.held ++ V.left view.old) writes
        × HasScanned scan.old.file scan.old.place writes scan.new.place learned.old learned.new) }
    ensures len { file_len scan.new ≡ file_len scan.old }
    ensures fit { AreFit learned.old → OnOk result (AreFit learned.new) }
    ensures kept { OnOk result (KeepsWithin scan.old.file (file_len scan.old)
        learned.old.keys.entries learned.new.keys.entries) }
    ensures cause { HasReadCause (V.faults view.old) (V.faults view.new) (V.fallible view.old)
        (V.fallible view.new) result }
{
    'records: while let Some(found) = scan.next_key(view)? {
        learned.learn(found.key, found.version)?;
    }
    Ok(())
}
