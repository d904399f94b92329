//! The recovery of a directory.
ghost use Rattle.std.specs.Prelude.{◌≡◌, [], List, IsErrOf, IsTrue, IfOk, OnOk};
ghost use Rattle.bk_base.specs.declared.writes.Write.{Write};
ghost use Rattle.bk_disk.specs.Told.{at, listing};
ghost use Rattle.bk_files.specs.Rows.{AreSyncedIfSealed};
ghost use Rattle.bk_image.specs.CountedFiles.{HasNoList};
ghost use Rattle.bk_image.specs.SoundDirectory.{IsSoundDisk};
ghost use Rattle.bk_load.specs.Assembling.{Assembled};
ghost use Rattle.bk_load.specs.Courses.{Course};
ghost use Rattle.bk_load.specs.Directory.{IsCleared, greatest_in};
ghost use Rattle.bk_load.specs.Found.{FilesRise};
ghost use Rattle.bk_load.specs.Lists.{AreOdd};
ghost use Rattle.bk_load.specs.Loads.{IsLoadedFrom};
ghost use Rattle.bk_load.specs.Tidying.{NoneLent};
ghost use Rattle.bk_store.specs.Starting.{AreFilesOf, IsInOrder, IsLoadOf};

use crate::calls::list_files;
use crate::clearing::clear_loose;
use crate::counting::count_versions;
use crate::directory::greatest_id;
use crate::errors::OpenError;
use crate::files::{FileFound, read_files};
use crate::learning::Learned;
use crate::lists::read_lists;
use crate::reports::{report_of, rows_of};
use crate::settling::settle_lists;
use bk_base::{FileId, Name};
use bk_disk::Disk;
use bk_keydir::Loaded;
use bk_progress::Progress;
use std::alloc::Global;

/// Recovers a directory, whatever a crash left of it: a merge that was committed is brought to its end,
/// what nothing needs goes, and the keydir and the rows are made from the data files and their hints.
///
/// `Disk` comes only where the disk's count of faults rose, `Read` only where that of the fallible views
/// did. After a refusal the same files count as before, and it may be called again.
///
/// Over every disk a store may start from what was loaded. Where the disk is sound and synced, it is so
/// afterwards too, with the same log, and what was loaded is what that log says.
pub fn recover<D: Disk, P: Progress>(
    alloc: Global,
    disk: &mut D,
    progress: &mut P,
) -> Result<Loaded, OpenError>
    requires { IsTrue D.tells → NoneLent (D.shown disk.old).told.fronts }
    ensures course { Course D.tells (D.shown disk.old) (D.shown disk.new) result }
    ensures order { IfOk result IsInOrder }
    ensures files { IsTrue D.tells → IfOk result (AreFilesOf (D.shown disk.new).told) }
    ensures idle { IsTrue D.tells → OnOk result (HasNoList (at (D.shown disk.new).told.image)) }
    ensures loaded { IsTrue D.tells → IfOk result (IsLoadedFrom (at (D.shown disk.new).told.image)) }
    ensures odd { IsTrue D.tells → IfOk result
        (λ loaded. AreOdd (at (D.shown disk.old).told.image) loaded.report.odd.items) }
    ensures cleared { IsTrue D.tells → IfOk result
        (λ loaded. loaded.report.odd.items ≡ [] → IsCleared (at (D.shown disk.new).told.image)) }
    ensures synced { IsTrue D.tells → IfOk result
        (λ loaded. AreSyncedIfSealed loaded.rows.items (D.shown disk.new).told) }
    ensures last_file { IsTrue D.tells → IfOk result
        (λ loaded. loaded.last_file.0 ≡ greatest_in (listing (D.shown disk.old).told.image)) }
    ensures sound { IsTrue D.tells → (log : List Write) → IsSoundDisk (D.shown disk.old).told log
        → IfOk result (λ loaded. IsLoadOf (D.shown disk.new).told loaded log) }
{
    let listed = list_files(disk)?;
    let lists = read_lists(alloc, disk, &listed)?;
    settle_lists(disk, &lists.whole)?;
    clear_unless_odd(alloc, disk, &lists.odd)?;
    let mut learned = Learned::new(alloc);
    let files = read_files(alloc, disk, &mut learned, progress)?;
    let last = FileId(greatest_id(&listed));
    assemble(alloc, learned, &files, lists.odd, last)
}

// Clears the directory where no list is odd.
fn clear_unless_odd<D: Disk>(alloc: Global, disk: &mut D, odd: &[Name]) -> Result<(), OpenError>
    requires { IsTrue D.tells → HasNoList (at (D.shown disk.old).told.image) }
    ensures course { Course D.tells (D.shown disk.old) (D.shown disk.new) result }
    ensures cleared { IsTrue D.tells → odd.now ≡ [] → OnOk result (IsCleared (at (D.shown disk.new).told.image)) }
{
    if odd.is_empty() {
        return clear_loose(alloc, disk);
    }
    Ok(())
}

// What was loaded, from what was found.
fn assemble(
    alloc: Global,
    learned: Learned,
    files: &[FileFound],
    odd: Vec<Name>,
    last_file: FileId,
) -> Result<Loaded, OpenError>
    requires { FilesRise 1 files.now }
    ensures loaded { IfOk result (Assembled learned files.now odd.items last_file) }
    ensures disk { IsErrOf result OpenError.Disk → ⊥ }
    ensures read { IsErrOf result OpenError.Read → ⊥ }
{
    let (keydir, last_seq) = learned.finish();
    let mut rows = rows_of(alloc, files)?;
    count_versions(&mut rows, &keydir);
    Ok(Loaded {
        keydir,
        rows,
        report: report_of(alloc, files, odd)?,
        last_seq,
        last_file,
    })
}
