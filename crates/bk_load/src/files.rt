//! The data files: each is synced, and then its hint is read, or its records.
ghost use Rattle.std.specs.Prelude.{◌≡◌, ◌≤◌, ◌∷◌, [], ℕ, List, Some, length, map, option_map, IsTrue, IfOk, OnOk};
ghost use Rattle.bk_base.specs.declared.writes.Write.{Write};
ghost use Rattle.bk_disk.specs.Told.{at};
ghost use Rattle.bk_files.specs.Rows.{AreSyncedIfSealed};
ghost use Rattle.bk_image.specs.CountedFiles.{Counts, HasNoList};
ghost use Rattle.bk_image.specs.Readings.{Books, bytes_in, hint, main};
ghost use Rattle.bk_image.specs.RecoveredLog.{HintsTrue};
ghost use Rattle.bk_laws.specs.Record.{AreRecords, IsWritable};
ghost use Rattle.bk_load.specs.Courses.{Course};
ghost use Rattle.bk_load.specs.Found.{AreFound, FilesRise, HaveRead, IsFound, IsJudged, IsUncounted, KeepsFound, TrueIfThere, found_row};
ghost use Rattle.bk_load.specs.Hints.{HasTaken, covered_by as part_covered};
ghost use Rattle.bk_load.specs.Learning.{AreFit, KeepsWithin};
ghost use Rattle.bk_load.specs.Scanning.{HasScanned};
ghost use Rattle.bk_load.specs.Steps.{SyncsToo};
ghost use Rattle.bk_load.specs.Tidying.{NoneLent};
ghost use Rattle.std.specs.List.{AllByRecursion};

use crate::calls::{list_files, named, sync_file};
use crate::directory::{in_order, lengths};
use crate::errors::OpenError;
use crate::hints::read_hint;
use crate::learning::Learned;
use crate::scanning::scan_from;
use bk_base::{FileId, Kind, Row, RowState};
use bk_disk::Disk;
use bk_hint::Verdict;
use bk_progress::{Progress, Stage};
use std::alloc::Global;

/// What was found of a data file: its row without the counts, and what its hint is, where it has one.
#[derive(Clone, Copy, Debug)]
pub(crate) struct FileFound {
    pub(crate) row: Row,
    pub(crate) verdict: Option<Verdict>,
}

/// Reads all data files, in order of id. No whole swap list stands.
pub(crate) fn read_files<D: Disk, P: Progress>(
    alloc: Global,
    disk: &mut D,
    learned: &mut Learned,
    progress: &mut P,
) -> Result<Vec<FileFound>, OpenError>
    requires no_list { IsTrue D.tells → HasNoList (at (D.shown disk.old).told.image) }
    requires none_lent { IsTrue D.tells → NoneLent (D.shown disk.old).told.fronts }
    ensures course { Course D.tells (D.shown disk.old) (D.shown disk.new) result }
    ensures image { IsTrue D.tells → (D.shown disk.new).told.image ≡ (D.shown disk.old).told.image }
    ensures fit { AreFit learned.old → OnOk result (AreFit learned.new) }
    ensures kept { IfOk result
        (λ found. KeepsFound found.items learned.old.keys.entries learned.new.keys.entries) }
    ensures rise { IfOk result (λ found. FilesRise 1 found.items) }
    ensures uncounted { IfOk result (λ found. AllByRecursion IsUncounted found.items) }
    ensures found { IsTrue D.tells → IfOk result (λ found. AreFound (at (D.shown disk.old).told.image) found.items) }
    ensures synced { IsTrue D.tells → IfOk result
        (λ found. AreSyncedIfSealed (map found_row found.items) (D.shown disk.new).told) }
    ensures read { IsTrue D.tells → (books : Books)
        → ((n : _) → Counts (at (D.shown disk.old).told.image) n → AreRecords (bytes_in (at (D.shown disk.old).told.image) n) (books n))
        → HintsTrue (at (D.shown disk.old).told.image) books
        → IfOk result (λ found. HaveRead books found.items learned.old learned.new) }
{
    let files = list_files(disk)?;
    // A file numbered 0 doesn't count.
    let mains = in_order(alloc, &files, Kind::Main, 1)?;
    let hints = lengths(alloc, &files, Kind::Hint)?;
    let mut found = Vec::with_capacity(alloc, mains.len())?;
    'files: for main in &mains {
        let hint_size = hints.get(&main.id).copied();
        let file = FileId(main.id);
        let this = read_file(alloc, disk, learned, file, main.len, hint_size)?;
        found.push(this)?;
        progress.reached(Stage::Opening, found.len() as u64, mains.len() as u64);
    }
    progress.finished();
    Ok(found)
}

// Reads a data file of this length, whose hint has the other length, where there is one.
fn read_file<D: Disk>(
    alloc: Global,
    disk: &mut D,
    learned: &mut Learned,
    file: FileId,
    len: u64,
    hint_size: Option<u64>,
) -> Result<FileFound, OpenError>
    requires first { 1 ≤ file.0 }
    requires no_list { IsTrue D.tells → HasNoList (at (D.shown disk.old).told.image) }
    requires none_lent { IsTrue D.tells → NoneLent (D.shown disk.old).told.fronts }
    requires there { IsTrue D.tells → option_map length (at (D.shown disk.old).told.image (main file.0)) ≡ Some len }
    requires hint { IsTrue D.tells → option_map length (at (D.shown disk.old).told.image (hint file.0)) ≡ hint_size }
    ensures course { Course D.tells (D.shown disk.old) (D.shown disk.new) result }
    ensures image { IsTrue D.tells → (D.shown disk.new).told.image ≡ (D.shown disk.old).told.image }
    ensures fit { AreFit learned.old → OnOk result (AreFit learned.new) }
    ensures kept { IfOk result
        (λ found. KeepsFound (found ∷ []) learned.old.keys.entries learned.new.keys.entries) }
    ensures file { IfOk result (λ found. found.row.id ≡ file) }
    ensures uncounted { IfOk result IsUncounted }
    ensures found { IsTrue D.tells → IfOk result (IsFound (at (D.shown disk.old).told.image)) }
    ensures synced { IsTrue D.tells → OnOk result (SyncsToo (main file.0) (D.shown disk.old).told (D.shown disk.new).told) }
    ensures read { IsTrue D.tells → (bytes : List ℕ) (writes : List Write)
        → at (D.shown disk.old).told.image (main file.0) ≡ Some bytes → AreRecords bytes writes
        → TrueIfThere (at (D.shown disk.old).told.image (hint file.0)) (length bytes) writes
        → IfOk result (λ found. HasScanned file 0 writes found.row.total learned.old learned.new) }
{
    sync_file(disk, named(file, Kind::Main))?;
    let verdict = read_hint_if_there(alloc, disk, learned, file, len, hint_size)?;
    let from = covered_by(verdict);
    let total = scan_from(alloc, disk, learned, file, from, len)?;
    let row = Row {
        len,
        total,
        live: 0,
        refs: 0,
        id: file,
        state: RowState::Sealed,
    };
    Ok(FileFound { row, verdict })
}

fn read_hint_if_there<D: Disk>(
    alloc: Global,
    disk: &mut D,
    learned: &mut Learned,
    file: FileId,
    len: u64,
    hint_size: Option<u64>,
) -> Result<Option<Verdict>, OpenError>
    requires { IsTrue D.tells → option_map length (at (D.shown disk.old).told.image (hint file.0)) ≡ hint_size }
    ensures course { Course D.tells (D.shown disk.old) (D.shown disk.new) result }
    ensures image { IsTrue D.tells → (D.shown disk.new).told.image ≡ (D.shown disk.old).told.image }
    ensures fronts { IsTrue D.tells → (D.shown disk.new).told.fronts ≡ (D.shown disk.old).told.fronts }
    ensures covered { IfOk result (λ verdict. part_covered verdict ≤ len) }
    ensures judged { IsTrue D.tells → IfOk result (IsJudged (at (D.shown disk.old).told.image (hint file.0)) len) }
    ensures fit { AreFit learned.old → OnOk result (AreFit learned.new) }
    ensures kept { OnOk result (KeepsWithin file len learned.old.keys.entries learned.new.keys.entries) }
    ensures taken { IsTrue D.tells → (writes : List Write)
        → TrueIfThere (at (D.shown disk.old).told.image (hint file.0)) len writes
        → AllByRecursion IsWritable writes
        → IfOk result (λ verdict. HasTaken file writes (part_covered verdict) learned.old learned.new) }
{
    match hint_size {
        Some(size) => Ok(Some(read_hint(alloc, disk, learned, file, len, size)?)),
        None => Ok(None),
    }
}

// How many bytes of the data file a hint covers, none where it can't be used.
fn covered_by(verdict: Option<Verdict>) -> u64
    ensures { result ≡ part_covered verdict }
{
    match verdict {
        Some(Verdict::Good { covered, rows: _ }) => covered,
        _ => 0,
    }
}
