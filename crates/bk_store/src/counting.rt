//! The counts in the rows. They change by each version that is put or goes.
ghost use Rattle.std.specs.Prelude.{◌≡◌, ◌≤◌, ◌<◌, ℕ, Some, None, option_map, cond, IsTrue};
ghost use Rattle.bk_base.specs.declared.rows.Row.{Row};
ghost use Rattle.bk_files.specs.Catalog.{row_of};
ghost use Rattle.bk_files.specs.Files.{rows_of};
ghost use Rattle.bk_keydir.specs.Folds.{KeepsFolds};
ghost use Rattle.bk_keydir.specs.Keydir.{HasRoom, IsNewer, newest_of, versions_of, with_version};
ghost use Rattle.bk_keydir.specs.Slots.{has_open};
ghost use Rattle.bk_store.specs.Appends.{CanAdd, CountsAlone, RowsHaveRoom, counts_added, counts_taken, earlier_taken, ref_taken};
ghost use Rattle.bk_store.specs.Rows.{RowsStand};

use bk_base::{Key, Version};
use bk_disk::Disk;
use bk_files::Files;
use bk_keydir::Keydir;

/// Puts a version, and keeps the counts in step.
pub(crate) fn put_version<D: Disk>(
    files: &mut Files<D>,
    keydir: &mut Keydir,
    key: Key,
    version: Version,
)
    requires room { HasRoom key keydir.old }
    requires newer { IsNewer version.seq.0 key keydir.old }
    ensures entries { keydir.new.entries
        ≡ with_version keydir.old.slots key version keydir.old.entries }
    ensures folds { KeepsFolds keydir.old keydir.new }
    ensures counts { RowsHaveRoom version (rows_of files.old) keydir.old.entries
        → RowsStand (rows_of files.new) keydir.new.entries }
    ensures alone { CountsAlone D.tells files.old files.new }
{
    let seen = newest_if_open(keydir, &key);
    let gone = keydir.put_version(key, version);
    add_version(files, version);
    take_earlier(files, gone, seen);
}

// The newest version of the key, where a fold is open that may have to keep it.
fn newest_if_open(keydir: &Keydir, key: &Key) -> Option<Version>
    ensures { result ≡ cond (has_open keydir.now.slots)
        (newest_of (versions_of key.now keydir.now.entries)) None }
{
    if keydir.has_folds() {
        keydir.newest(key)
    } else {
        None
    }
}

// Counts a version that was put.
fn add_version<D: Disk>(files: &mut Files<D>, version: Version)
    ensures rows { (id : ℕ) (r : Row) → row_of id (rows_of files.old) ≡ Some r → CanAdd id version r
        → row_of id (rows_of files.new) ≡ Some (counts_added id version r) }
    ensures alone { CountsAlone D.tells files.old files.new }
{
    if version.gone {
        return;
    }
    if let Some(row) = files.row(version.file) {
        let live = row.live.saturating_add(u64::from(version.size));
        let refs = row.refs.saturating_add(1);
        files.count(version.file, live, refs);
    }
}

// Takes the earlier newest version from the counts: it isn't live any more, and where it has gone it
// doesn't name its file either.
fn take_earlier<D: Disk>(files: &mut Files<D>, gone: Option<Version>, seen: Option<Version>)
    ensures rows { (id : ℕ) → row_of id (rows_of files.new)
        ≡ option_map (earlier_taken id gone seen) (row_of id (rows_of files.old)) }
    ensures alone { CountsAlone D.tells files.old files.new }
{
    match (gone, seen) {
        (Some(earlier), _) => take_version(files, earlier, 1),
        (None, Some(earlier)) => take_version(files, earlier, 0),
        (None, None) => {}
    }
}

/// Takes a version from the counts of its file: its bytes from those that are live, and so many
/// from the references.
pub(crate) fn take_version<D: Disk>(files: &mut Files<D>, version: Version, refs: u64)
    ensures rows { (id : ℕ) → row_of id (rows_of files.new)
        ≡ option_map (counts_taken id version refs) (row_of id (rows_of files.old)) }
    ensures alone { CountsAlone D.tells files.old files.new }
{
    if version.gone {
        return;
    }
    if let Some(row) = files.row(version.file) {
        let live = row.live.saturating_sub(u64::from(version.size));
        files.count(version.file, live, row.refs.saturating_sub(refs));
    }
}

/// Takes an older version from the references of its file.
pub(crate) fn take_refs<D: Disk>(files: &mut Files<D>, version: Version)
    ensures rows { (id : ℕ) → row_of id (rows_of files.new)
        ≡ option_map (ref_taken id version) (row_of id (rows_of files.old)) }
    ensures alone { CountsAlone D.tells files.old files.new }
{
    if version.gone {
        return;
    }
    if let Some(row) = files.row(version.file) {
        files.count(version.file, row.live, row.refs.saturating_sub(1));
    }
}
