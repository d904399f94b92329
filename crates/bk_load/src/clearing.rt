//! Files that nothing needs: those that a merge left under a temporary name, and hints without a data
//! file.
ghost use Rattle.std.specs.Prelude.{◌≡◌, ℕ, IsTrue, OnOk, is_some};
ghost use Rattle.std.specs.BTreeMap.{get};
ghost use Rattle.std.specs.Ordering.{nat_cmp};
ghost use Rattle.bk_disk.specs.Told.{at};
ghost use Rattle.bk_image.specs.CountedFiles.{HasNoList};
ghost use Rattle.bk_load.specs.Courses.{Course};
ghost use Rattle.bk_load.specs.Directory.{IsCleared, loose_by};

use crate::calls::{list_files, remove_file};
use crate::directory::lengths;
use crate::errors::OpenError;
use bk_base::{Kind, Name};
use bk_disk::Disk;
use std::alloc::Global;
use std::collections::BTreeMap;

/// Removes the files that nothing needs. No whole swap list stands.
pub(crate) fn clear_loose<D: Disk>(alloc: Global, disk: &mut D) -> Result<(), OpenError>
    requires { IsTrue D.tells → HasNoList (at (D.shown disk.old).told.image) }
    ensures course { Course D.tells (D.shown disk.old) (D.shown disk.new) result }
    ensures cleared { IsTrue D.tells → OnOk result (IsCleared (at (D.shown disk.new).told.image)) }
{
    let files = list_files(disk)?;
    let mains = lengths(alloc, &files, Kind::Main)?;
    for file in &files {
        if is_loose(file.name, &mains) {
            remove_file(disk, file.name)?;
        }
    }
    Ok(())
}

// Whether nothing needs the file, where these are the data files.
fn is_loose(name: Name, mains: &BTreeMap<u32, u64>) -> bool
    ensures { result ≡ loose_by (is_some (get nat_cmp mains.now name.id)) name.kind }
{
    match name.kind {
        Kind::MainTemp | Kind::HintTemp | Kind::SwapTemp => true,
        Kind::Hint => !mains.contains_key(&name.id),
        Kind::Main | Kind::Swap | Kind::Settings => false,
    }
}
