//! A record goes to the end of the active file.
ghost use Rattle.std.specs.Prelude.{◌≡◌, false, IsTrue, IfErr, IfOk};
ghost use Rattle.bk_files.specs.Catalog.{id_of};
ghost use Rattle.bk_files.specs.Files.{IsConsistent, is_torn};
ghost use Rattle.bk_files.specs.Rows.{IsRecord};
ghost use Rattle.bk_store.specs.Appends.{AppendsAt, AppendsNot, FilesGo, KeepsFacts, Rolls, RollsNot};

use crate::errors::PutError;
use bk_base::FileId;
use bk_disk::Disk;
use bk_files::{Files, RollError};

/// Where a record was appended, and whether a new file was made for it.
#[derive(Clone, Copy, Debug, PartialEq, Eq)]
pub(crate) struct Place {
    pub(crate) at: u64,
    pub(crate) file: FileId,
    pub(crate) rolled: bool,
}

/// Appends a record to the active file: repairs it first, and rolls where a new one is due.
pub(crate) fn append_record<D: Disk>(files: &mut Files<D>, text: &[u8]) -> Result<Place, PutError>
    requires consistent { IsTrue D.tells → IsConsistent files.old }
    requires text { IsRecord text.now }
    ensures ok { IfOk result (λ p. AppendsAt D.tells text.now p files.old files.new) }
    ensures err { IfErr result (AppendsNot D.tells text.now files.old files.new) }
    ensures rest { FilesGo D.tells files.old files.new }
{
    let size = text.len() as u32;
    files.repair()?;
    let rolled = make_place(files, size)?;
    files.ready(size)?;
    let at = files.append(text)?;
    let file = active_file(files);
    Ok(Place { at, file, rolled })
}

// Rolls, where a record of this size needs a new file.
fn make_place<D: Disk>(files: &mut Files<D>, size: u32) -> Result<bool, RollError>
    requires consistent { IsTrue D.tells → IsConsistent files.old }
    requires whole { is_torn files.old ≡ false }
    ensures ok { IfOk result (λ rolled. Rolls D.tells size rolled files.old files.new) }
    ensures err { IfErr result (RollsNot D.tells size files.old files.new) }
    ensures rest { FilesGo D.tells files.old files.new }
    ensures facts { IsTrue D.tells → KeepsFacts files.old files.new }
{
    if !files.due(size) {
        return Ok(false);
    }
    files.roll()?;
    Ok(true)
}

/// The active file, and number 0 where there is none.
fn active_file<D: Disk>(files: &Files<D>) -> FileId
    ensures { result.0 ≡ id_of files.now.catalog.active }
{
    match files.active() {
        Some(file) => file,
        None => FileId(0),
    }
}
