//! The calls on a disk that a load makes, each with what it does to the files that count.
ghost use Rattle.std.specs.Prelude.{◌≡◌, ℕ, true, IsTrue, IfOk, OnOk, IsErrOf};
ghost use Rattle.bk_disk.specs.Causes.{bumped};
ghost use Rattle.bk_disk.specs.Told.{IsOurs, at, listing, range_of};
ghost use Rattle.bk_load.specs.Courses.{Course};
ghost use Rattle.bk_load.specs.Errors.{opened as opened_by};
ghost use Rattle.bk_load.specs.Steps.{AsksOnly, HasTakenName, LacksOnly, MayGo, MayTakeName, MayView, SyncsToo};
ghost use Rattle.bk_load.specs.Tidying.{NoneLent};

use crate::errors::OpenError;
use bk_base::{FileId, Kind, Name};
use bk_disk::{Disk, DiskError, Failed, Listed, View, read_exact};
use std::alloc::Global;

/// The name of a file with this id.
pub(crate) fn named(file: FileId, kind: Kind) -> Name
    ensures { result ≡ record { id = file.0; kind = kind } }
{
    Name { id: file.0, kind }
}

// The same answer, with the load's own cause.
fn opened<T>(given: Result<T, DiskError>) -> Result<T, OpenError>
    ensures { result ≡ opened_by given }
{
    match given {
        Ok(value) => Ok(value),
        Err(DiskError::Failed) => Err(OpenError::Disk),
        Err(DiskError::Memory) => Err(OpenError::Memory),
    }
}

/// All files with their lengths.
pub(crate) fn list_files<D: Disk>(disk: &mut D) -> Result<Vec<Listed>, OpenError>
    ensures course { Course D.tells (D.shown disk.old) (D.shown disk.new) result }
    ensures files { IsTrue D.tells → IfOk result (λ files. files.items ≡ listing (D.shown disk.old).told.image) }
    ensures told { IsTrue D.tells → (D.shown disk.new).told ≡ (D.shown disk.old).told }
{
    opened(disk.list())
}

/// Removes a file that doesn't count, if it is there.
pub(crate) fn remove_file<D: Disk>(disk: &mut D, name: Name) -> Result<(), OpenError>
    requires { IsTrue D.tells → MayGo name (at (D.shown disk.old).told.image) }
    ensures course { Course D.tells (D.shown disk.old) (D.shown disk.new) result }
    ensures gone { IsTrue D.tells → OnOk result
        (LacksOnly name (at (D.shown disk.old).told.image) (at (D.shown disk.new).told.image)) }
{
    opened(disk.remove(name))
}

/// Gives the data file its own name, where it has its temporary one.
pub(crate) fn rename_data<D: Disk>(disk: &mut D, file: FileId) -> Result<(), OpenError>
    requires { IsTrue D.tells → MayTakeName file.0 (at (D.shown disk.old).told.image) }
    ensures course { Course D.tells (D.shown disk.old) (D.shown disk.new) result }
    ensures named { IsTrue D.tells → OnOk result
        (HasTakenName file.0 (at (D.shown disk.old).told.image) (at (D.shown disk.new).told.image)) }
{
    let from = Name {
        id: file.0,
        kind: Kind::MainTemp,
    };
    let to = Name {
        id: file.0,
        kind: Kind::Main,
    };
    opened(disk.rename(from, to))
}

/// Syncs a file.
pub(crate) fn sync_file<D: Disk>(disk: &mut D, name: Name) -> Result<(), OpenError>
    requires { IsTrue D.tells → IsOurs name (D.shown disk.old).told }
    ensures course { Course D.tells (D.shown disk.old) (D.shown disk.new) result }
    ensures image { IsTrue D.tells → (D.shown disk.new).told.image ≡ (D.shown disk.old).told.image }
    ensures lent { IsTrue D.tells → NoneLent (D.shown disk.old).told.fronts → NoneLent (D.shown disk.new).told.fronts }
    ensures synced { IsTrue D.tells → OnOk result (SyncsToo name (D.shown disk.old).told (D.shown disk.new).told) }
{
    match disk.sync(name) {
        Ok(()) => Ok(()),
        Err(Failed) => Err(OpenError::Disk),
    }
}

/// A view of a range of a file that is there. Some of a data file is read only where it has to be.
pub(crate) fn view_file<D: Disk>(
    disk: &mut D,
    name: Name,
    from: u64,
    len: u64,
) -> Result<D::View, OpenError>
    requires { IsTrue D.tells → MayView name from len (D.shown disk.old).told.image }
    ensures course { Course D.tells (D.shown disk.old) (D.shown disk.new) result }
    ensures rest { IfOk result (λ view. D.View.rest view ≡ len) }
    ensures bytes { IsTrue D.tells → IfOk result
        (λ view. D.View.left view ≡ range_of name from len (D.shown disk.old).told.image) }
    ensures views { IfOk result (λ view. (D.shown disk.new).views
        ≡ bumped (D.View.fallible view) (D.shown disk.old).views) }
    ensures image { IsTrue D.tells → (D.shown disk.new).told.image ≡ (D.shown disk.old).told.image }
    ensures asked { IsTrue D.tells → AsksOnly name len (D.shown disk.old).told (D.shown disk.new).told }
{
    opened(disk.view(name, from, len))
}

/// All bytes of a file that has this length and isn't a data file.
pub(crate) fn read_whole<D: Disk>(
    alloc: Global,
    disk: &mut D,
    name: Name,
    len: u64,
) -> Result<Vec<u8>, OpenError>
    requires { IsTrue D.tells → MayView name 0 len (D.shown disk.old).told.image }
    ensures course { Course D.tells (D.shown disk.old) (D.shown disk.new) result }
    ensures bytes { IsTrue D.tells → IfOk result
        (λ bytes. bytes.items ≡ range_of name 0 len (D.shown disk.old).told.image) }
    ensures image { IsTrue D.tells → (D.shown disk.new).told.image ≡ (D.shown disk.old).told.image }
    ensures asked { IsTrue D.tells → AsksOnly name len (D.shown disk.old).told (D.shown disk.new).told }
{
    let mut view = view_file(disk, name, 0, len)?;
    read_view(alloc, &mut view, len)
}

// All bytes that a view has left.
fn read_view<V: View>(alloc: Global, view: &mut V, len: u64) -> Result<Vec<u8>, OpenError>
    requires { V.rest view.old ≡ len }
    ensures bytes { IsTrue V.tells → IfOk result (λ bytes. bytes.items ≡ V.left view.old) }
    ensures read { IsErrOf result OpenError.Read → V.fallible view.old ≡ true }
    ensures disk { IsErrOf result OpenError.Disk → ⊥ }
{
    let Ok(mut bytes) = vec![in alloc; 0; len as usize] else {
        return Err(OpenError::Memory);
    };
    match read_exact(view, &mut bytes) {
        Ok(()) => Ok(bytes),
        Err(Failed) => Err(OpenError::Read),
    }
}
