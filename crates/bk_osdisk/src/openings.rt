//! How the folder, its lock file and its other files are opened.
use crate::errors::{OsRefused, Reason, has_too_many_open};
use crate::faults::Trouble;
use bk_base::{Kind, Name};
use std::alloc::{Alloc, AllocError, Global};
use std::fs::{File, Files, OpenOptions, TryLockError};
use std::io::ErrorKind;
use std::{fs, io};

const LOCK_FILE: &str = "bitcask.write.lock";

/// Why a file wasn't opened.
#[derive(Clone, Copy, Debug)]
pub(crate) enum Unopened {
    /// Something that is no regular file has the name.
    OtherKind,
    Refused(io::Error),
}

impl From<io::Error> for Unopened {
    fn from(error: io::Error) -> Unopened {
        Unopened::Refused(error)
    }
}

impl From<Unopened> for Trouble {
    fn from(_: Unopened) -> Trouble {
        Trouble::Fault
    }
}

impl From<Unopened> for OsRefused {
    fn from(unopened: Unopened) -> OsRefused {
        match unopened {
            Unopened::OtherKind => OsRefused::Directory(Reason::LockFile),
            Unopened::Refused(error) => OsRefused::from(error),
        }
    }
}

impl Unopened {
    /// Whether it may go once another file is closed.
    pub(crate) fn for_too_many(&self) -> bool {
        match self {
            Unopened::OtherKind => false,
            Unopened::Refused(error) => has_too_many_open(*error),
        }
    }

    /// Whether the file may perhaps be read, though not written.
    pub(crate) fn for_writing(&self) -> bool {
        match self {
            Unopened::OtherKind => false,
            Unopened::Refused(error) => matches!(
                error.kind(),
                ErrorKind::PermissionDenied | ErrorKind::ReadOnlyFilesystem
            ),
        }
    }
}

/// Opens a regular file, and says how long it is. The kind is asked before, since the open of a
/// FIFO can wait for ever, and again of what was opened.
pub(crate) fn open_regular<R: Files<File = File>>(
    rt: &R,
    options: &OpenOptions,
    path: &str,
) -> Result<(File, u64), Unopened> {
    if let Ok(metadata) = fs::metadata(rt, path) {
        if !metadata.is_file() {
            return Err(Unopened::OtherKind);
        }
    }
    let file = options.open(rt, path)?;
    let metadata = file.metadata()?;
    if metadata.is_file() {
        Ok((file, metadata.len()))
    } else {
        Err(Unopened::OtherKind)
    }
}

/// The store never writes the settings, so they may be read-only.
pub(crate) fn options_for(name: Name) -> OpenOptions {
    let mut options = OpenOptions::new();
    options.read(true).append(name.kind != Kind::Settings);
    options
}

pub(crate) fn joined(alloc: Global, folder: &str, name: &str) -> Result<String, AllocError> {
    format!(in alloc; "{folder}/{name}")
}

/// The slash at the end makes the system refuse at once what is no folder.
pub(crate) fn open_folder<R>(rt: &R, path: &str) -> Result<File, OsRefused>
where
    R: Files<File = File> + Alloc<A = Global>,
{
    if path.is_empty() {
        return Err(OsRefused::Directory(Reason::NotFound));
    }
    let path = joined(rt.alloc(), path, "").map_err(|_| OsRefused::Memory)?;
    Ok(File::open(rt, path.as_str())?)
}

/// Takes the folder's lock, for as long as the file is open.
pub(crate) fn take_lock<R>(rt: &R, path: &str) -> Result<File, OsRefused>
where
    R: Files<File = File> + Alloc<A = Global>,
{
    let path = joined(rt.alloc(), path, LOCK_FILE).map_err(|_| OsRefused::Memory)?;
    let mut options = OpenOptions::new();
    options.read(true).write(true).create(true);
    let (lock, _) = open_regular(rt, &options, path.as_str())?;
    match lock.try_lock() {
        Ok(()) => Ok(lock),
        Err(TryLockError::WouldBlock) => Err(OsRefused::Lock),
        Err(TryLockError::Error(error)) => Err(OsRefused::from(error)),
    }
}
