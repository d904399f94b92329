//! Why a folder can't be used as a disk.
use std::io;
use std::io::ErrorKind;
use thiserror::Error;

/// Why a folder can't be used as a disk. The text is what a program prints.
#[derive(Clone, Copy, Debug, PartialEq, Eq, Error)]
pub enum OsRefused {
    /// The folder or its lock file can't be opened, or the lock can't be asked for.
    #[error("directory: {0}")]
    Directory(Reason),
    /// Another process has its lock.
    #[error("lock")]
    Lock,
    /// An allocation was refused.
    #[error("memory")]
    Memory,
}

/// Why a folder can't be opened.
#[derive(Clone, Copy, Debug, PartialEq, Eq, Error)]
pub enum Reason {
    #[error("not found")]
    NotFound,
    #[error("not a directory")]
    NotADirectory,
    #[error("permission denied")]
    PermissionDenied,
    #[error("read-only file system")]
    ReadOnly,
    #[error("too many open files")]
    TooManyOpen,
    #[error("the lock file is not a regular file")]
    LockFile,
    /// The system's number for any other error; 0 where it has none.
    #[error("system error {0}")]
    Other(i32),
}

impl From<io::Error> for OsRefused {
    fn from(error: io::Error) -> OsRefused {
        if error.kind() == ErrorKind::OutOfMemory {
            OsRefused::Memory
        } else {
            OsRefused::Directory(Reason::from(error))
        }
    }
}

impl From<io::Error> for Reason {
    fn from(error: io::Error) -> Reason {
        match error.kind() {
            ErrorKind::NotFound => Reason::NotFound,
            ErrorKind::NotADirectory => Reason::NotADirectory,
            ErrorKind::PermissionDenied => Reason::PermissionDenied,
            ErrorKind::ReadOnlyFilesystem => Reason::ReadOnly,
            _ if has_too_many_open(error) => Reason::TooManyOpen,
            _ => Reason::Other(error.raw_os_error().unwrap_or(0)),
        }
    }
}

/// Whether the process or the system has as many files open as it may: ENFILE or EMFILE.
pub(crate) fn has_too_many_open(error: io::Error) -> bool {
    matches!(error.raw_os_error(), Some(23 | 24))
}
