//! Why a directory wasn't loaded.
ghost use Rattle.std.specs.Prelude.{◌≡◌};
ghost use Rattle.bk_load.specs.declared.errors.OpenError.TheVariants.{Disk as open_disk, Memory as open_memory};
ghost use Rattle.bk_load.specs.declared.errors.LoadSettings.TheVariants.{Memory as settings_memory};
ghost use Rattle.bk_load.specs.Errors.{open_error_of, scan_error_of, settings_error_of};

use bk_base::Memory;
use bk_disk::{DiskError, Failed};
use bk_files::ScanError;
use bk_policy::SettingsError;
use std::alloc::{AllocError, AllocFailed};

/// Why a directory wasn't recovered.
#[derive(Clone, Copy, Debug, PartialEq, Eq)]
pub enum OpenError {
    /// A call on the disk failed, and the disk counted it.
    Disk,
    /// A read of a file failed; the disk counts the views of which that may be so.
    Read,
    /// An allocation was refused.
    Memory,
}

/// Why no settings were loaded.
#[derive(Clone, Copy, Debug, PartialEq, Eq)]
pub enum LoadSettings {
    /// The file of the settings says none.
    Bad(SettingsError),
    /// A call on the disk failed, and the disk counted it.
    Disk,
    /// A read of the file failed; the disk counts the views of which that may be so.
    Read,
    /// An allocation was refused.
    Memory,
}

impl From<Failed> for OpenError {
    ghost from_gives = { λ _ error. error ≡ open_disk };

    fn from(_: Failed) -> OpenError {
        OpenError::Disk
    }
}

impl From<DiskError> for OpenError {
    ghost from_gives = { λ cause error. error ≡ open_error_of cause };

    fn from(error: DiskError) -> OpenError {
        match error {
            DiskError::Failed => OpenError::Disk,
            DiskError::Memory => OpenError::Memory,
        }
    }
}

impl From<ScanError> for OpenError {
    ghost from_gives = { λ cause error. error ≡ scan_error_of cause };

    fn from(error: ScanError) -> OpenError {
        match error {
            ScanError::Read => OpenError::Read,
            ScanError::Memory => OpenError::Memory,
        }
    }
}

impl From<Memory> for OpenError {
    ghost from_gives = { λ _ error. error ≡ open_memory };

    fn from(_: Memory) -> OpenError {
        OpenError::Memory
    }
}

impl From<AllocError> for OpenError {
    ghost from_gives = { λ _ error. error ≡ open_memory };

    fn from(_: AllocError) -> OpenError {
        Memory.into()
    }
}

impl<T: Drop> From<AllocFailed<T>> for OpenError {
    ghost from_gives = { λ _ error. error ≡ open_memory };

    fn from(_: AllocFailed<T>) -> OpenError {
        Memory.into()
    }
}

impl From<OpenError> for LoadSettings {
    ghost from_gives = { λ cause error. error ≡ settings_error_of cause };

    fn from(error: OpenError) -> LoadSettings {
        match error {
            OpenError::Disk => LoadSettings::Disk,
            OpenError::Read => LoadSettings::Read,
            OpenError::Memory => LoadSettings::Memory,
        }
    }
}
