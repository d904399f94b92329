//! Why a roll was refused.
ghost use Rattle.std.specs.Prelude.{◌≡◌};
ghost use Rattle.bk_files.specs.declared.errors.RollError.TheVariants.{Memory as memory, Disk as disk};

use bk_base::Memory;
use bk_disk::{DiskError, Failed};

/// Why no new file was made.
#[derive(Clone, Copy, Debug, PartialEq, Eq)]
pub enum RollError {
    /// The last file number is given out.
    FullFiles,
    /// A call on the disk failed, and the disk counted it.
    Disk,
    /// An allocation was refused.
    Memory,
}

impl From<Memory> for RollError {
    ghost from_gives = { λ _ error. error ≡ memory };

    fn from(_: Memory) -> RollError {
        RollError::Memory
    }
}

impl From<Failed> for RollError {
    ghost from_gives = { λ _ error. error ≡ disk };

    fn from(_: Failed) -> RollError {
        RollError::Disk
    }
}

impl From<DiskError> for RollError {
    ghost use Rattle.std.specs.Prelude.{◌≡◌};
    ghost use Rattle.bk_files.specs.Errors.{roll_error_of};

    ghost from_gives = { λ cause error. error ≡ roll_error_of cause };

    fn from(error: DiskError) -> RollError {
        match error {
            DiskError::Failed => RollError::Disk,
            DiskError::Memory => RollError::Memory,
        }
    }
}
