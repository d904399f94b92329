//! What a call on the outside may answer instead of its result.
ghost use Rattle.std.specs.Prelude.{◌≡◌};
ghost use Rattle.bk_disk.specs.declared.errors.DiskError.TheVariants.{Failed as failed, Memory as memory};

use bk_base::Memory;
use std::alloc::{AllocError, AllocFailed};

/// A call on an object of the outside failed; the object counted it.
#[derive(Clone, Copy, Debug, PartialEq, Eq)]
pub struct Failed;

/// Why a call on a disk was refused.
#[derive(Clone, Copy, Debug, PartialEq, Eq)]
pub enum DiskError {
    /// The call failed, and the object counted it.
    Failed,
    /// An allocation was refused.
    Memory,
}

impl From<Failed> for DiskError {
    ghost from_gives = { λ _ error. error ≡ failed };

    fn from(_: Failed) -> DiskError {
        DiskError::Failed
    }
}

impl From<Memory> for DiskError {
    ghost from_gives = { λ _ error. error ≡ memory };

    fn from(_: Memory) -> DiskError {
        DiskError::Memory
    }
}

impl From<AllocError> for DiskError {
    ghost from_gives = { λ _ error. error ≡ memory };

    fn from(_: AllocError) -> DiskError {
        Memory.into()
    }
}

impl<T: Drop> From<AllocFailed<T>> for DiskError {
    ghost from_gives = { λ _ error. error ≡ memory };

    fn from(_: AllocFailed<T>) -> DiskError {
        Memory.into()
    }
}
