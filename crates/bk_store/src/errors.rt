//! Why a call of the store was refused.
ghost use Rattle.std.specs.Prelude.{◌≡◌};
ghost use Rattle.bk_store.specs.declared.errors.PutError.TheVariants.{Memory as put_memory, Disk as put_disk};
ghost use Rattle.bk_store.specs.declared.errors.PrepareError.TheVariants.{Memory as prepare_memory};
ghost use Rattle.bk_store.specs.declared.errors.FoldError.TheVariants.{Memory as fold_memory};

use bk_base::{Damage, Memory};
use bk_disk::{DiskError, Failed};
use bk_files::RollError;
use std::alloc::AllocError;

/// Why no put was prepared.
#[derive(Clone, Copy, Debug, PartialEq, Eq)]
pub enum PrepareError {
    /// The value has more than 16,777,216 bytes; `len` is how many.
    ValueLength { len: usize },
    /// An allocation was refused.
    Memory,
}

/// Why nothing was put.
#[derive(Clone, Copy, Debug, PartialEq, Eq)]
pub enum PutError {
    /// The last seq is given out.
    FullSeq,
    /// A new file is due, and the last file number is given out.
    FullFiles,
    /// A call on the disk failed, and the disk counted it.
    Disk,
    /// An allocation was refused.
    Memory,
}

/// Why no record was lent.
#[derive(Clone, Copy, Debug, PartialEq, Eq)]
pub enum LocateError {
    /// A call on the disk failed, and the disk counted it.
    Disk,
    /// An allocation was refused.
    Memory,
}

/// Why a fold gave no pair.
#[derive(Clone, Copy, Debug, PartialEq, Eq)]
pub enum FoldError {
    /// The slot isn't open by this caller.
    NoFold(u8),
    /// A call on the disk failed, and the disk counted it.
    Disk,
    /// An allocation was refused.
    Memory,
}

/// The slot isn't open by this caller.
#[derive(Clone, Copy, Debug, PartialEq, Eq)]
pub struct NoFold(pub u8);

/// Why a record that was lent couldn't be read.
#[derive(Clone, Copy, Debug, PartialEq, Eq)]
pub enum ReadError {
    /// A read of the view failed, and the view counted it.
    Read,
    /// The record's bytes have another checksum than the one that was kept.
    Damaged(Damage),
}

impl From<AllocError> for PrepareError {
    ghost from_gives = { λ _ error. error ≡ prepare_memory };

    fn from(_: AllocError) -> PrepareError {
        PrepareError::Memory
    }
}

impl From<Memory> for PutError {
    ghost from_gives = { λ _ error. error ≡ put_memory };

    fn from(_: Memory) -> PutError {
        PutError::Memory
    }
}

impl From<Failed> for PutError {
    ghost from_gives = { λ _ error. error ≡ put_disk };

    fn from(_: Failed) -> PutError {
        PutError::Disk
    }
}

impl From<RollError> for PutError {
    ghost use Rattle.std.specs.Prelude.{◌≡◌};
    ghost use Rattle.bk_store.specs.Errors.{put_error_of};

    ghost from_gives = { λ cause error. error ≡ put_error_of cause };

    fn from(error: RollError) -> PutError {
        match error {
            RollError::FullFiles => PutError::FullFiles,
            RollError::Disk => PutError::Disk,
            RollError::Memory => PutError::Memory,
        }
    }
}

impl From<DiskError> for LocateError {
    ghost use Rattle.std.specs.Prelude.{◌≡◌};
    ghost use Rattle.bk_store.specs.Errors.{locate_error_of};

    ghost from_gives = { λ cause error. error ≡ locate_error_of cause };

    fn from(error: DiskError) -> LocateError {
        match error {
            DiskError::Failed => LocateError::Disk,
            DiskError::Memory => LocateError::Memory,
        }
    }
}

impl From<LocateError> for FoldError {
    ghost use Rattle.std.specs.Prelude.{◌≡◌};
    ghost use Rattle.bk_store.specs.Errors.{fold_error_of};

    ghost from_gives = { λ cause error. error ≡ fold_error_of cause };

    fn from(error: LocateError) -> FoldError {
        match error {
            LocateError::Disk => FoldError::Disk,
            LocateError::Memory => FoldError::Memory,
        }
    }
}

impl From<Memory> for FoldError {
    ghost from_gives = { λ _ error. error ≡ fold_memory };

    fn from(_: Memory) -> FoldError {
        FoldError::Memory
    }
}
