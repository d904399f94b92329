//! Why nothing was read.
ghost use Rattle.std.specs.Prelude.{◌≡◌};
ghost use Rattle.bk_script.specs.declared.unread.Unread.TheVariants.{Memory as no_memory};

use bk_base::Memory;
use std::alloc::{AllocError, AllocFailed};

/// Why some words weren't read.
#[derive(Clone, Copy, Debug, PartialEq, Eq)]
pub(crate) enum Unread {
    /// They are none of the table's.
    Bad,
    /// Out of memory.
    Memory,
}

impl From<Memory> for Unread {
    ghost from_gives = { λ _ unread. unread ≡ no_memory };

    fn from(_: Memory) -> Unread {
        Unread::Memory
    }
}

impl From<AllocError> for Unread {
    ghost from_gives = { λ _ unread. unread ≡ no_memory };

    fn from(_: AllocError) -> Unread {
        Unread::Memory
    }
}

impl<T: Drop> From<AllocFailed<T>> for Unread {
    ghost from_gives = { λ _ unread. unread ≡ no_memory };

    fn from(_: AllocFailed<T>) -> Unread {
        Unread::Memory
    }
}
