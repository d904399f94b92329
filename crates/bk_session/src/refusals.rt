//! The line of a call that the store refused.
ghost use Rattle.std.specs.Prelude.{◌≡◌};
ghost use Rattle.bk_session.specs.Refusing.{line_of_fold, line_of_locate, line_of_put};

use bk_base::{Full, Reply};
use bk_store::{FoldError, LocateError, PutError};

pub(crate) fn refused_write(error: PutError) -> Reply
    ensures { result ≡ line_of_put error }
{
    match error {
        PutError::FullSeq => Reply::Full(Full::Seq),
        PutError::FullFiles => Reply::Full(Full::Files),
        PutError::Disk => Reply::Disk,
        PutError::Memory => Reply::Memory,
    }
}

pub(crate) fn refused_read(error: LocateError) -> Reply
    ensures { result ≡ line_of_locate error }
{
    match error {
        LocateError::Disk => Reply::Disk,
        LocateError::Memory => Reply::Memory,
    }
}

/// The line of a fold that gave no pair. That its slot isn't open can't be: the session opened it.
pub(crate) fn refused_fold(error: FoldError) -> Reply
    ensures { result ≡ line_of_fold error }
{
    match error {
        FoldError::Disk => Reply::Disk,
        FoldError::Memory | FoldError::NoFold(_) => Reply::Memory,
    }
}
