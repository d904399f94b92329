//! Why a directory's report wasn't written whole.
ghost use Rattle.std.specs.Prelude.{◌≡◌};
ghost use Rattle.bk_report.specs.declared.errors.ReportError.TheVariants.{Memory as report_memory};
ghost use Rattle.bk_report.specs.Errors.{report_error_of};

use bk_base::Memory;
use bk_load::OpenError;

#[derive(Clone, Copy, Debug, PartialEq, Eq)]
pub enum ReportError {
    /// A call on the disk failed, and the disk counted it.
    Disk,
    /// A read of a file failed; the disk counts the views of which that may be so.
    Read,
    /// The sink failed, and counted it.
    Sink,
    /// An allocation was refused.
    Memory,
}

impl From<OpenError> for ReportError {
    ghost from_gives = { λ cause error. error ≡ report_error_of cause };

    fn from(error: OpenError) -> ReportError {
        match error {
            OpenError::Disk => ReportError::Disk,
            OpenError::Read => ReportError::Read,
            OpenError::Memory => ReportError::Memory,
        }
    }
}

impl From<Memory> for ReportError {
    ghost from_gives = { λ _ error. error ≡ report_memory };

    fn from(_: Memory) -> ReportError {
        ReportError::Memory
    }
}
