//! A run that checks a directory.
ghost use Rattle.std.specs.Prelude.{◌≡◌, ℕ, Bool, List, IsTrue};
ghost use Rattle.bk_base.specs.declared.numbers.Moment.{Moment};
ghost use Rattle.bk_load.specs.Tidying.{NoneLent};
ghost use Rattle.bitcaskd.specs.Checking.{Checks, of_report};
ghost use Rattle.bitcaskd.specs.Run.{outside, telling};

use crate::opening::of_settings;
use crate::run::Ended;
use bk_base::Status;
use bk_disk::{Disk, Sink};
use bk_load::settings;
use bk_progress::Progress;
use bk_report::{ReportError, report_directory};
use std::alloc::Global;

/// Writes the report of a directory. The directory is recovered for that, and no store is started from it.
pub fn check<D: Disk, K: Sink, P: Progress>(
    alloc: Global,
    mut disk: D,
    sink: &mut K,
    progress: &mut P,
) -> Ended<D>
    requires { IsTrue D.tells → NoneLent (D.shown disk).told.fronts }
    ensures { (source clock : Bool) (whole : List ℕ) (taken : ℕ) (moments : List Moment)
        → Checks (telling D.tells source K.tells clock)
        (outside (D.shown disk) whole taken
        (K.written sink.old) (K.faults sink.old) moments)
        (outside (D.shown result.disk) whole taken (K.written sink.new) (K.faults sink.new) moments) result.status }
{
    match settings(alloc, &mut disk) {
        Ok(_) => {
            let report = report_directory(alloc, &mut disk, sink, progress);
            Ended {
                disk,
                status: of_report(report),
            }
        }
        Err(error) => Ended {
            disk,
            status: of_settings(error),
        },
    }
}

/// The status of a run whose report came to this.
fn of_report(report: Result<(), ReportError>) -> Status
    ensures { result ≡ of_report report }
{
    match report {
        Ok(()) => Status::Done,
        Err(ReportError::Disk | ReportError::Read) => Status::Disk,
        Err(ReportError::Sink) => Status::Sink,
        Err(ReportError::Memory) => Status::Memory,
    }
}
