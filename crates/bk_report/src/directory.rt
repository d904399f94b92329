//! The report of a directory, from its files to the sink.
ghost use Rattle.std.specs.Prelude.{◌≡◌, ◌≤◌, ◌++◌, ℕ, List, IsErrOf, IsTrue, OnOk};
ghost use Rattle.bk_disk.specs.Causes.{Rose};
ghost use Rattle.bk_disk.specs.Streams.{LeftOver, Wrote};
ghost use Rattle.bk_load.specs.Courses.{Came};
ghost use Rattle.bk_load.specs.Tidying.{NoneLent};
ghost use Rattle.bk_report.specs.Directory.{Tells};
ghost use Rattle.bk_report.specs.Report.{report_text};

use crate::errors::ReportError;
use crate::report::write_report;
use bk_disk::{Disk, Failed, Sink, write_all};
use bk_keydir::Loaded;
use bk_load::recover;
use bk_progress::Progress;
use std::alloc::Global;

/// Recovers a directory, whatever a crash left of it, and writes the report of it as it was found. The same files
/// count afterwards as before.
///
/// `Disk` comes only where the disk's count of faults rose, `Read` only where that of the fallible views did, and
/// `Sink` only where the sink's did; then a first part may have been written, and otherwise nothing was.
pub fn report_directory<D: Disk, K: Sink, P: Progress>(
    alloc: Global,
    disk: &mut D,
    sink: &mut K,
    progress: &mut P,
) -> Result<(), ReportError>
    requires { IsTrue D.tells → NoneLent (D.shown disk.old).told.fronts }
    ensures came { Came D.tells (D.shown disk.old) (D.shown disk.new) }
    ensures told { (output : List ℕ) × Tells result D.tells (D.shown disk.old).told (D.shown disk.new).told output
        × (IsTrue K.tells → K.written sink.new ≡ K.written sink.old ++ output) }
    ensures disk { IsErrOf result ReportError.Disk → Rose (D.shown disk.old).faults (D.shown disk.new).faults }
    ensures read { IsErrOf result ReportError.Read → Rose (D.shown disk.old).views (D.shown disk.new).views }
    ensures later { K.faults sink.old ≤ K.faults sink.new }
    ensures sink { IsErrOf result ReportError.Sink → Rose (K.faults sink.old) (K.faults sink.new) }
{
    match recover(alloc, disk, progress) {
        Ok(loaded) => {
            // The law of the keydir, that no key stands twice in it, comes with this call.
            let _keys = loaded.keydir.len();
            send_report(alloc, &loaded, sink)
        }
        Err(error) => Err(ReportError::from(error)),
    }
}

// Writes the report of what was loaded.
fn send_report<K: Sink>(alloc: Global, loaded: &Loaded, sink: &mut K) -> Result<(), ReportError>
    ensures whole { IsTrue K.tells → OnOk result (Wrote (K.written sink.old) (K.written sink.new)
        (report_text loaded.now.rows.items loaded.now.report)) }
    ensures part { IsTrue K.tells → IsErrOf result ReportError.Sink → LeftOver (K.written sink.old) (K.written sink.new)
        (report_text loaded.now.rows.items loaded.now.report) }
    ensures nothing { IsErrOf result ReportError.Memory → sink.new ≡ sink.old }
    ensures disk { IsErrOf result ReportError.Disk → ⊥ }
    ensures read { IsErrOf result ReportError.Read → ⊥ }
    ensures later { K.faults sink.old ≤ K.faults sink.new }
    ensures sink { IsErrOf result ReportError.Sink → Rose (K.faults sink.old) (K.faults sink.new) }
{
    let mut text = Vec::new(alloc);
    write_report(&mut text, &loaded.rows, &loaded.report)?;
    match write_all(sink, &text) {
        Ok(()) => Ok(()),
        Err(Failed) => Err(ReportError::Sink),
    }
}
