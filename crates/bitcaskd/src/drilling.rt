//! A run of a script.
ghost use Rattle.std.specs.Prelude.{◌≡◌, Bool, List};
ghost use Rattle.bk_base.specs.declared.numbers.Moment.{Moment};
ghost use Rattle.bk_disk.specs.Causes.{Rose};
ghost use Rattle.bk_disk.specs.Shown.{DiskShown};
ghost use Rattle.bitcaskd.specs.Commands.{MayEnd};
ghost use Rattle.bitcaskd.specs.Drilling.{Drills, of_drill};
ghost use Rattle.bitcaskd.specs.Run.{outside, telling};
ghost use Rattle.bitcaskd.specs.declared.command.Command.TheVariants.{Drill};

use bk_base::Status;
use bk_base::limits::LONGEST_SESSION;
use bk_disk::{Sink, Source};
use bk_drill::{DrillEnd, drill};
use std::alloc::Global;

/// Runs the script that the source holds. Nothing else of the outside is touched.
pub fn run_script<S: Source, K: Sink>(alloc: Global, source: &mut S, sink: &mut K) -> Status
    ensures ran { (told clock : Bool) (disk : DiskShown) (moments : List Moment)
        → Drills (telling told S.tells K.tells clock)
        (outside disk (S.whole source.old) (S.taken source.old) (K.written sink.old) (K.faults sink.old) moments)
        (outside disk (S.whole source.new) (S.taken source.new) (K.written sink.new) (K.faults sink.new) moments) result }
    ensures ends { MayEnd Drill result }
    ensures source { result ≡ Status.Source → Rose (S.faults source.old) (S.faults source.new) }
    ensures sink { result ≡ Status.Sink → Rose (K.faults sink.old) (K.faults sink.new) }
{
    let end = drill(alloc, source, sink, LONGEST_SESSION);
    of_drill(end)
}

/// The status of a run whose drill ended so.
fn of_drill(end: DrillEnd) -> Status
    ensures { result ≡ of_drill end }
{
    match end {
        DrillEnd::End => Status::Done,
        DrillEnd::Syntax(_) => Status::Syntax,
        DrillEnd::Source => Status::Source,
        DrillEnd::Sink => Status::Sink,
        DrillEnd::Long => Status::Long,
        DrillEnd::Memory => Status::Memory,
    }
}
