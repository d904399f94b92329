//! A run that fills its store.
ghost use Rattle.std.specs.Prelude.{◌≡◌, ℕ, Bool, List};
ghost use Rattle.bk_disk.specs.Causes.{Rose};
ghost use Rattle.bk_disk.specs.Shown.{DiskShown};
ghost use Rattle.bitcaskd.specs.Commands.{MayEnd};
ghost use Rattle.bitcaskd.specs.Filling.{Fills, of_fill};
ghost use Rattle.bitcaskd.specs.Opening.{Opens};
ghost use Rattle.bitcaskd.specs.Run.{outside, telling};
ghost use Rattle.bitcaskd.specs.declared.command.Command.TheVariants.{Open};
ghost use Rattle.bitcaskd.specs.declared.command.Work.TheVariants.{Fill};

use crate::run::Ended;
use bk_base::Status;
use bk_disk::{Clock, Disk, Sink};
use bk_fill::{FillEnd, fill};
use bk_progress::Progress;
use bk_store::Store;
use std::alloc::Global;

/// Puts so many pairs into a store that was opened.
pub fn fill_store<D: Disk, K: Sink, C: Clock, P: Progress>(
    alloc: Global,
    mut store: Store<D>,
    sink: &mut K,
    clock: &mut C,
    count: u32,
    progress: &mut P,
) -> Ended<D>
    ensures ran { (was : DiskShown) (source : Bool) (whole : List ℕ) (taken : ℕ) → Opens D.tells was store
        → Fills count (telling D.tells source K.tells C.tells)
        (outside was whole taken (K.written sink.old) (K.faults sink.old)
        (C.moments clock.old))
        (outside (D.shown result.disk) whole taken (K.written sink.new) (K.faults sink.new) (C.moments clock.new))
        result.status }
    ensures ends { MayEnd (Open (Fill count)) result.status }
    ensures disk { result.status ≡ Status.Disk → Rose store.files.faults (D.shown result.disk).faults }
    ensures sink { result.status ≡ Status.Sink → Rose (K.faults sink.old) (K.faults sink.new) }
{
    let end = fill(alloc, &mut store, sink, clock, count, progress);
    Ended {
        disk: store.close(),
        status: of_fill(end),
    }
}

/// The status of a run whose fill ended so.
fn of_fill(end: FillEnd) -> Status
    ensures { result ≡ of_fill end }
{
    match end {
        FillEnd::Done => Status::Done,
        FillEnd::Full => Status::Full,
        FillEnd::Disk => Status::Disk,
        FillEnd::Sink => Status::Sink,
        FillEnd::Memory => Status::Memory,
    }
}
