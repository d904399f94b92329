//! A run that lists its store.
ghost use Rattle.std.specs.Prelude.{◌≡◌, ◌⊎◌, ℕ, Bool, List};
ghost use Rattle.bk_disk.specs.Causes.{Rose};
ghost use Rattle.bk_disk.specs.Shown.{DiskShown};
ghost use Rattle.bitcaskd.specs.Commands.{MayEnd};
ghost use Rattle.bitcaskd.specs.Listing.{Lists, of_list};
ghost use Rattle.bitcaskd.specs.Opening.{IsRested, Opens};
ghost use Rattle.bitcaskd.specs.Run.{outside, telling};
ghost use Rattle.bitcaskd.specs.declared.command.Command.TheVariants.{Open};
ghost use Rattle.bitcaskd.specs.declared.command.Work.TheVariants.{List as list_work};

use crate::run::Ended;
use bk_base::Status;
use bk_disk::{Clock, Disk, Sink};
use bk_list::{ListEnd, list};
use bk_store::Store;
use std::alloc::Global;

/// Lists the pairs of a store that was opened.
pub fn list_store<D: Disk, K: Sink, C: Clock>(
    alloc: Global,
    mut store: Store<D>,
    sink: &mut K,
    clock: &mut C,
) -> Ended<D>
    requires { IsRested store }
    ensures ran { (was : DiskShown) (source : Bool) (whole : List ℕ) (taken : ℕ) → Opens D.tells was store
        → Lists (telling D.tells source K.tells C.tells)
        (outside was whole taken (K.written sink.old) (K.faults sink.old)
        (C.moments clock.old))
        (outside (D.shown result.disk) whole taken (K.written sink.new) (K.faults sink.new) (C.moments clock.new))
        result.status }
    ensures ends { MayEnd (Open list_work) result.status }
    ensures disk { result.status ≡ Status.Disk → Rose store.files.faults (D.shown result.disk).faults
        ⊎ Rose store.files.fallible_views (D.shown result.disk).views }
    ensures sink { result.status ≡ Status.Sink → Rose (K.faults sink.old) (K.faults sink.new) }
{
    let end = list(alloc, &mut store, sink, clock);
    Ended {
        disk: store.close(),
        status: of_list(end),
    }
}

/// The status of a run whose listing ended so.
fn of_list(end: ListEnd) -> Status
    ensures { result ≡ of_list end }
{
    match end {
        ListEnd::Done => Status::Done,
        ListEnd::Memory => Status::Memory,
        ListEnd::Disk => Status::Disk,
        ListEnd::Sink => Status::Sink,
        ListEnd::Damaged => Status::Damaged,
    }
}
