//! A run that holds a session.
ghost use Rattle.std.specs.Prelude.{◌≡◌};
ghost use Rattle.bk_disk.specs.Causes.{Rose};
ghost use Rattle.bk_disk.specs.Shown.{DiskShown};
ghost use Rattle.bitcaskd.specs.Commands.{MayEnd};
ghost use Rattle.bitcaskd.specs.Opening.{IsRested, Opens};
ghost use Rattle.bitcaskd.specs.Run.{Runs, outside, telling};
ghost use Rattle.bitcaskd.specs.declared.command.Command.TheVariants.{Open};
ghost use Rattle.bitcaskd.specs.declared.command.Work.TheVariants.{Pipe};

use crate::closing::{close, status_of};
use crate::run::Ended;
use bk_base::Status;
use bk_base::limits::LONGEST_SESSION;
use bk_disk::{Clock, Disk, Sink, Source};
use bk_session::session;
use bk_store::Store;
use std::alloc::Global;

/// Holds a session over a store that was opened, and syncs all writes, whatever ended it.
pub fn pipe_store<D: Disk, S: Source, K: Sink, C: Clock>(
    alloc: Global,
    mut store: Store<D>,
    source: &mut S,
    sink: &mut K,
    clock: &mut C,
) -> Ended<D>
    requires { IsRested store }
    ensures ran { (was : DiskShown) → Opens D.tells was store → Runs (telling D.tells S.tells K.tells C.tells)
        (outside was (S.whole source.old) (S.taken source.old)
        (K.written sink.old) (K.faults sink.old) (C.moments clock.old))
        (outside (D.shown result.disk) (S.whole source.new) (S.taken source.new) (K.written sink.new) (K.faults sink.new)
        (C.moments clock.new)) result.status }
    ensures ends { MayEnd (Open Pipe) result.status }
    ensures disk { result.status ≡ Status.Disk → Rose store.files.faults (D.shown result.disk).faults }
    ensures source { result.status ≡ Status.Source
        → Rose (S.faults source.old) (S.faults source.new) }
    ensures sink { result.status ≡ Status.Sink → Rose (K.faults sink.old) (K.faults sink.new) }
{
    let end = session(alloc, &mut store, source, sink, clock, LONGEST_SESSION);
    let status = close(&mut store, status_of(end));
    Ended {
        disk: store.close(),
        status,
    }
}
