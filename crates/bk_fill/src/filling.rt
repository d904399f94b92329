//! A fill: its puts, its sync and its line.
ghost use Rattle.std.specs.Prelude.{◌≡◌, ◌≤◌, Bool, IsTrue};
ghost use Rattle.bk_disk.specs.Causes.{Rose};
ghost use Rattle.bk_fill.specs.Filling.{IsFilledFor, sides_of, telling};
ghost use Rattle.bk_store.specs.Events.{KeepsPast};

use crate::ends::FillEnd;
use crate::lines::tell;
use crate::putting::work;
use bk_disk::{Clock, Disk, Sink};
use bk_progress::Progress;
use bk_store::Store;
use std::alloc::Global;

/// Puts `count` pairs, all at the clock's one moment, syncs them, and writes a line with their number, the number of the
/// store's keys and the bytes of the pairs' records. Where a put is refused what was put until then stays, and is synced;
/// the line then says what is full, and is left out where that isn't the cause.
///
/// What the store holds may be known only where the disk tells.
pub fn fill<D: Disk, K: Sink, C: Clock, P: Progress>(
    alloc: Global,
    store: &mut Store<D>,
    sink: &mut K,
    clock: &mut C,
    count: u32,
    progress: &mut P,
) -> FillEnd
    ensures filled { (known : Bool) → (IsTrue known → IsTrue D.tells)
        → IsFilledFor known (telling K.tells C.tells) count
        (sides_of store.old (K.written sink.old) (C.moments clock.old))
        (sides_of store.new (K.written sink.new) (C.moments clock.new)) result }
    ensures past { IsTrue D.tells → KeepsPast store.old.files.told store.new.files.told }
    ensures later { store.old.files.faults ≤ store.new.files.faults }
    ensures views { store.new.files.fallible_views ≡ store.old.files.fallible_views }
    ensures disk { result ≡ FillEnd.Disk → Rose store.old.files.faults store.new.files.faults }
    ensures wrote { K.faults sink.old ≤ K.faults sink.new }
    ensures sink { result ≡ FillEnd.Sink → Rose (K.faults sink.old) (K.faults sink.new) }
{
    let now = clock.now();
    let work = work(alloc, store, now, count, progress);
    tell(alloc, sink, count, work)
}
