//! The whole command.
ghost use Rattle.std.specs.Prelude.{◌≡◌, ◌⊎◌, ◌≤◌, Bool, false, IsTrue};
ghost use Rattle.bk_disk.specs.Causes.{Rose};
ghost use Rattle.bk_keydir.specs.Slots.{has_open};
ghost use Rattle.bk_list.specs.Lists.{IsAsBefore, ListsFor, sides_of};
ghost use Rattle.bk_session.specs.Serving.{tells_of};
ghost use Rattle.bk_store.specs.Events.{KeepsPast};

use crate::gathering::gather;
use crate::printing::print;
use bk_disk::{Clock, Disk, Sink};
use bk_store::Store;
use std::alloc::Global;

/// How a listing ended.
#[derive(Clone, Copy, Debug, PartialEq, Eq)]
pub enum ListEnd {
    /// All pairs were printed, and their number.
    Done,
    Memory,
    /// A call of the disk failed, or a read of a file.
    Disk,
    Sink,
    /// A record isn't the one that was written, by its checksum. Its line is the last one.
    Damaged,
}

/// Lists the pairs that are live at the clock's moment, which is asked once, in the order of their keys'
/// bytes. It holds the keys, and one value at a time.
pub fn list<D: Disk, K: Sink, C: Clock>(
    alloc: Global,
    store: &mut Store<D>,
    sink: &mut K,
    clock: &mut C,
) -> ListEnd
    requires rested { has_open store.old.keys.slots ≡ false }
    ensures lists { (known : Bool) → (IsTrue known → IsTrue D.tells) → ListsFor (tells_of known K.tells C.tells)
        (sides_of store.old (K.written sink.old) (C.moments clock.old))
        (sides_of store.new (K.written sink.new) (C.moments clock.new)) result }
    ensures rest { IsAsBefore store.old store.new }
    ensures past { IsTrue D.tells → KeepsPast store.old.files.told store.new.files.told }
    ensures later { K.faults sink.old ≤ K.faults sink.new }
    ensures disk { result ≡ ListEnd.Disk → Rose store.old.files.faults store.new.files.faults
        ⊎ Rose store.old.files.fallible_views store.new.files.fallible_views }
    ensures sink { result ≡ ListEnd.Sink → Rose (K.faults sink.old) (K.faults sink.new) }
{
    let now = clock.now();
    let Ok(fold) = store.fold_open(0, now) else {
        unreachable!()
    };
    let gathered = gather(alloc, store, fold.slot);
    let _ = store.fold_close(0, fold.slot);
    match gathered {
        Ok(keys) => print(alloc, store, sink, keys, now),
        Err(end) => end,
    }
}
