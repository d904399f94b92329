//! The end of a run: all that was written is synced, whatever ended its session.
ghost use Rattle.std.specs.Prelude.{◌≡◌, ◌≤◌, IsTrue};
ghost use Rattle.bk_store.specs.Events.{KeepsPast};
ghost use Rattle.bitcaskd.specs.Closing.{ClosesBy, if_unsynced, status_of};

use bk_base::{SessionEnd, Status};
use bk_disk::Disk;
use bk_store::Store;

/// The status of a run whose session ended so, where its last sync is answered.
pub fn status_of(end: SessionEnd) -> Status
    ensures { result ≡ status_of end }
{
    match end {
        SessionEnd::Quit | SessionEnd::End => Status::Done,
        SessionEnd::Syntax(_) => Status::Syntax,
        SessionEnd::Source => Status::Source,
        SessionEnd::Sink => Status::Sink,
        SessionEnd::Long => Status::Long,
        SessionEnd::Memory => Status::Memory,
        SessionEnd::Disk => Status::Disk,
    }
}

/// Syncs all writes, once. A sync that fails changes the status `Done` alone.
pub fn close<D: Disk>(store: &mut Store<D>, status: Status) -> Status
    ensures closes { ClosesBy status result D.tells store.old store.new }
    ensures past { IsTrue D.tells → KeepsPast store.old.files.told store.new.files.told }
    ensures later { store.old.files.faults ≤ store.new.files.faults }
    ensures views { store.new.files.fallible_views ≡ store.old.files.fallible_views }
{
    match store.sync() {
        Ok(_) => status,
        Err(_) => if_unsynced(status),
    }
}

/// The status of a run whose last sync failed.
fn if_unsynced(status: Status) -> Status
    ensures { result ≡ if_unsynced status }
{
    match status {
        Status::Done => Status::Disk,
        ended => ended,
    }
}
