//! The store of a directory: what was recovered is what it starts from.
ghost use Rattle.std.specs.Prelude.{◌≡◌, [], false, Err, List, IfErr, IfOk, IsTrue};
ghost use Rattle.bk_base.specs.declared.writes.Write.{Write};
ghost use Rattle.bk_disk.specs.Told.{at};
ghost use Rattle.bk_image.specs.SoundDirectory.{IsSoundDisk};
ghost use Rattle.bk_keydir.specs.Slots.{has_open};
ghost use Rattle.bk_load.specs.Courses.{Came, Course};
ghost use Rattle.bk_load.specs.Tidying.{NoneLent};
ghost use Rattle.bk_store.specs.Standing.{StandsFor};
ghost use Rattle.bk_store.specs.Starting.{opening_of};

use crate::errors::OpenError;
use crate::recovery::recover;
use bk_disk::Disk;
use bk_policy::Settings;
use bk_progress::Progress;
use bk_store::Store;
use std::alloc::Global;

/// The store of a directory, whatever a crash left of it. Where the directory is sound and synced, the
/// store stands for the log that was there, and no step. After a refusal the disk comes back.
pub fn open<D: Disk, P: Progress>(
    alloc: Global,
    disk: D,
    settings: Settings,
    progress: &mut P,
) -> Result<Store<D>, (D, OpenError)>
    requires { IsTrue D.tells → NoneLent (D.shown disk).told.fronts }
    ensures came { IfOk result (λ store. Came D.tells
        (D.shown disk)
        (record { told = store.files.told; faults = store.files.faults; views = store.files.fallible_views; outs = store.files.fallible_outs })) }
    ensures settings { IfOk result (λ store. store.settings ≡ settings) }
    ensures limit { IfOk result (λ store. store.files.catalog.max_file ≡ settings.max_file) }
    ensures no_fold { IfOk result (λ store. has_open store.keys.slots ≡ false) }
    ensures stands { IsTrue D.tells → (log : List Write) → IsSoundDisk (D.shown disk).told log
        → IfOk result (λ store. StandsFor store (opening_of log store) [] []) }
    ensures refused { IfErr result (λ refused. Course {T = Unit {0}} D.tells (D.shown disk) (D.shown refused.0)
        (Err refused.1)) }
{
    let mut disk = disk;
    match recover(alloc, &mut disk, progress) {
        Ok(loaded) => Ok(Store::start(alloc, disk, loaded, settings)),
        Err(error) => Err((disk, error)),
    }
}
