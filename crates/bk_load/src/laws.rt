//! What a caller of recovery may need: what it asks of a disk, and what follows from its course.
ghost use Rattle.std.specs.Prelude.{◌≡◌, ℕ, ◌≤◌, List};
ghost use Rattle.bk_base.specs.declared.writes.Write.{Write};
ghost use Rattle.bk_disk.specs.Crashes.{IsSynced, MayLeave, fronts_at};
ghost use Rattle.bk_disk.specs.Told.{Image, Told, clock};
ghost use Rattle.bk_image.specs.SoundDirectory.{IsSound};
ghost use Rattle.bk_load.specs.Tidying.{Goes, NoneLent};

/// A crash at any moment of a recovery of a synced disk leaves a sound directory with the log that was
/// there, and so does the recovery itself.
pub fn recovery_keeps_log()
    ensures crash { (t u : Told) (log : List Write) → Goes t u → IsSynced t → IsSound t.image log → (k : ℕ)
        → clock t ≤ k → k ≤ clock u → (left : Image) → MayLeave (fronts_at u k) left → IsSound left log }
    ensures now { (t u : Told) (log : List Write) → Goes t u → IsSound t.image log → IsSound u.image log }
{}

/// No file of a synced disk is lent, such as a crash leaves it.
pub fn synced_lends_nothing()
    ensures { (t : Told) → IsSynced t → NoneLent t.fronts }
{}
