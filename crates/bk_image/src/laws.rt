//! What follows from the definitions.
ghost use Rattle.std.specs.Prelude.{◌≡◌, ℕ, ◌<◌, ◌≤◌, List, [], ◌∷◌, ◌++◌, length, true, Option, Some, None};
ghost use Rattle.std.specs.Str.{bytes_eq};
ghost use Rattle.bk_base.specs.declared.histories.Opening.{Opening};
ghost use Rattle.bk_base.specs.declared.histories.Step.{Step};
ghost use Rattle.bk_base.specs.declared.names.Name.{Name};
ghost use Rattle.bk_base.specs.declared.writes.Write.{Write};
ghost use Rattle.bk_disk.specs.Told.{IsAbsent, Told, at};
ghost use Rattle.bk_laws.specs.History.{IsLegalHistory, log_of};
ghost use Rattle.bk_laws.specs.Log.{IsLog, SameMap, winner};
ghost use Rattle.bk_image.specs.Core.{ActiveFile};
ghost use Rattle.bk_image.specs.CountedFiles.{HasNoList};
ghost use Rattle.bk_image.specs.Growth.{written_by};
ghost use Rattle.bk_image.specs.Holds.{Holds, IsIdle, Young};
ghost use Rattle.bk_image.specs.Prefix.{MeetsPrefix, Prefix};
ghost use Rattle.bk_image.specs.Readings.{Books, In, Reading};
ghost use Rattle.bk_image.specs.RecoveredLog.{Recovers};
ghost use Rattle.bk_image.specs.SoundDirectory.{IsSound, IsSoundDisk};

/// A directory holds one log.
pub fn one_log()
    ensures { (r : Reading) (books other : Books) (log more : List Write) →
        Recovers r books log → Recovers r other more → log ≡ more }
{}

/// Of the writes of a key the one with the greatest seq is its winner.
pub fn greatest_seq_wins()
    ensures { (log : List Write) (key : List ℕ) (w : Write) → IsLog log → In w log → bytes_eq w.key key ≡ true →
        ((x : Write) → In x log → bytes_eq x.key key ≡ true → x.seq.0 ≤ w.seq.0) → winner log key ≡ Some w }
{}

/// The log of a legal history rises.
pub fn legal_log_rises()
    ensures { (o : Opening) (h : List Step) → IsLog o.log → IsLegalHistory o h → IsLog (log_of o h) }
{}

/// A step adds to the log the write of its call, or nothing.
pub fn step_grows_log()
    ensures { (o : Opening) (h : List Step) (step : Step) →
        log_of o (h ++ step ∷ []) ≡ log_of o h ++ written_by step.entry.call step.entry.reply }
{}

/// A store can run on each disk of which a crash takes nothing, whose files hold a log and which has no
/// swap list.
pub fn sound_disk_holds()
    ensures { (t : Told) (log : List Write) (last : ℕ) → IsSoundDisk t log → HasNoList (at t.image) →
        ((n : Name) → last < n.id → IsAbsent n t.image) → Holds (Young IsIdle) t None last log (length log) [] }
{}

/// The image of a disk that holds a log has the log's map, while no append has failed.
pub fn image_has_map()
    ensures { (t : Told) (active : Option ActiveFile) (last kept : ℕ) (log : List Write) →
        Holds (Young IsIdle) t active last log kept [] →
        (found : List Write) × IsSound t.image found × SameMap found log }
{}

/// After a failed append it has that map with some of the writes that were tried.
pub fn image_has_prefix()
    ensures { (t : Told) (active : Option ActiveFile) (last kept : ℕ) (log tried : List Write) →
        Holds (Young IsIdle) t active last log kept tried → Prefix t.image log (length log) tried }
{}

/// A crash leaves a prefix of the log with every synced write, where no torn bytes are a record by
/// chance.
pub fn crash_leaves_prefix()
    ensures { (t : Told) (active : Option ActiveFile) (last kept : ℕ) (log tried : List Write) →
        Holds (Young IsIdle) t active last log kept tried → MeetsPrefix log kept tried t.fronts }
{}
