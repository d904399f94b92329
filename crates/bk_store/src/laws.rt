//! What follows of a store that stands for a history.
ghost use Rattle.std.specs.Prelude.{◌≡◌, List, length};
ghost use Rattle.bk_base.specs.declared.histories.Opening.{Opening};
ghost use Rattle.bk_base.specs.declared.histories.Step.{Step};
ghost use Rattle.bk_base.specs.declared.writes.Write.{Write};
ghost use Rattle.bk_image.specs.Prefix.{MeetsPrefix, Prefix};
ghost use Rattle.bk_laws.specs.History.{log_of};
ghost use Rattle.bk_store.specs.History.{kept_of};
ghost use Rattle.bk_store.specs.Shown.{Shown};
ghost use Rattle.bk_store.specs.Standing.{StandsFor};

/// The directory as it reads is sound, and it has the map of the log, or of the log and what was tried.
pub fn image_has_the_map()
    ensures { (v : Shown) (o : Opening) (h : List Step) (tried : List Write) → StandsFor v o h tried
        → Prefix v.files.told.image (log_of o h) (length (log_of o h)) tried }
{}

/// Each image that a crash may leave without a chance match has the map of a prefix of the log that
/// holds each synced write.
pub fn each_crash_meets_the_prefix()
    ensures { (v : Shown) (o : Opening) (h : List Step) (tried : List Write) → StandsFor v o h tried
        → MeetsPrefix (log_of o h) (kept_of o h) tried v.files.told.fronts }
{}
