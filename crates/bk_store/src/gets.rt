//! The event that reads.
ghost use Rattle.std.specs.Prelude.{◌≡◌, ◌≤◌, ℕ, List, [], IsTrue, IfOk, OnErr, IsErrOf};
ghost use Rattle.bk_base.specs.declared.calls.Call.TheVariants.{Get};
ghost use Rattle.bk_base.specs.declared.histories.Opening.{Opening};
ghost use Rattle.bk_base.specs.declared.histories.Step.{Step};
ghost use Rattle.bk_base.specs.declared.writes.Write.{Write};
ghost use Rattle.bk_disk.specs.Causes.{Rose};
ghost use Rattle.bk_keydir.specs.Keydir.{newest_of, versions_of};
ghost use Rattle.bk_laws.specs.History.{log_of};
ghost use Rattle.bk_laws.specs.Log.{winner};
ghost use Rattle.bk_store.specs.Events.{CrashMeets, Keeps, entry_by, quiet_by};
ghost use Rattle.bk_store.specs.Loans.{LendsNewest, LendsWrite, Views, ViewsNothing, get_reply, live_of, view_of};
ghost use Rattle.bk_store.specs.Standing.{StandsFor};

use crate::errors::LocateError;
use crate::loans::{Loan, lend};
use crate::store::Store;
use bk_base::{Key, Moment, Version};
use bk_disk::Disk;
use bk_keydir::Keydir;
use bk_laws::live;

impl<D: Disk> Store<D> {
    /// The record of a key's value that is live at `now`, to be read; None exactly where the key isn't
    /// live. It makes one view of exactly the record, and none for None.
    pub fn locate(&mut self, key: &Key, now: Moment) -> Result<Option<Loan<D::View>>, LocateError>
        ensures lent { IfOk result (LendsNewest self.old.settings.ttl now.0 key.now
            (newest_of (versions_of key.now self.old.keys.entries))) }
        ensures same { self.new ≡ record self.old { files = self.new.files } }
        ensures catalog { self.new.files.catalog ≡ self.old.files.catalog }
        ensures later { self.old.files.faults ≤ self.new.files.faults }
        ensures disk { IsErrOf result LocateError.Disk → Rose self.old.files.faults self.new.files.faults }
        ensures views { IfOk result (λ found. self.new.files.fallible_views
            ≡ view_of found self.old.files.fallible_views) }
        ensures no_view { OnErr result (self.new.files.fallible_views ≡ self.old.files.fallible_views) }
        ensures outs { self.new.files.fallible_outs ≡ self.old.files.fallible_outs }
        ensures viewed { IsTrue D.tells → IfOk result (λ found.
            Views found self.old.files.told self.new.files.told) }
        ensures nothing_viewed { IsTrue D.tells → OnErr result
            (ViewsNothing self.old.files.told self.new.files.told) }
        ensures winner { IsTrue D.tells → IfOk result (λ found.
            (o : Opening) (h : List Step) (tried : List Write) → StandsFor self.old o h tried
            → LendsWrite (winner (log_of o h) key.now) found) }
        ensures ok { IsTrue D.tells → IfOk result (λ found. (who : ℕ)
            → Keeps D.tells (entry_by who (Get key.now now) (get_reply found)) self.old self.new) }
        ensures refused { IsTrue D.tells → OnErr result ((who : ℕ)
            → Keeps D.tells (quiet_by who) self.old self.new) }
        ensures crash { IsTrue D.tells → CrashMeets [] self.old self.new }
    {
        match live_version(&self.keydir, key, now, self.settings.ttl) {
            None => Ok(None),
            Some(version) => {
                let loan = lend(&mut self.files, key, version)?;
                Ok(Some(loan))
            }
        }
    }
}

// The newest version of a key, where it is a put that is live at `now`.
fn live_version(keydir: &Keydir, key: &Key, now: Moment, ttl: u32) -> Option<Version>
    ensures { result ≡ live_of ttl now.0 (newest_of (versions_of key.now keydir.now.entries)) }
{
    let version = keydir.newest(key)?;
    if version.gone || !live(version.moment, now, ttl) {
        return None;
    }
    Some(version)
}
