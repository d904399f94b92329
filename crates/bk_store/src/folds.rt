//! The events of folds.
ghost use Rattle.std.specs.Prelude.{◌≡◌, ◌<◌, ◌≤◌, ◌↔◌, ℕ, List, [], None, Some, true, is_some, IsTrue, IsErr, IfOk, IfErr, OnOk, OnErr, IsErrOf};
ghost use Rattle.bk_base.specs.declared.calls.Answer.TheVariants.{Done, Fold as fold_answer};
ghost use Rattle.bk_base.specs.declared.calls.Call.TheVariants.{FoldClose, FoldNext, FoldOpen};
ghost use Rattle.bk_base.specs.declared.histories.Opening.{Opening};
ghost use Rattle.bk_base.specs.declared.histories.Step.{Step};
ghost use Rattle.bk_base.specs.declared.limits.TheConstants.{MOST_FOLDS};
ghost use Rattle.bk_base.specs.declared.writes.Write.{Write};
ghost use Rattle.bk_disk.specs.Causes.{Rose};
ghost use Rattle.bk_keydir.specs.Slots.{first_free, slot_at, who_of};
ghost use Rattle.bk_laws.specs.History.{log_of};
ghost use Rattle.bk_store.specs.Events.{CrashMeets, Keeps, entry_by, quiet_by};
ghost use Rattle.bk_store.specs.FoldEvents.{IsClosed, IsFoldError, IsOpened, LendsPair, ListsNext, lent_of, next_reply};
ghost use Rattle.bk_store.specs.Loans.{Views, ViewsNothing, view_of};
ghost use Rattle.bk_store.specs.Standing.{StandsFor};

use crate::errors::{FoldError, NoFold};
use crate::loans::{Loan, lend};
use crate::store::Store;
use bk_base::{Key, Moment, Seq};
use bk_disk::{Disk, View};
use bk_keydir::FullFolds;

/// A fold that was opened: it lists the pairs that were live at `now` as the write of seq `epoch` was
/// the last.
#[derive(Clone, Copy, Debug, PartialEq, Eq)]
pub struct Fold {
    pub epoch: Seq,
    pub now: Moment,
    pub slot: u8,
}

/// A pair that a fold lists: its key, and the record with its value.
#[derive(Drop)]
pub struct Row2<V: View + Drop> {
    pub key: Key,
    pub loan: Loan<V>,
}

impl<D: Disk> Store<D> {
    /// Opens a fold in the least free slot, for the caller `who`. `FullFolds` comes exactly where 64 are
    /// open. It takes no memory and makes no disk call.
    pub fn fold_open(&mut self, who: u64, now: Moment) -> Result<Fold, FullFolds>
        ensures opened { IfOk result (IsOpened who now self.old self.new) }
        ensures full { IsErr result ↔ (first_free self.old.keys.slots ≡ None) }
        ensures all { OnErr result ((n : ℕ) → n < MOST_FOLDS
            → is_some (slot_at self.old.keys.slots n) ≡ true) }
        ensures untouched { OnErr result (self.new ≡ self.old) }
        ensures ok { IsTrue D.tells → IfOk result (λ fold. Keeps D.tells
            (entry_by who (FoldOpen now) (fold_answer fold.epoch fold.slot)) self.old self.new) }
        ensures refused { IsTrue D.tells → OnErr result (Keeps D.tells (quiet_by who) self.old self.new) }
        ensures crash { IsTrue D.tells → CrashMeets [] self.old self.new }
    {
        let epoch = self.last;
        let slot = self.keydir.open_fold(who, epoch, now)?;
        Ok(Fold { epoch, now, slot })
    }

    /// The next pair that the fold in this slot lists, in no order that is promised; None exactly where
    /// it has listed all. It makes one view of exactly the record, and none for None. `NoFold` comes
    /// exactly where the slot isn't open by `who`. After a refusal the fold is as before.
    pub fn fold_next(&mut self, who: u64, slot: u8) -> Result<Option<Row2<D::View>>, FoldError>
        ensures lent { IfOk result (ListsNext who slot self.old self.new) }
        ensures error { IfErr result (IsFoldError who slot self.old self.new) }
        ensures later { self.old.files.faults ≤ self.new.files.faults }
        ensures views { IfOk result (λ found. self.new.files.fallible_views
            ≡ view_of (lent_of found) self.old.files.fallible_views) }
        ensures no_view { OnErr result (self.new.files.fallible_views ≡ self.old.files.fallible_views) }
        ensures outs { self.new.files.fallible_outs ≡ self.old.files.fallible_outs }
        ensures viewed { IsTrue D.tells → IfOk result (λ found.
            Views (lent_of found) self.old.files.told self.new.files.told) }
        ensures nothing_viewed { IsTrue D.tells → OnErr result
            (ViewsNothing self.old.files.told self.new.files.told) }
        ensures winner { IsTrue D.tells → IfOk result (λ found.
            (o : Opening) (h : List Step) (tried : List Write) → StandsFor self.old o h tried
            → LendsPair slot self.old (log_of o h) found) }
        ensures ok { IsTrue D.tells → IfOk result (λ found. Keeps D.tells
            (entry_by who (FoldNext slot) (next_reply found)) self.old self.new) }
        ensures refused { IsTrue D.tells → OnErr result (Keeps D.tells (quiet_by who) self.old self.new) }
        ensures crash { IsTrue D.tells → CrashMeets [] self.old self.new }
    {
        if self.keydir.owner(slot) != Some(who) {
            return Err(FoldError::NoFold(slot));
        }
        // That no key stands twice is what `len` says.
        let _len = self.keydir.len();
        let Some(position) = self.keydir.next_at(slot, self.settings.ttl) else {
            return Ok(None);
        };
        let Some(version) = self.keydir.seen_at(slot, position) else {
            return Ok(None);
        };
        let key = self.keydir.key_at(position).copy()?;
        let loan = lend(&mut self.files, &key, version)?;
        self.keydir.step(slot, position);
        Ok(Some(Row2 { key, loan }))
    }

    /// Closes the fold in this slot. `NoFold` comes exactly where the slot isn't open by `who`. It takes
    /// no memory and makes no disk call.
    pub fn fold_close(&mut self, who: u64, slot: u8) -> Result<(), NoFold>
        ensures closed { OnOk result (IsClosed slot self.old self.new) }
        ensures owner { IsErr result ↔ ((who_of (slot_at self.old.keys.slots slot) ≡ Some who) → ⊥) }
        ensures slot { IfErr result (λ e. (e.0 ≡ slot) × (self.new ≡ self.old)) }
        ensures ok { IsTrue D.tells → OnOk result (Keeps D.tells
            (entry_by who (FoldClose slot) Done) self.old self.new) }
        ensures refused { IsTrue D.tells → OnErr result (Keeps D.tells (quiet_by who) self.old self.new) }
        ensures crash { IsTrue D.tells → CrashMeets [] self.old self.new }
    {
        if self.keydir.owner(slot) != Some(who) {
            return Err(NoFold(slot));
        }
        self.keydir.close_fold(slot);
        Ok(())
    }
}
