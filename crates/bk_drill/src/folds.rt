//! Folds: they are opened, give their pairs, and are closed.
ghost use Rattle.std.specs.Prelude.{◌≡◌, ℕ, IsTrue};
ghost use Rattle.bk_drill.specs.Loans.{IsUnread, ShowsPair};
ghost use Rattle.bk_drill.specs.Progress.{ActsAs};
ghost use Rattle.bk_script.specs.declared.lines.Action.TheVariants.{End, Fold as fold_action, Next};

use crate::drills::Drill;
use crate::values::read_value;
use bk_base::Full;
use bk_disk::View;
use bk_script::{Actor, Printed};
use bk_store::{Fold, FoldError, Row2};
use std::alloc::Global;

impl Drill {
    pub(crate) fn fold(&mut self, actor: Actor) -> Printed
        ensures { ActsAs actor.0 fold_action result self.old self.new }
    {
        match self.store.fold_open(actor.0 as u64, self.now) {
            Ok(Fold { epoch, slot, .. }) => Printed::Fold { slot, epoch },
            Err(_) => Printed::Full(Full::Folds),
        }
    }

    /// The next pair of a fold, whose value is read.
    pub(crate) fn next(&mut self, actor: Actor, slot: u8) -> Printed
        ensures { ActsAs actor.0 (Next slot) result self.old self.new }
    {
        match self.store.fold_next(actor.0 as u64, slot) {
            Ok(Some(row)) => {
                self.tallies.add(slot);
                pair_line(self.alloc, row)
            }
            Ok(None) => Printed::End(self.tallies.of(slot)),
            Err(FoldError::NoFold(asked)) => Printed::NoFold(asked),
            Err(FoldError::Disk) => Printed::Disk,
            Err(FoldError::Memory) => Printed::Memory,
        }
    }

    pub(crate) fn end(&mut self, actor: Actor, slot: u8) -> Printed
        ensures { ActsAs actor.0 (End slot) result self.old self.new }
    {
        match self.store.fold_close(actor.0 as u64, slot) {
            Ok(()) => {
                self.tallies.reset(slot);
                Printed::Closed
            }
            Err(refused) => Printed::NoFold(refused.0),
        }
    }
}

/// The line of a pair, whose value is read.
fn pair_line<V: View + Drop>(alloc: Global, row: Row2<V>) -> Printed
    requires { IsUnread row.loan }
    ensures { IsTrue V.tells → ShowsPair row.key row.loan result }
{
    match read_value(alloc, row.loan) {
        Ok(value) => Printed::Pair {
            key: row.key,
            value,
        },
        Err(line) => line,
    }
}
