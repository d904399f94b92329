//! A value is located, and read later.
ghost use Rattle.std.specs.Prelude.{◌≡◌, ◌≤◌, ℕ};
ghost use Rattle.bk_drill.specs.Progress.{ActsAs};
ghost use Rattle.bk_script.specs.declared.lines.Action.TheVariants.{Get, Read};

use crate::drills::Drill;
use crate::values::read_value;
use bk_base::Key;
use bk_script::{Actor, Printed};
use bk_store::LocateError;

impl Drill {
    /// Locates the value of a key. The actor keeps its loan.
    pub(crate) fn get(&mut self, actor: Actor, key: &Key) -> Printed
        requires { actor.0 ≤ 26 }
        ensures { ActsAs actor.0 (Get key.now) result self.old self.new }
    {
        match self.store.locate(key, self.now) {
            Ok(Some(loan)) => {
                self.loans.keep(actor, loan);
                Printed::Loan
            }
            Ok(None) => Printed::Absent,
            Err(LocateError::Disk) => Printed::Disk,
            Err(LocateError::Memory) => Printed::Memory,
        }
    }

    /// Reads the loan that the actor keeps, which is then gone.
    pub(crate) fn read(&mut self, actor: Actor) -> Printed
        requires { actor.0 ≤ 26 }
        ensures { ActsAs actor.0 Read result self.old self.new }
    {
        let Some(loan) = self.loans.take(actor) else {
            return Printed::NoLoan;
        };
        match read_value(self.alloc, loan) {
            Ok(value) => Printed::Value(value),
            Err(line) => line,
        }
    }
}
