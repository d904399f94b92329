//! Whether an action went as the calls that fail were chosen.
ghost use Rattle.std.specs.Prelude.{◌≡◌, ◌↔◌, ℕ, IsTrue};
ghost use Rattle.bk_drill.specs.Lines.{IsAsPlanned, MeetsChosen};

use bk_memdisk::Plan;
use bk_script::Printed;

/// Whether an action that printed this line, with so many calls of the disk in all, went as it was planned.
pub(crate) fn is_as_planned(plan: &Plan, calls: u64, line: &Printed) -> bool
    ensures { IsTrue result → IsAsPlanned plan.now calls line.now }
{
    if calls < plan.calls() {
        return false;
    }
    let fails = meets_chosen(plan, calls);
    match line {
        Printed::Disk => fails,
        Printed::Memory => true,
        Printed::Read => false,
        _ => !fails,
    }
}

/// Whether one of the calls that were made since, up to this number, was chosen to fail.
fn meets_chosen(plan: &Plan, calls: u64) -> bool
    ensures { IsTrue result ↔ MeetsChosen plan.now calls }
{
    for before in plan.calls()..calls {
        if plan.effect(before + 1).is_some() {
            return true;
        }
    }
    false
}
