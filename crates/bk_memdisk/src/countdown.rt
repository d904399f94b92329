//! The number of the call that fails.
ghost use Rattle.std.specs.Prelude.{◌≡◌, ◌↔◌, IsTrue};
ghost use Rattle.bk_memdisk.specs.Countdown.{IsDue, counted};

// Counts a call, and says whether it is the one that fails.
pub(crate) fn is_due(due: &mut Option<u64>) -> bool
    ensures fails { IsTrue result ↔ IsDue due.old }
    ensures counted { due.new ≡ counted due.old }
{
    let Some(calls) = due else {
        return false;
    };
    let fails = *calls == 1;
    *calls = calls.saturating_sub(1);
    fails
}
