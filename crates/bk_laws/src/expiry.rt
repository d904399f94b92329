//! When a put has expired.
ghost use Rattle.std.specs.Prelude.{◌≡◌};
ghost use Rattle.bk_laws.specs.Log.{is_fresh};

use bk_base::Moment;

/// Whether a put made at `moment` is live at `now`, with a time to live in seconds; 0 has no end.
pub fn live(moment: Moment, now: Moment, ttl: u32) -> bool
    ensures { result ≡ is_fresh moment.0 now.0 ttl }
{
    ttl == 0 || u64::from(now.0) < u64::from(moment.0) + u64::from(ttl)
}
