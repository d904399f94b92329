//! Which write of a log counts for its key.
ghost use Rattle.std.specs.Prelude.{◌≡◌, ℕ, None, drop, is_some, IfSome};
ghost use Rattle.bk_laws.specs.Log.{IsWinner, is_superseded};
ghost use Rattle.bk_laws.specs.Log.{live as live_value, winner as winning_write};

use crate::expiry::live;
use bk_base::{Body, Key, Moment, Write};

/// The place of the last write of the key in the log, from 0; None where there is none.
pub fn winner(log: &[Write], key: &Key) -> Option<usize>
    ensures some { IfSome result (λ place. IsWinner log.now key.now place) }
    ensures none { result ≡ None → winning_write log.now key.now ≡ None }
{
    let mut place = log.len();
    while place > 0 {
        place -= 1;
        if log[place].key == *key {
            return Some(place);
        }
    }
    None
}

/// Whether a later write of the log has the key of the write at this place.
pub fn superseded(log: &[Write], place: usize) -> bool
    ensures { result ≡ is_superseded (drop place log.now) }
{
    match log.get(place..) {
        Some([write, later @ ..]) => winner(later, &write.key).is_some(),
        _ => false,
    }
}

/// The place of the put whose value the key has at `now`, with a time to live in seconds; None where
/// it has none.
pub fn value_at(log: &[Write], key: &Key, now: Moment, ttl: u32) -> Option<usize>
    ensures place { IfSome result (λ place. IsWinner log.now key.now place) }
    ensures value { is_some result ≡ is_some (live_value log.now key.now now.0 ttl) }
{
    let place = winner(log, key)?;
    let write = &log[place];
    match write.body {
        Body::Put(_) if live(write.moment, now, ttl) => Some(place),
        _ => None,
    }
}
